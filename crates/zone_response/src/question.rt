//! What is asked, and of which zone.

use zone_lookup::InnerInMemory;
use zone_map::RecordMap;
use zone_proto::{DNSClass, LowerName, Nsec3Hash, NxProofKind, RecordType, Signer};

/// A zone that is asked: of an `InMemoryZoneHandler` what its calls `origin`, `inner` and `nx_proof_kind` lend, and a hash of
/// names as it was made with.
#[derive(Drop)]
pub struct ServedZone<'z, S: Signer, H: Nsec3Hash> {
    /// The name at its top.
    pub origin: &'z LowerName,
    /// Its record sets.
    pub inner: &'z InnerInMemory<S>,
    /// The record sets in which the NSEC or NSEC3 sets are looked up that prove what is said. A zone that has NSEC and NSEC3 sets of
    /// one chain alone lends its record sets, [`InnerInMemory::record_map`]; one that has sets of several chains, or those that are
    /// left of an old one, lends its record sets without those of the others, with which a proof mustn't be mixed (RFC 5155 section
    /// 7.3).
    pub denials: &'z RecordMap,
    /// How it denies what it doesn't hold.
    pub nx_proof_kind: Option<&'z NxProofKind>,
    /// What names are hashed by, where it denies by NSEC3 (RFC 5155 section 5).
    pub hash: &'z H,
    /// The moment at which it is asked, in seconds since 1970. The signatures of sets that are made for a response hold from
    /// then on (RFC 4034 section 3.1.5).
    pub moment: u64,
}

/// A question (RFC 1035 section 4.1.2).
#[derive(Clone, Copy)]
pub struct Question<'q> {
    /// The name that is asked for.
    pub name: &'q LowerName,
    /// The type that is asked for.
    pub query_type: RecordType,
    /// The class that is asked for.
    pub query_class: DNSClass,
}
