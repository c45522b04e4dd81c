//! A rule of a table.

use zone_proto::{LowerName, RecordType};

/// Which names a rule is about.
#[derive(Clone, Copy, PartialEq, Eq, Debug)]
pub enum RuleScope {
    /// The rule's own name, and no other.
    Name,
    /// The rule's own name, and all names below it.
    Subdomain,
    /// The name of the key, and no other: so a host changes its own records.
    OwnName,
    /// The name of the key, and all names below it.
    OwnSubdomain,
}

/// A rule about who may change what.
#[derive(Drop)]
pub struct Rule {
    /// Whether what it is about is granted; if not, it is denied.
    pub grants: bool,
    /// The name of the key whose owner it is about (RFC 8945 section 4.2).
    pub key: LowerName,
    /// Which names it is about.
    pub scope: RuleScope,
    /// Its own name, where the scope is about that.
    pub name: LowerName,
    /// The types that it is about; ANY is each type. With no types it is about each but SOA and NS. It is never about NSEC, NSEC3,
    /// NSEC3PARAM and RRSIG, which follow from the other sets of the zone.
    pub types: Vec<RecordType>,
}
