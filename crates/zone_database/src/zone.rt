//! A zone that is served.
ghost use Rattle.std.specs.Prelude.{◌≡◌, IfOk, IsOkUnless};
ghost use Rattle.zone_map.specs.Zones.{IsZone};
ghost use Rattle.zone_response.specs.Queries.{zone_of};
ghost use Rattle.zone_sha1.specs.Digests.{name_digest};
ghost use Rattle.zone_database.specs.Zones.{never_signed, served_zone, zone_of_records, IsServed};

use crate::chain::chain_beside;
use std::alloc::{AllocError, Global};
use zone_builder::denial_kind;
use zone_lookup::{InnerInMemory, NoSigner};
use zone_map::RecordMap;
use zone_proto::{LowerName, NxProofKind, ProtoError};
use zone_response::ServedZone;
use zone_sha1::Sha1Hash;

/// A zone that is served.
#[derive(Drop)]
pub struct Zone {
    /// The name at its top.
    pub origin: LowerName,
    /// Its record sets.
    pub inner: InnerInMemory<NoSigner>,
    /// How it denies what it doesn't hold.
    pub nx_proof_kind: Option<NxProofKind>,
    /// Where it has NSEC or NSEC3 sets that don't belong to the chain by which it denies: its sets without these, in which its
    /// denials are looked up.
    pub denials: Option<RecordMap>,
}

/// The zone of an origin that has these sets. It denies as [`denial_kind`] says: by the first chain of hashed names
/// that its NSEC3PARAM set announces, else by NSEC where its origin owns NSEC; and by the sets of that chain alone,
/// where sets of another one are beside them (RFC 5155 section 7.3), or those that are left of an old one. Its only
/// error is `Memory`.
pub fn zone_of(alloc: Global, origin: LowerName, records: RecordMap) -> Result<Zone, ProtoError>
    requires { IsZone records }
    ensures zone { IfOk result (λ z. z ≡ zone_of_records origin records) }
    ensures err { IsOkUnless result ProtoError.Memory }
{
    let nx_proof_kind = denial_kind(&records, &origin, &Sha1Hash)?;
    let denials = chain_beside(alloc, nx_proof_kind.as_ref(), &records)?;
    Ok(Zone {
        origin,
        inner: InnerInMemory::with_records(alloc, records),
        nx_proof_kind,
        denials,
    })
}

/// Zones as they are asked. Fails only for lack of memory.
pub fn served(
    alloc: Global,
    zones: &[Zone],
) -> Result<Vec<ServedZone<'_, NoSigner, Sha1Hash>>, AllocError>
    ensures { IfOk result (λ served. IsServed zones.now served.items) }
{
    let mut served = Vec::with_capacity(alloc, zones.len())?;
    for zone in zones {
        served.push(lent(zone))?;
    }
    Ok(served)
}

/// A zone as it is asked.
pub(crate) fn lent(zone: &Zone) -> ServedZone<'_, NoSigner, Sha1Hash>
    ensures { zone_of never_signed (λ h. name_digest) result ≡ served_zone zone.now }
{
    ServedZone {
        origin: &zone.origin,
        inner: &zone.inner,
        denials: match &zone.denials {
            Some(chain) => chain,
            None => zone.inner.record_map(),
        },
        nx_proof_kind: zone.nx_proof_kind.as_ref(),
        hash: &Sha1Hash,
        // Nobody signs here, at any moment.
        moment: 0,
    }
}
