//! The hashed owners of names, and the sets that match and cover a name.
ghost use Rattle.std.specs.Prelude.{◌≡◌, ◌⊎◌, length, Ok, Err, IfOk, IfErr, OnOk, IsOkUnless, filter_map, option_copied, option_to_list};
ghost use Rattle.std.specs.Option.{option_or};
ghost use Rattle.zone_proto.specs.Types.{NSEC3};
ghost use Rattle.zone_map.specs.Counts.{counted_more};
ghost use Rattle.zone_map.specs.Zones.{set_at, IsZone};
ghost use Rattle.zone_denial.specs.Nsec3Denial.{match_owner, cover_owner};
ghost use Rattle.zone_denial.specs.Nsec3Lent.{hashed_for};

use lookup_types::Nsec3QueryInfo;
use zone_map::{Reads, RecordMap};
use zone_proto::{LowerName, Nsec3Hash, ProtoError, RecordSet, RecordType, RrKey};

/// How the names of a zone are hashed for a query.
#[derive(Drop)]
pub(crate) struct Hashing<'q, H> {
    /// The zone's origin.
    pub origin: &'q LowerName,
    /// The query, which has the parameters.
    pub query: &'q Nsec3QueryInfo<'q>,
    /// The hash.
    pub hash: &'q H,
}

impl<H: Nsec3Hash> Hashing<'_, H> {
    /// The owner that the NSEC3 set of a name has, or would have.
    pub fn owner(&self, name: &LowerName) -> Result<LowerName, ProtoError>
        ensures ok { IfOk result
            (λ owner. hashed_for self.now.origin.now (H.digest_of self.now.hash.now)
            self.now.query.now name.now
            ≡ Ok owner) }
        ensures err { IfErr result
            (λ e. (e ≡ ProtoError.Memory)
            ⊎ (hashed_for self.now.origin.now (H.digest_of self.now.hash.now) self.now.query.now
            name.now
            ≡ Err e)) }
    {
        self.query.hashed_owner_name(self.hash, name, self.origin)
    }
}

/// A name that was hashed, and what matches it (RFC 5155 section 1.3).
#[derive(Drop)]
pub(crate) struct Matched<'m> {
    /// The owner that the NSEC3 set of the name has, or would have.
    pub owner: LowerName,
    /// That set, if there is one.
    pub set: Option<&'m RecordSet>,
}

/// Hashes a name, and looks for the set that matches it.
pub(crate) fn matching<'m, H: Nsec3Hash>(
    records: &'m RecordMap,
    hashing: &Hashing<'_, H>,
    name: &LowerName,
) -> Result<Matched<'m>, ProtoError>
    ensures owner { IfOk result
        (λ matched. hashed_for hashing.now.origin.now (H.digest_of hashing.now.hash.now)
        hashing.now.query.now name.now
        ≡ Ok matched.owner) }
    ensures set { IfOk result
        (λ matched. option_copied matched.set ≡ set_at records.now matched.owner NSEC3) }
    ensures err { IfErr result
        (λ e. (e ≡ ProtoError.Memory)
        ⊎ (hashed_for hashing.now.origin.now (H.digest_of hashing.now.hash.now)
        hashing.now.query.now name.now
        ≡ Err e)) }
{
    let key = RrKey::new(hashing.owner(name)?, RecordType::NSEC3);
    let set = records.get(&key);
    Ok(Matched {
        owner: key.name,
        set,
    })
}

/// The set that matches the name of which this is the hashed owner, or else the one that covers it: that of the
/// greatest owner that isn't after it, or of the greatest of all where each is after it. Its only error is `Memory`.
pub(crate) fn matching_or_covering<'m>(
    records: &'m RecordMap,
    hashed: &LowerName,
) -> Result<Option<&'m RecordSet>, ProtoError>
    ensures ok { IfOk result
        (λ set. option_to_list (option_copied set)
        ≡ filter_map (λ o. set_at records.now o NSEC3)
        (option_to_list
        (option_or (match_owner records.now hashed.now)
        (cover_owner records.now hashed.now)))) }
    ensures err { IsOkUnless result ProtoError.Memory }
{
    let mut upto = records.denial_owners_upto(RecordType::NSEC3, hashed);
    match upto.read_last(&mut Reads::new()) {
        Some(owner) => own_set(records, owner),
        None => covering(records, hashed),
    }
}

/// The set that covers the name of which this is the hashed owner (RFC 5155 section 1.3): that of the greatest owner
/// before it, or of the greatest of all where none is before. Its only error is `Memory`.
pub(crate) fn covering<'m>(
    records: &'m RecordMap,
    hashed: &LowerName,
) -> Result<Option<&'m RecordSet>, ProtoError>
    ensures ok { IfOk result
        (λ set. option_to_list (option_copied set)
        ≡ filter_map (λ o. set_at records.now o NSEC3)
        (option_to_list (cover_owner records.now hashed.now))) }
    ensures zone { OnOk result (IsZone records.now) }
    ensures err { IsOkUnless result ProtoError.Memory }
{
    match cover_owner(records, hashed, &mut Reads::new()) {
        Some(owner) => own_set(records, owner),
        None => Ok(None),
    }
}

/// The NSEC3 set of an owner. Its only error is `Memory`.
fn own_set<'m>(
    records: &'m RecordMap,
    owner: &LowerName,
) -> Result<Option<&'m RecordSet>, ProtoError>
    ensures ok { IfOk result (λ set. option_copied set ≡ set_at records.now owner.now NSEC3) }
    ensures err { IsOkUnless result ProtoError.Memory }
{
    let key = RrKey::new(owner.clone()?, RecordType::NSEC3);
    Ok(records.get(&key))
}

/// The owner of the set that covers the name of which this is the hashed owner. It counts one read, or none if there is
/// no such owner.
fn cover_owner<'m>(
    records: &'m RecordMap,
    hashed: &LowerName,
    reads: &mut Reads,
) -> Option<&'m LowerName>
    ensures found { option_copied result ≡ cover_owner records.now hashed.now }
    ensures counted { reads.new
        ≡ counted_more (length (option_to_list (cover_owner records.now hashed.now))) reads.old }
    ensures zone { IsZone records.now }
{
    let mut before = records.denial_owners_before(RecordType::NSEC3, hashed);
    match before.read_last(reads) {
        Some(owner) => Some(owner),
        None => records
            .last_denial_owners(RecordType::NSEC3)
            .read_last(reads),
    }
}
