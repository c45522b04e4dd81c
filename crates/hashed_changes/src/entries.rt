//! NSEC3 sets by what they say.
ghost use Rattle.std.specs.Prelude.{◌≡◌, ◌++◌, ◌∷◌, [], Some, map, filter_map, option_map, IfOk, OnOk, IsOkUnless};
ghost use Rattle.zone_proto.specs.Keys.{key as key_at};
ghost use Rattle.zone_proto.specs.Types.{NSEC3 as nsec3_type};
ghost use Rattle.zone_map.specs.Zones.{AreStored, IsStoredAt};
ghost use Rattle.hashed_changes.specs.Renewals.{entry_of, record_by, set_by};

use crate::renewals::{Link, Renewal};
use std::alloc::Global;
use zone_proto::{
    LowerName, NSEC3, NSEC3PARAM, Name, ProtoError, RData, Record, RecordSet, RecordType, RrKey,
};

/// The NSEC3 sets that say so, under their keys; of owners that are to have none there is none. Refused by `Memory` alone.
pub(crate) fn entries_of(
    alloc: Global,
    made: &[Renewal],
    parameters: &NSEC3PARAM,
    ttl: u32,
    serial: u32,
) -> Result<Vec<(RrKey, RecordSet)>, ProtoError>
    ensures ok { IfOk result
        (λ es. es.items ≡ filter_map (entry_of parameters.now ttl serial) made.now) }
    ensures stored { IfOk result (λ es. AreStored es.items) }
    ensures err { IsOkUnless result ProtoError.Memory }
{
    let mut entries = Vec::new(alloc);
    for renewal in made {
        push_entry(renewal, parameters, ttl, serial, &mut entries)?;
    }
    Ok(entries)
}

/// Puts the set of an owner, if it is to have one, behind others. Refused by `Memory` alone.
fn push_entry(
    renewal: &Renewal,
    parameters: &NSEC3PARAM,
    ttl: u32,
    serial: u32,
    entries: &mut Vec<(RrKey, RecordSet)>,
) -> Result<(), ProtoError>
    ensures ok { OnOk result (entries.new.items
        ≡ entries.old.items
        ++ filter_map (entry_of parameters.now ttl serial) (renewal.now ∷ [])) }
    ensures stored { OnOk result (AreStored entries.old.items → AreStored entries.new.items) }
    ensures err { IsOkUnless result ProtoError.Memory }
{
    match &renewal.link {
        Some(link) => {
            let entry = entry_by(&renewal.owner, link, parameters, ttl, serial)?;
            entries.push(entry)?;
            Ok(())
        }
        None => Ok(()),
    }
}

/// The NSEC3 set of an owner that says so, under its key. Refused by `Memory` alone.
fn entry_by(
    owner: &LowerName,
    link: &Link,
    parameters: &NSEC3PARAM,
    ttl: u32,
    serial: u32,
) -> Result<(RrKey, RecordSet), ProtoError>
    ensures key { IfOk result (λ e. e.0 ≡ key_at owner.now nsec3_type) }
    ensures set { IfOk result
        (λ e. set_by parameters.now ttl serial owner.now (Some link.now) ≡ Some e.1) }
    ensures stored { IfOk result (λ e. IsStoredAt e.0.name e.0.record_type.0 e.1) }
    ensures err { IsOkUnless result ProtoError.Memory }
{
    let record = record_by(owner, link, parameters, ttl)?;
    let mut set = RecordSet::new(Name::from(owner.clone()?), RecordType::NSEC3, serial);
    set.insert(record, serial)?;
    Ok((RrKey::new(owner.clone()?, RecordType::NSEC3), set))
}

/// The NSEC3 record of an owner that says so (RFC 5155 section 3). Refused by `Memory` alone.
fn record_by(
    owner: &LowerName,
    link: &Link,
    parameters: &NSEC3PARAM,
    ttl: u32,
) -> Result<Record, ProtoError>
    ensures ok { IfOk result (λ r. r ≡ record_by parameters.now ttl owner.now link.now) }
    ensures err { IsOkUnless result ProtoError.Memory }
{
    let data = NSEC3 {
        algorithm: parameters.algorithm,
        opt_out: parameters.opt_out,
        iterations: parameters.iterations,
        salt: parameters.salt.clone()?,
        next_hashed_owner_name: link.next.clone()?,
        types: link.types.clone()?,
    };
    let name = Name::from(owner.clone()?);
    Ok(Record::from_rdata(name, ttl, RData::NSEC3(data)))
}
