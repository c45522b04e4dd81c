//! The NSEC set of a name, made from what the name owns and from the names after it.
ghost use Rattle.std.specs.Prelude.{◌≡◌, ◌≤◌, ◌&&◌, not, length, map, nat_lt, option_copied, IfOk, OnOk, IsOkUnless};
ghost use Rattle.std.specs.List.{prefix_len};
ghost use Rattle.std.specs.Ordering.{nat_cmp};
ghost use Rattle.zone_proto.specs.Keys.{key as key_at};
ghost use Rattle.zone_proto.specs.Names.{name_eq};
ghost use Rattle.zone_proto.specs.Types.{NSEC as nsec_type};
ghost use Rattle.zone_denial.specs.Authority.{is_authoritative};
ghost use Rattle.zone_denial.specs.NsecCircle.{nsec_next};
ghost use Rattle.zone_denial.specs.NsecSets.{nsec_data, new_set};
ghost use Rattle.zone_denial.specs.TypeLists.{joined, nsec_types};
ghost use Rattle.chain_changes.specs.Renewal.{next_authoritative, nsec_entry_of};

use crate::authority::is_authoritative;
use std::alloc::Global;
use zone_map::RecordMap;
use zone_proto::{
    LowerName, NSEC, Name, ProtoError, RData, Record, RecordSet, RecordType, RrKey, Seq,
};
use zone_update::types_at;

/// The NSEC set of a name under its key, if the zone of this origin is authoritative for the name: it has one record, with the next of these
/// names and the types that the name owns (RFC 4034 section 4). Refused by `Memory` alone.
#[tactic(auto, using(crate::proofs::MadeSets::no_entry, crate::proofs::MadeSets::entry_by))]
pub(crate) fn nsec_entry_of(
    alloc: Global,
    zone: &RecordMap,
    origin: &LowerName,
    name: &LowerName,
    ttl: u32,
    serial: u32,
) -> Result<Option<(RrKey, RecordSet)>, ProtoError>
    ensures ok { IfOk result
        (λ entry. entry ≡ nsec_entry_of origin.now zone.now ttl serial name.now) }
    ensures err { IsOkUnless result ProtoError.Memory }
{
    if !is_authoritative(alloc, zone, origin, name)? {
        return Ok(None);
    }
    let next = nsec_next(alloc, zone, origin, name)?;
    let types = nsec_types(alloc, zone, name)?;
    let entry = nsec_entry(name, next, types, ttl, serial)?;
    Ok(Some(entry))
}

/// The name that comes next in the chain after one: after the last the origin (RFC 4034 section 4.1.1). Refused by `Memory` alone.
fn nsec_next<'m>(
    alloc: Global,
    zone: &'m RecordMap,
    origin: &'m LowerName,
    name: &LowerName,
) -> Result<&'m LowerName, ProtoError>
    ensures ok { IfOk result (λ next. next.now ≡ nsec_next origin.now zone.now name.now) }
    ensures err { IsOkUnless result ProtoError.Memory }
{
    match next_authoritative(alloc, zone, origin, name)? {
        Some(next) => Ok(next),
        None => Ok(origin),
    }
}

/// The first name after one that the zone of this origin is authoritative for, if there is any. It reads the keys up to there: those of glue too.
/// Refused by `Memory` alone.
fn next_authoritative<'m>(
    alloc: Global,
    zone: &'m RecordMap,
    origin: &LowerName,
    name: &LowerName,
) -> Result<Option<&'m LowerName>, ProtoError>
    ensures ok { IfOk result
        (λ next. option_copied next ≡ next_authoritative origin.now zone.now name.now) }
    ensures err { IsOkUnless result ProtoError.Memory }
{
    let least = RrKey::first_of(name)?;
    for (key, _) in zone.as_map().from(&least) {
        let follows = is_next(alloc, zone, origin, name, &key.name)?;
        if follows {
            return Ok(Some(&key.name));
        }
    }
    Ok(None)
}

/// Whether the zone is authoritative for a name that is another one. Refused by `Memory` alone.
#[tactic(auto, using(crate::proofs::NamesFrom::same_out, crate::proofs::NamesFrom::other_by))]
fn is_next(
    alloc: Global,
    zone: &RecordMap,
    origin: &LowerName,
    name: &LowerName,
    other: &LowerName,
) -> Result<bool, ProtoError>
    ensures ok { IfOk result (λ is. is
        ≡ (not (name_eq name.now other.now)
        && is_authoritative origin.now zone.now nsec_type other.now)) }
    ensures err { IsOkUnless result ProtoError.Memory }
{
    if name == other {
        return Ok(false);
    }
    let follows = is_authoritative(alloc, zone, origin, other)?;
    Ok(follows)
}

/// The types that the NSEC set of a name lists: those that it owns, NSEC and RRSIG (RFC 4034 section 4.1.2). Refused by `Memory` alone.
fn nsec_types(
    alloc: Global,
    zone: &RecordMap,
    name: &LowerName,
) -> Result<Seq<RecordType>, ProtoError>
    ensures ok { IfOk result (λ types. map (λ t. t.0) types ≡ nsec_types zone.now name.now) }
    ensures err { IsOkUnless result ProtoError.Memory }
{
    let least = RrKey::first_of(name)?;
    let mut types = types_at(alloc, zone.as_map(), &least)?;
    join(&mut types, RecordType::RRSIG)?;
    join(&mut types, RecordType::NSEC)?;
    Ok(Seq::from_vec(types))
}

/// Puts a type into an ascending list, unless it is there. Refused by `Memory` alone.
fn join(types: &mut Vec<RecordType>, record_type: RecordType) -> Result<(), ProtoError>
    ensures ok { OnOk result
        (map (λ t. t.0) types.new.items
        ≡ joined nat_cmp record_type.0 (map (λ t. t.0) types.old.items)) }
    ensures err { IsOkUnless result ProtoError.Memory }
{
    let place = count_below(types.as_slice(), record_type);
    if place < types.len() && types[place] == record_type {
        return Ok(());
    }
    types.insert(place, record_type)?;
    Ok(())
}

/// How many types in front are less than another.
fn count_below(types: &[RecordType], record_type: RecordType) -> usize
    ensures value { result ≡ prefix_len (λ t. nat_lt t.0 record_type.0) types.now }
    ensures bound { result ≤ length types.now }
{
    types
        .iter()
        .take_while(|other| **other < record_type)
        .count()
}

/// The NSEC set of a name with this next name and these types, under its key. Refused by `Memory` alone.
fn nsec_entry(
    name: &LowerName,
    next: &LowerName,
    types: Seq<RecordType>,
    ttl: u32,
    serial: u32,
) -> Result<(RrKey, RecordSet), ProtoError>
    ensures ok { IfOk result
        (λ e. e
        ≡ (
          key_at name.now nsec_type,
          new_set ttl serial name.now
              (nsec_data next.now (map (λ t. t.0) «types»)),
        )) }
    ensures err { IsOkUnless result ProtoError.Memory }
{
    let data = NSEC {
        next_domain_name: Name::from(next.clone()?),
        types,
    };
    let record = Record::from_rdata(Name::from(name.clone()?), ttl, RData::NSEC(data));
    let mut set = RecordSet::new(Name::from(name.clone()?), RecordType::NSEC, serial);
    set.insert(record, serial)?;
    Ok((RrKey::new(name.clone()?, RecordType::NSEC), set))
}
