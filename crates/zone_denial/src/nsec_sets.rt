//! The NSEC sets that a zone gets when it is secured.
ghost use Rattle.std.specs.Prelude.{◌≡◌, ℕ, map, IfOk, IfSome, IsOkUnless};
ghost use Rattle.std.specs.Option.{IfNone};
ghost use Rattle.std.specs.List.Sorted.{IsStrictlySortedBy};
ghost use Rattle.zone_proto.specs.Keys.{key as key_at, key_cmp};
ghost use Rattle.zone_proto.specs.Names.{Name};
ghost use Rattle.zone_proto.specs.Types.{NSEC as nsec_type};
ghost use Rattle.zone_map.specs.Standing.{standing_at};
ghost use Rattle.zone_map.specs.Zones.{set_at};
ghost use Rattle.zone_denial.specs.NsecSets.{nsec_set_at, nsec_data, new_set};
ghost use Rattle.zone_denial.specs.NsecLinks.{AreLinked, first_name};

use crate::authoritative_keys::authoritative_keys;
use crate::key_runs::count_of_first;
use crate::nsec_standing::nsec_sets_stand;
use crate::type_list::type_list;
use zone_map::{NewSets, RecordMap};
use zone_proto::{
    LowerName, NSEC, Name, ProtoError, RData, Record, RecordSet, RecordType, RrKey, Seq,
};

/// The NSEC sets of the zone with this origin, one for each name that the zone is authoritative for (RFC 4035 section 2.3).
///
/// The set of a name has one record, with the next of these names in canonical order, after the last one the origin,
/// and with the types that the name owns, NSEC and RRSIG among them (RFC 4034 section 4). Its TTL is `ttl`, in seconds,
/// and its serial `serial`. No set is made, and the answer is none, where those that are in the zone are already these,
/// serials and signatures aside, and no name owns a set of type RRSIG; else they count for nothing. Its only error is
/// `Memory`.
pub fn nsec_sets(
    records: &RecordMap,
    origin: &LowerName,
    ttl: u32,
    serial: u32,
) -> Result<Option<NewSets>, ProtoError>
    ensures made { IfOk result
        (λ made. IfSome made
        (λ map. (n : Name) (t : ℕ)
        → set_at map n t ≡ nsec_set_at origin.now records.now ttl serial n t)) }
    ensures standing { IfOk result
        (λ made. IfNone made
        ((n : Name) (t : ℕ)
        → standing_at records.now nsec_type serial n t
        ≡ nsec_set_at origin.now records.now ttl serial n t)) }
    ensures err { IsOkUnless result ProtoError.Memory }
{
    let keys = authoritative_keys(records, origin, RecordType::NSEC)?;
    if nsec_sets_stand(records, keys.as_slice(), origin, ttl) {
        return Ok(None);
    }
    let entries = nsec_entries(keys.as_slice(), origin, ttl, serial)?;
    Ok(Some(NewSets::from_entries(origin.alloc(), entries)?))
}

/// The NSEC sets that these keys give, by their own keys: one for each name, with the types of its keys.
fn nsec_entries(
    keys: &[&RrKey],
    origin: &LowerName,
    ttl: u32,
    serial: u32,
) -> Result<Vec<(RrKey, RecordSet)>, ProtoError>
    requires { IsStrictlySortedBy key_cmp (map (λ k. k.now) keys.now) }
    ensures ok { IfOk result
        (λ entries. AreLinked origin.now (map (λ k. k.now) keys.now) ttl serial entries.items) }
    ensures err { IsOkUnless result ProtoError.Memory }
{
    let alloc = origin.alloc();
    let mut entries = Vec::new(alloc);
    let mut room = Vec::new(alloc);
    let mut start = 0;
    while start < keys.len() {
        let first = keys[start];
        let end = start + count_of_first(&keys[start..]);
        let types = type_list(&mut room, &keys[start..end], RecordType::NSEC)?;
        let next = first_name(&keys[end..], origin);
        entries.push(nsec_entry(&first.name, next, types, ttl, serial)?)?;
        start = end;
    }
    Ok(entries)
}

/// The name of the first key, or the origin if there is none.
pub(crate) fn first_name<'a>(keys: &[&'a RrKey], origin: &'a LowerName) -> &'a LowerName
    ensures { result.now ≡ first_name origin.now (map (λ k. k.now) keys.now) }
{
    match keys.first() {
        Some(first) => &first.name,
        None => origin,
    }
}

/// The NSEC set of a name, under its key.
fn nsec_entry(
    name: &LowerName,
    next: &LowerName,
    types: Seq<RecordType>,
    ttl: u32,
    serial: u32,
) -> Result<(RrKey, RecordSet), ProtoError>
    ensures ok { IfOk result
        (λ e. e
        ≡ (
          key_at name.now nsec_type,
          new_set ttl serial name.now
              (nsec_data next.now (map (λ t. t.0) «types»)),
        )) }
    ensures err { IsOkUnless result ProtoError.Memory }
{
    let data = NSEC {
        next_domain_name: Name::from(next.clone()?),
        types,
    };
    let record = Record::from_rdata(Name::from(name.clone()?), ttl, RData::NSEC(data));
    let mut set = RecordSet::new(Name::from(name.clone()?), RecordType::NSEC, serial);
    set.insert(record, serial)?;
    Ok((RrKey::new(name.clone()?, RecordType::NSEC), set))
}
