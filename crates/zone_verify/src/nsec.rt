//! Whether the NSEC sets of a zone are a chain.
ghost use Rattle.std.specs.Prelude.{◌≡◌, ◌≢◌, ◌<◌, ◌+◌, ◌==◌, ℕ, drop, OnOk, IfOk, IfSome, Some, IsTrue, map, filter, length, option_copied, option_map, slice_get, unwrap_or};
ghost use Rattle.std.specs.List.{Contains};
ghost use Rattle.zone_proto.specs.declared.nx_proof_kind.NxProofKind.TheVariants as kind;
ghost use Rattle.zone_proto.specs.declared.rr_key.RrKey.{RrKey as Key};
ghost use Rattle.zone_proto.specs.Keys.{key as key_at};
ghost use Rattle.zone_proto.specs.Names.{Name as NameLabels};
ghost use Rattle.zone_proto.specs.Sets.{RRset};
ghost use Rattle.zone_proto.specs.Types.{NS as ns_type, NSEC as nsec_type, RRSIG};
ghost use Rattle.zone_map.specs.Zones.{IsZone, owns, set_at};
ghost use Rattle.zone_denial.specs.Chains.{chain_sets, next_owner, IsNsecChain};
ghost use Rattle.zone_denial.specs.NsecCircle.{first_nsec, next_of, types_of};
ghost use Rattle.zone_verify.specs.ChainSets.{sets_of};
ghost use Rattle.zone_verify.specs.Lists.{IsListed};
ghost use Rattle.zone_verify.specs.NsecDenied.{IsDeniedBy};
ghost use Rattle.zone_verify.specs.NsecNames.{IsNsecKey, IsRightOwnList};

use crate::authoritative_keys::authoritative_keys;
use crate::chain_sets::ChainSets;
use crate::delegations::{is_below_dname, is_delegation};
use crate::fault::{ChainFault, told};
use crate::lists::{Site, check_key, check_list, require_listed};
use zone_map::RecordMap;
use zone_proto::{LowerName, NSEC, RData, RecordSet, RecordType, RrKey};

/// Says that the NSEC sets of a zone are a chain (RFC 4035 section 2.3).
///
/// `records` are the sets of the zone, and `origin` is its name. Sets of NSEC3 count for nothing. Signatures, TTLs and serials
/// aren't looked at, nor the case of letters in the next names. Names below a DNAME may have NSEC or not (RFC 6672 section 2.4),
/// and at a delegation the lists may name RRSIG and the types of glue or not.
///
/// # Errors
///
/// Refused by `Missing` for the origin; then for the first name, in canonical order (RFC 4034 section 6.1), by `Missing` where it
/// has to have NSEC, by `Several`, and by `Lists`, `ListsNothing` or `Lacks` where its list is wrong; then by `Surplus` for the
/// first owner that the zone isn't authoritative for, and by `Next` for the first that leads elsewhere. `Memory` may come in place
/// of any of these.
pub fn verify_nsec(records: &RecordMap, origin: &LowerName) -> Result<(), ChainFault>
    ensures chain { OnOk result
        (IsNsecChain origin.now (chain_sets (Some kind.Nsec) records.now)) }
{
    let sets = ChainSets {
        records,
        parameters: None,
    };
    if !sets.owns(origin, RecordType::NSEC)? {
        return Err(ChainFault::Missing(told(origin)?, RecordType::NSEC));
    }
    let keys = authoritative_keys(&sets, origin)?;
    check_names(&sets, origin, keys.as_slice())?;
    check_owners(records, keys.as_slice())?;
    check_links(records, origin)?;
    Ok(())
}

/// A name of the zone, with the list of its NSEC set; without one where it is below a DNAME.
#[derive(Clone, Copy, Drop)]
struct Denied<'z> {
    site: Site<'z>,
    types: Option<&'z [RecordType]>,
}

/// Checks the NSEC sets of the names of these keys, next names aside.
fn check_names<'z>(
    sets: &ChainSets<'z>,
    origin: &LowerName,
    keys: &[&'z RrKey],
) -> Result<(), ChainFault>
    ensures { OnOk result
        ((k : Key) → Contains (map (λ k. k.now) keys.now) k
        → IsNsecKey origin.now sets.now.records.now (sets_of sets.now) k) }
{
    let mut last = None;
    for key in keys {
        let denied = denied_at(sets, origin, last, key)?;
        if let Some(types) = denied.types {
            check_key(sets, &denied.site, types, key)?;
        }
        last = Some(denied);
    }
    Ok(())
}

/// The name of a key, which may be the last one.
fn denied_at<'z>(
    sets: &ChainSets<'z>,
    origin: &LowerName,
    last: Option<Denied<'z>>,
    key: &'z RrKey,
) -> Result<Denied<'z>, ChainFault>
    requires { IfSome last (IsDeniedBy origin.now sets.now.records.now (sets_of sets.now)) }
    ensures name { IfOk result (λ d. d.site.name.now ≡ key.now.name) }
    ensures denied { IfOk result (IsDeniedBy origin.now sets.now.records.now (sets_of sets.now)) }
{
    match last {
        Some(denied) if *denied.site.name == key.name => Ok(denied),
        _ => denied_name(sets, origin, &key.name),
    }
}

/// A name with its NSEC set.
fn denied_name<'z>(
    sets: &ChainSets<'z>,
    origin: &LowerName,
    name: &'z LowerName,
) -> Result<Denied<'z>, ChainFault>
    ensures name { IfOk result (λ d. d.site.name.now ≡ name.now) }
    ensures denied { IfOk result (IsDeniedBy origin.now sets.now.records.now (sets_of sets.now)) }
{
    let site = Site {
        name,
        is_delegation: is_delegation(sets, origin, name)?,
        denial: RecordType::NSEC,
    };
    match sets.get(name, RecordType::NSEC)? {
        Some(set) => {
            let data = only_nsec(name, set)?;
            check_own_list(sets, &site, data.types.as_slice())?;
            Ok(Denied {
                site,
                types: Some(data.types.as_slice()),
            })
        }
        None if is_below_dname(sets, name)? => Ok(Denied { site, types: None }),
        None => Err(ChainFault::Missing(told(name)?, RecordType::NSEC)),
    }
}

/// Checks that the name owns what its NSEC set lists, that NSEC is listed unless at a delegation, and that the name owns another
/// type too.
fn check_own_list(
    sets: &ChainSets<'_>,
    site: &Site<'_>,
    types: &[RecordType],
) -> Result<(), ChainFault>
    requires { IsTrue site.now.is_delegation
        → IsTrue (owns (sets_of sets.now) site.now.name.now ns_type) }
    ensures { OnOk result
        (IsRightOwnList sets.now.records.now (sets_of sets.now) site.now.name.now
        site.now.is_delegation types.now) }
{
    check_list(sets, site, types)?;
    if site.is_delegation {
        return Ok(());
    }
    require_listed(site, types, RecordType::NSEC)?;
    if lists_others(types) || sets.owns(site.name, RecordType::RRSIG)? {
        return Ok(());
    }
    Err(ChainFault::ListsNothing(told(site.name)?))
}

/// Whether a list has another type than NSEC and RRSIG.
fn lists_others(types: &[RecordType]) -> bool
    ensures { IsTrue result → (t : ℕ) × IsListed types.now t × (t ≢ nsec_type) × (t ≢ RRSIG) }
{
    for record_type in types {
        if is_other(*record_type) {
            return true;
        }
    }
    false
}

/// Whether a type is neither NSEC nor RRSIG.
fn is_other(record_type: RecordType) -> bool
    ensures { IsTrue result → (record_type.0 ≢ nsec_type) × (record_type.0 ≢ RRSIG) }
{
    record_type != RecordType::NSEC && record_type != RecordType::RRSIG
}

/// The data of an NSEC set's only record.
fn only_nsec<'z>(name: &LowerName, set: &'z RecordSet) -> Result<&'z NSEC, ChainFault>
    ensures single { OnOk result (length set.now.records ≡ 1) }
    ensures types { IfOk result
        (λ found. types_of set.now ≡ Some (map (λ t. t.0) found.now.types)) }
{
    match set.as_slice() {
        [record] => match &record.rdata {
            RData::NSEC(data) => Ok(data),
            _ => Err(ChainFault::Several(told(name)?, RecordType::NSEC)),
        },
        _ => Err(ChainFault::Several(told(name)?, RecordType::NSEC)),
    }
}

/// Checks that the owners of NSEC are among those of these keys, which ascend.
fn check_owners(records: &RecordMap, keys: &[&RrKey]) -> Result<(), ChainFault>
    ensures { OnOk result
        ((n : NameLabels) → IsTrue (owns records.now n nsec_type)
        → Contains (map (λ k. k.now) keys.now) (key_at n nsec_type)) }
{
    for (key, _) in records.iter() {
        if key.record_type == RecordType::NSEC && !has_key(keys, key) {
            return Err(ChainFault::Surplus(told(&key.name)?, RecordType::NSEC));
        }
    }
    Ok(())
}

/// Whether a key is among these, which ascend.
fn has_key(keys: &[&RrKey], key: &RrKey) -> bool
    ensures { IsTrue result → Contains (map (λ k. k.now) keys.now) key.now }
{
    match keys.binary_search(&key) {
        Ok(_) => true,
        Err(_) => false,
    }
}

/// Checks that each NSEC set leads to the next owner of one, and the last one to the origin (RFC 4034 section 4.1.1).
fn check_links(records: &RecordMap, origin: &LowerName) -> Result<(), ChainFault>
    ensures { OnOk result
        ((n : NameLabels) (s : RRset) → set_at records.now n nsec_type ≡ Some s
        → next_of s ≡ Some (next_owner origin.now records.now n)) }
{
    let entries = nsec_entries(records, origin)?;
    for i in 0..entries.len() {
        let (key, set) = entries[i];
        let next = first_name(behind(entries.as_slice(), i), origin);
        if !leads_to(set, next)? {
            return Err(ChainFault::Next(told(&key.name)?, RecordType::NSEC));
        }
    }
    Ok(())
}

/// The NSEC sets by their keys, in order.
fn nsec_entries<'z>(
    records: &'z RecordMap,
    origin: &LowerName,
) -> Result<Vec<(&'z RrKey, &'z RecordSet)>, ChainFault>
    ensures entries { IfOk result
        (λ entries. map (λ e. (e.0.now, e.1.now)) entries.items
        ≡ filter (λ e. e.0.record_type.0 == nsec_type) records.now) }
    ensures zone { OnOk result (IsZone records.now) }
{
    let mut entries = Vec::new(origin.alloc());
    for (key, set) in records.iter() {
        if key.record_type == RecordType::NSEC {
            entries.push((key, set))?;
        }
    }
    Ok(entries)
}

/// Those that come after a place.
fn behind<'e, 'z>(
    entries: &'e [(&'z RrKey, &'z RecordSet)],
    i: usize,
) -> &'e [(&'z RrKey, &'z RecordSet)]
    requires { i < length entries.now }
    ensures { result.now ≡ drop (i + 1) entries.now }
{
    entries.split_at(i + 1).1
}

/// The owner of the first of these, or the origin.
fn first_name<'z>(entries: &[(&'z RrKey, &'z RecordSet)], origin: &'z LowerName) -> &'z LowerName
    ensures { result.now
        ≡ unwrap_or (option_map (λ e. e.0.now.name) (slice_get entries.now 0)) origin.now }
{
    match entries.first() {
        Some((key, _)) => &key.name,
        None => origin,
    }
}

/// Whether the first record of an NSEC set leads to a name.
fn leads_to(set: &RecordSet, name: &LowerName) -> Result<bool, ChainFault>
    ensures { IfOk result (λ leads. IsTrue leads → next_of set.now ≡ Some name.now) }
{
    match first_nsec(set) {
        Some(said) => Ok(LowerName::new(&said.next_domain_name)? == *name),
        None => Ok(false),
    }
}

/// The NSEC data of a set's first record.
fn first_nsec(set: &RecordSet) -> Option<&NSEC>
    ensures { option_copied result ≡ first_nsec set.now.records }
{
    match &set.as_slice().first()?.rdata {
        RData::NSEC(said) => Some(said),
        _ => None,
    }
}
