//! Whether a zone can be planned.
ghost use Rattle.std.specs.Prelude.{◌≡◌, ◌==◌, ◌⊎◌, None, Some, IfErr, OnOk, IfOk, IsOkUnless, option_map};
ghost use Rattle.zone_proto.specs.Names.{is_at_or_above};
ghost use Rattle.zone_proto.specs.Types.{SOA as soa_type};
ghost use Rattle.zone_planner.specs.Zones.{apex_fault, below, is_made_anew, set_fault_below, sets_fault, top_after, zone_fault};

use zone_denial::authoritative_keys::is_above;
use zone_map::RecordMap;
use zone_planning::PlanFault;
use zone_proto::{LowerName, Name, ProtoError, RecordType, RrKey, is_derived};

/// Whether the zone whose SOA stands under `apex` can be planned. Refused by `NoSoa` and `CnameAtOrigin`; for the first set, by owner in
/// canonical order (RFC 4034 section 6.1) and type, that can't stand in it by `Outside`, `Made` or `BelowDname`; and by `Memory`.
pub(crate) fn check_zone(records: &RecordMap, apex: &RrKey) -> Result<(), PlanFault>
    requires { apex.now.record_type.0 ≡ soa_type }
    ensures ok { OnOk result (zone_fault apex.now.name records.now ≡ None) }
    ensures err { IfErr result
        (λ e. (e ≡ PlanFault.Memory) ⊎ (zone_fault apex.now.name records.now ≡ Some e)) }
{
    check_apex(records, apex)?;
    check_sets(records, &apex.name)
}

/// Whether an SOA stands at the origin, and no CNAME. Refused by `NoSoa` and `CnameAtOrigin`, and by `Memory`.
fn check_apex(records: &RecordMap, apex: &RrKey) -> Result<(), PlanFault>
    requires { apex.now.record_type.0 ≡ soa_type }
    ensures ok { OnOk result (apex_fault apex.now.name records.now ≡ None) }
    ensures err { IfErr result
        (λ e. (e ≡ PlanFault.Memory) ⊎ (apex_fault apex.now.name records.now ≡ Some e)) }
{
    if records.get(apex).is_none() {
        return Err(PlanFault::NoSoa);
    }
    let cname = RrKey::new(apex.name.clone()?, RecordType::CNAME);
    if records.get(&cname).is_some() {
        return Err(PlanFault::CnameAtOrigin);
    }
    Ok(())
}

/// Whether each set can stand in the zone. Refused for the first that can't, and by `Memory`.
fn check_sets(records: &RecordMap, origin: &LowerName) -> Result<(), PlanFault>
    ensures ok { OnOk result (sets_fault origin.now records.now ≡ None) }
    ensures err { IfErr result
        (λ e. (e ≡ PlanFault.Memory) ⊎ (sets_fault origin.now records.now ≡ Some e)) }
{
    // The names below a DNAME stand together after it, so only the last one without another above it matters for those that follow.
    let mut dname = None;
    for (key, _) in records.iter() {
        check_set(origin, dname, key)?;
        dname = next_dname(dname, key);
    }
    Ok(())
}

/// Whether the set under a key can stand in the zone, where this is the DNAME that it may stand below, if there is one.
fn check_set(origin: &LowerName, dname: Option<&LowerName>, key: &RrKey) -> Result<(), PlanFault>
    ensures ok { OnOk result
        (set_fault_below origin.now (option_map (λ a. a.now) dname.entry) key.now ≡ None) }
    ensures err { IfErr result
        (λ e. (e ≡ PlanFault.Memory)
        ⊎ (set_fault_below origin.now (option_map (λ a. a.now) dname.entry) key.now ≡ Some e)) }
{
    if !is_at_or_above(origin, &key.name) {
        return Err(PlanFault::Outside(owner(key)?));
    }
    if is_derived(key.record_type) {
        return Err(PlanFault::Made(owner(key)?, key.record_type));
    }
    if is_below(dname, &key.name) {
        return Err(PlanFault::BelowDname(owner(key)?));
    }
    Ok(())
}

/// The name of a key.
fn owner(key: &RrKey) -> Result<Name, ProtoError>
    ensures ok { IfOk result (λ name. name ≡ key.now.name) }
    ensures err { IsOkUnless result ProtoError.Memory }
{
    Ok(Name::from(key.name.clone()?))
}

/// The DNAME that names after a key may stand below, where names up to it may stand below this one.
fn next_dname<'a>(dname: Option<&'a LowerName>, key: &'a RrKey) -> Option<&'a LowerName>
    ensures { option_map (λ a. a.now) result
        ≡ top_after (λ k. k.record_type.0 == 39) (option_map (λ a. a.now) dname.entry) key.now }
{
    if key.record_type.0 == 39 && !is_below(dname, &key.name) {
        return Some(&key.name);
    }
    dname
}

/// Whether sets of a type are made anew where a zone is signed and its keys are given beside it: those that are derived, and DNSKEY.
pub fn is_made_anew(record_type: RecordType) -> bool
    ensures { result ≡ is_made_anew record_type.0 }
{
    is_derived(record_type) || record_type == RecordType::DNSKEY
}

/// Whether a name stands below another, if there is one.
pub(crate) fn is_below(top: Option<&LowerName>, name: &LowerName) -> bool
    ensures { result ≡ below (option_map (λ a. a.now) top.entry) name.now }
{
    match top {
        Some(top) => is_above(top, name),
        None => false,
    }
}

/// Whether a name is another or above it.
fn is_at_or_above(ancestor: &LowerName, name: &LowerName) -> bool
    ensures { result ≡ is_at_or_above ancestor.now name.now }
{
    ancestor.zone_of(name)
}
