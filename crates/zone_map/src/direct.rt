//! What a name has for a query, wildcards aside: the referral at a zone cut, and else the set of the name.
ghost use Rattle.std.specs.Prelude.{◌≡◌, ◌||◌, not, drop, find, option_copied, option_map, true, None, IfOk, IfSome, IsOkUnless};
ghost use Rattle.std.specs.Option.{option_map_or};
ghost use Rattle.zone_proto.specs.Names.{is_root, suffixes, is_wildcard};
ghost use Rattle.zone_proto.specs.Types.{NS, SOA};
ghost use Rattle.zone_map.specs.Zones.{Sets, set_at, owns, IsZone};
ghost use Rattle.zone_map.specs.Direct.{is_address, direct};
ghost use Rattle.zone_map.specs.Walks.{referral_above, own_referral, first_key_from, referral_seen, IsChild, FindsAbove, FindsDirect};
ghost use Rattle.zone_map.specs.Wildcards.{exists};

use crate::at_name::{AtName, at_name};
use crate::record_map::RecordMap;
use zone_proto::{LowerName, ProtoError, RecordSet, RecordType, RrKey};

/// What a name has for a query, wildcards aside.
#[derive(Drop)]
pub enum Direct<'m> {
    /// The set that answers.
    Found(&'m RecordSet),
    /// No set.
    Missing(Missing),
}

/// What the walk up a name has seen where it found nothing.
#[derive(Drop)]
pub struct Missing {
    /// Whether the name exists: whether it, or a name below it, owns a set of a type other than those of denial (RFC 4592
    /// section 2.2.2).
    pub exists: bool,
    /// Where a wildcard is asked for the name, the next closer name: that one label longer than the closest encloser,
    /// in place of whose first label the wildcard has `*`.
    pub next_closer: Option<LowerName>,
}

/// What a wildcard has for a query.
#[derive(Clone, Copy, Drop)]
pub(crate) struct AtWildcard<'m> {
    /// Its direct set.
    pub(crate) set: Option<&'m RecordSet>,
    /// Whether it exists.
    pub(crate) exists: bool,
}

/// What a name says itself of the referral for a query.
#[derive(Clone, Copy, Drop)]
pub(crate) enum Delegation<'m> {
    /// Nothing: it isn't delegated for the query, and the names above it tell.
    Nothing,
    /// The NS set at a zone cut.
    Cut(&'m RecordSet),
    /// No referral, as at the apex of a zone.
    Apex,
}

/// What the key's name has for a query of the key's type: the referral at the nearest zone cut (RFC 1034 section
/// 4.2.1), else the exact set, the one of the least type that answers. Where it has none, the same walk up the name has
/// seen whether the name exists, and which wildcard is asked for it (RFC 4592 section 3.3.1). Memory is taken for the
/// name of that wildcard alone: refused by `Memory`.
pub fn find(records: &RecordMap, key: RrKey) -> Result<Direct<'_>, ProtoError>
    ensures found { IfOk result
        (λ found. FindsDirect records.now key.name key.record_type.0 found) }
    ensures err { IsOkUnless result ProtoError.Memory }
{
    let record_type = key.record_type;
    let mut least = RrKey::new(key.name, RecordType(0));
    let here = at_name(records, &least, record_type);
    match own_referral(here, &least.name, record_type) {
        Delegation::Cut(cut) => Ok(Direct::Found(cut)),
        Delegation::Apex => Ok(found_at_apex(here.exact)),
        Delegation::Nothing => match here.exact {
            Some(set) => {
                least.name.shorten();
                Ok(Direct::Found(referral_above(records, &mut least).unwrap_or(set)))
            }
            None => cut_above(records, least, here),
        },
    }
}

/// What a query of `record_type` finds at a wildcard, by its least key, above which no name gives a referral.
pub(crate) fn at_wildcard<'m>(
    records: &'m RecordMap,
    least: &RrKey,
    record_type: RecordType,
) -> AtWildcard<'m>
    requires least { least.now.record_type.0 ≡ 0 }
    requires unreferred { referral_above records.now (drop 1 least.now.name) ≡ None }
    ensures set { option_copied result.set ≡ direct records.now least.now.name record_type.0 }
    ensures exists { result.exists ≡ exists records.now least.now.name }
{
    let here = at_name(records, least, record_type);
    let exists = here.exists(records, least);
    let set = match own_referral(here, &least.name, record_type) {
        Delegation::Cut(cut) => Some(cut),
        Delegation::Apex => here.exact,
        Delegation::Nothing => here.exact,
    };
    AtWildcard { set, exists }
}

/// Whether a type is one of addresses, A or AAAA, for which an ANAME answers.
pub fn is_address(record_type: RecordType) -> bool
    ensures { result ≡ is_address record_type.0 }
{
    record_type == RecordType::A || record_type == RecordType::AAAA
}

/// The exact set of an apex, which owns NS, so that it exists.
fn found_at_apex(exact: Option<&RecordSet>) -> Direct<'_>
    ensures { result
        ≡ option_map_or Direct.Found exact.entry
        (Direct.Missing (record { exists = true; next_closer = None })) }
{
    match exact {
        Some(set) => Direct::Found(set),
        None => Direct::Missing(Missing {
            exists: true,
            next_closer: None,
        }),
    }
}

/// What a name says itself of the referral for a query of a type, where `here` is what is there.
fn own_referral<'m>(here: AtName<'m>, name: &LowerName, record_type: RecordType) -> Delegation<'m>
    ensures { (m : Sets) → option_copied here.entry.ns ≡ set_at m name.now NS
        → here.entry.owns_soa ≡ owns m name.now SOA
        → referral_seen result ≡ own_referral m name.now record_type.0 }
{
    if name.is_root() {
        return Delegation::Nothing;
    }
    let Some(cut) = here.ns else {
        return Delegation::Nothing;
    };
    if here.owns_soa {
        return Delegation::Apex;
    }
    if record_type == RecordType::DS {
        return Delegation::Nothing;
    }
    Delegation::Cut(cut)
}

/// The referral that the names from the key's own up give. The name is shortened to the nearest of them that is
/// delegated, or to the root.
fn referral_above<'m>(records: &'m RecordMap, key: &mut RrKey) -> Option<&'m RecordSet>
    requires least { key.old.record_type.0 ≡ 0 }
    ensures { option_copied result ≡ referral_above records.now key.old.name }
{
    while !key.name.is_root() {
        // An ancestor refers queries of all types alike, as it would one of NS.
        let here = at_name(records, key, RecordType::NS);
        match own_referral(here, &key.name, RecordType::NS) {
            Delegation::Cut(cut) => return Some(cut),
            Delegation::Apex => return None,
            Delegation::Nothing => key.name.shorten(),
        }
    }
    None
}

/// The referral that the names above the key's give, where the name, at which `here` stands, has none and no set that
/// answers; else what is missing.
fn cut_above<'m>(
    records: &'m RecordMap,
    least: RrKey,
    here: AtName<'m>,
) -> Result<Direct<'m>, ProtoError>
    requires least { least.record_type.0 ≡ 0 }
    requires first { option_copied here.first ≡ first_key_from records.now least.name }
    requires zone { IsZone records.now }
    ensures found { IfOk result (λ found. FindsAbove records.now least.name found) }
    ensures err { IsOkUnless result ProtoError.Memory }
{
    let exists = here.exists(records, &least);
    if asks_wildcard(&least.name, exists) {
        return cut_above_absent(records, least.name);
    }
    let mut above = least;
    above.name.shorten();
    Ok(referred_or(
        referral_above(records, &mut above),
        Missing {
            exists,
            next_closer: None,
        },
    ))
}

/// The same for a name for which a wildcard is asked, if an ancestor of it exists.
fn cut_above_absent(records: &RecordMap, name: LowerName) -> Result<Direct<'_>, ProtoError>
    requires asked { not (is_root name || is_wildcard name || exists records.now name) ≡ true }
    ensures found { IfOk result (λ found. FindsAbove records.now name found) }
    ensures err { IsOkUnless result ProtoError.Memory }
{
    let mut above = RrKey::new(name.base_name()?, RecordType(0));
    let mut next_closer = name;
    let Some(nearest) = nearest_existing(records, &mut above, &mut next_closer) else {
        return Ok(Direct::Missing(Missing {
            exists: false,
            next_closer: None,
        }));
    };
    Ok(referred_or(
        referral_from(records, &mut above, nearest),
        Missing {
            exists: false,
            next_closer: Some(next_closer),
        },
    ))
}

/// A referral, or what is missing without one.
fn referred_or<'m>(referral: Option<&'m RecordSet>, missing: Missing) -> Direct<'m>
    ensures { result ≡ option_map_or Direct.Found referral.entry (Direct.Missing missing) }
{
    match referral {
        Some(cut) => Direct::Found(cut),
        None => Direct::Missing(missing),
    }
}

/// Whether a wildcard is asked for a name, if an ancestor of it exists.
fn asks_wildcard(name: &LowerName, exists: bool) -> bool
    ensures { result ≡ not (is_root name.now || is_wildcard name.now || exists) }
{
    !name.is_root() && !name.is_wildcard() && !exists
}

/// What is at the nearest of the names from the key's own up that exists, to which the name is shortened. With it the
/// other name is, which is one label longer.
fn nearest_existing<'m>(
    records: &'m RecordMap,
    key: &mut RrKey,
    longer: &mut LowerName,
) -> Option<AtName<'m>>
    requires least { key.old.record_type.0 ≡ 0 }
    requires longer { IsChild longer.old key.old.name }
    ensures name { option_map (λ _. key.new.name) result
        ≡ find (exists records.now) (suffixes key.old.name) }
    ensures least { key.new.record_type.0 ≡ 0 }
    ensures longer { IsChild longer.new key.new.name }
    ensures ns { IfSome result
        (λ here. option_copied here.ns ≡ set_at records.now key.new.name NS) }
    ensures soa { IfSome result (λ here. here.owns_soa ≡ owns records.now key.new.name SOA) }
{
    loop {
        // An ancestor refers queries of all types alike, as it would one of NS.
        let here = at_name(records, key, RecordType::NS);
        // A name that owns NS exists.
        if here.ns.is_some() || here.exists(records, key) {
            return Some(here);
        }
        if key.name.is_root() {
            return None;
        }
        key.name.shorten();
        longer.shorten();
    }
}

/// The referral that the names from the key's own up give, where `here` is at this one.
fn referral_from<'m>(
    records: &'m RecordMap,
    key: &mut RrKey,
    here: AtName<'m>,
) -> Option<&'m RecordSet>
    requires least { key.old.record_type.0 ≡ 0 }
    requires ns { option_copied here.ns ≡ set_at records.now key.old.name NS }
    requires soa { here.owns_soa ≡ owns records.now key.old.name SOA }
    ensures { option_copied result ≡ referral_above records.now key.old.name }
{
    match own_referral(here, &key.name, RecordType::NS) {
        Delegation::Cut(cut) => Some(cut),
        Delegation::Apex => None,
        Delegation::Nothing => {
            key.name.shorten();
            referral_above(records, key)
        }
    }
}
