//! The NSEC sets that answer a query for a denial.
ghost use Rattle.std.specs.Prelude.{◌≡◌, ◌||◌, IfOk, IsOkUnless, option_copied, option_and_then};
ghost use Rattle.zone_proto.specs.Names.{name_eq, IsAbove, wildcard_under};
ghost use Rattle.zone_proto.specs.Results.{IsCopy};
ghost use Rattle.zone_proto.specs.Types.{NSEC};
ghost use Rattle.zone_map.specs.Zones.{set_at};
ghost use Rattle.zone_denial.specs.NsecDenial.{closest_nsec, owns_nsec_at_or_below, nsec_encloser, proved_beside, nsec_denial, IsOwnersNsec};
ghost use Rattle.zone_denial.specs.DenialSets.{denial_sets, own_set, unless_same};

use crate::closest::{closest_nsec, closest_nsec_knowing};
use zone_map::{Reads, RecordMap};
use zone_proto::{LowerName, ProtoError, RecordSet, RecordType, RrKey};

/// The NSEC sets that deny what a name doesn't own.
#[derive(Clone, Copy, Drop)]
pub enum NsecDenial<'m> {
    /// The name's own set, whose list of types tells what the name owns.
    Own(&'m RecordSet),
    /// The set closest to what is proved beside the name, unless it is the other one, and the set closest to the name.
    Closest(Option<&'m RecordSet>, Option<&'m RecordSet>),
}

/// The NSEC sets that answer a query for a denial of `name` in the zone of `origin` (RFC 4035 sections 3.1.3.1 and
/// 3.1.3.2): the name's own, or else the closest ones of the wildcard at its closest encloser and of itself. The
/// closest encloser is the longest proper ancestor, not above the origin, that owns NSEC or has such a name below it,
/// or else the origin (RFC 4592 section 3.3.1). Of a name outside the zone the origin stands in place of the wildcard,
/// and of the origin nothing does. Its only error is `Memory`.
pub fn nsec_denial<'m>(
    records: &'m RecordMap,
    origin: &LowerName,
    name: &LowerName,
) -> Result<NsecDenial<'m>, ProtoError>
    ensures sets { IfOk result
        (λ denial. denial_sets denial ≡ nsec_denial origin.now records.now name.now) }
    ensures own { IfOk result (λ denial. own_set denial ≡ set_at records.now name.now NSEC) }
    ensures err { IsOkUnless result ProtoError.Memory }
{
    let key = RrKey::new(name.clone()?, RecordType::NSEC);
    if let Some(own) = records.get(&key) {
        return Ok(NsecDenial::Own(own));
    }
    let closest = closest_nsec(records, name)?;
    let beside = closest_beside(records, origin, key.name, closest)?;
    Ok(NsecDenial::Closest(unless_same(beside, closest), closest))
}

/// The set closest to what is proved beside a name: the wildcard at its closest encloser, or the origin of a name
/// outside the zone; none of the origin. The set closest to the name itself is at hand.
fn closest_beside<'m>(
    records: &'m RecordMap,
    origin: &LowerName,
    name: LowerName,
    closest: Option<&'m RecordSet>,
) -> Result<Option<&'m RecordSet>, ProtoError>
    requires { IsOwnersNsec records.now (option_copied closest) }
    ensures found { IfOk result
        (λ set. option_copied set
        ≡ option_and_then (closest_nsec records.now)
        (proved_beside origin.now records.now «name»)) }
    ensures err { IsOkUnless result ProtoError.Memory }
{
    if name == *origin {
        return Ok(None);
    }
    if !origin.zone_of(&name) {
        return closest_nsec_knowing(records, origin, closest, &mut Reads::new());
    }
    let wildcard = enclosed_wildcard(records, origin, name)?;
    closest_nsec_knowing(records, &wildcard, closest, &mut Reads::new())
}

/// The wildcard at the closest encloser of a name below the origin. Its only error is `Memory`.
fn enclosed_wildcard(
    records: &RecordMap,
    origin: &LowerName,
    name: LowerName,
) -> Result<LowerName, ProtoError>
    requires { IsAbove origin.now name }
    ensures { IsCopy result (wildcard_under (nsec_encloser origin.now records.now «name»)) }
{
    let mut next_closer = name;
    let mut above = next_closer.base_name()?;
    while !encloses(records, origin, &above) {
        next_closer.shorten();
        above.shorten();
    }
    Ok(next_closer.into_wildcard())
}

/// Whether a name in the zone is the origin, or owns NSEC, or has a name below it that does.
#[tactic(auto, using(crate::proofs::Chain::DenialLists::same_by_order))]
fn encloses(records: &RecordMap, origin: &LowerName, name: &LowerName) -> bool
    ensures { result ≡ name_eq name.now origin.now || owns_nsec_at_or_below records.now name.now }
{
    name == origin || records.owns_denial_at_or_below(RecordType::NSEC, name)
}

/// The first of two sets, unless both are of one owner.
fn unless_same<'m>(
    one: Option<&'m RecordSet>,
    other: Option<&'m RecordSet>,
) -> Option<&'m RecordSet>
    ensures { option_copied result
        ≡ unless_same (option_copied one.entry) (option_copied other.entry) }
{
    match (one, other) {
        (Some(set), Some(other)) if set.name() == other.name() => None,
        _ => one,
    }
}
