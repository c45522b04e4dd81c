//! An update of a signed zone, prepared to be signed.
ghost use Rattle.std.specs.Prelude.{◌≡◌, None, map, IfOk, IfErr, IfSome, OnOk};
ghost use Rattle.std.specs.Option.{IfNone};
ghost use Rattle.zone_proto.specs.Types.{DNSKEY as dnskey_type};
ghost use Rattle.zone_lookup.specs.StartOfAuthority.{serial as serial_at};
ghost use Rattle.zone_map.specs.Zones.{set_at, IsZone};
ghost use Rattle.zone_update.specs.Updates.{course_of};
ghost use Rattle.zone_keeping.specs.Keeping.{kept};
ghost use Rattle.zone_keeping.specs.Usable.{usable_keys};
ghost use Rattle.zone_planner.specs.declared.keys.PlannedKey.{PlannedKey as KeyOfPlan};
ghost use Rattle.zone_planner.specs.Faults.{plan_fault};
ghost use Rattle.zone_planner.specs.Plans.{IsPlanned};
ghost use Rattle.update_denials.specs.Prepared.{IsFound, IsKeptPlan, IsPrepared, IsPreparedOf, IsRefused, IsUnchanged, IsUnkept, IsUnmade, IsUnplanned, IsUnprepared, IsUnpreparedOf};

use crate::serial::serial_of;
use crate::unsecured::unsecured;
use std::alloc::Global;
use zone_keeping::{Span, keep};
use zone_map::RecordMap;
use zone_planner::{PlannedKey, Request, make_plan};
use zone_planning::{Plan, PlanFault};
use zone_proto::{LowerName, ProtoError};
use zone_update::{Refusal, Update, changed_sets};

/// How a zone is signed.
#[derive(Drop)]
pub struct Signing {
    /// Its keys.
    pub keys: Vec<PlannedKey>,
    /// How it denies, and when signatures hold that are made.
    pub request: Request,
    /// From when until when signatures have to hold that stand.
    pub span: Span,
}

/// An update that is prepared.
#[derive(Drop)]
pub struct Prepared {
    /// The zone after it, with blank signatures where one is to be made.
    pub plan: Plan,
    /// The serial of the zone that was updated.
    pub serial: u32,
}

/// Why an update isn't prepared.
#[derive(Drop)]
pub enum PrepareFault {
    /// The update is refused (RFC 2136 section 3).
    Refused(Refusal),
    /// The zone after it can't be signed: so it is where a set would stand below a DNAME (RFC 6672 section 2.4).
    Unsigned(PlanFault),
    /// No memory was found.
    Memory,
}

/// Want of memory is `Memory`.
impl From<ProtoError> for PrepareFault {
    ghost use Rattle.update_denials.specs.declared.preparing.PrepareFault.TheVariants.{Memory};

    ghost from_gives = { λ _ e. e ≡ Memory };

    fn from(_: ProtoError) -> PrepareFault {
        PrepareFault::Memory
    }
}

/// Prepares the zone of an origin after an update; none where the update changes nothing. The zone is only read.
///
/// The changes are made as `updated` of `zone_update` makes them. The denials are made anew, NSEC or NSEC3 as is asked for, the SOA gets the
/// next serial, and each set the signatures of the keys, as `make_plan` of `zone_planner` says. In the place of each signature stands the one
/// that the zone has for the same set, if it is made of the same octets and holds long enough, as `keep` of `zone_keeping` says;
/// otherwise a blank one, with the number of the key that is to make it.
///
/// # Errors
///
/// `Refused` where the update is refused, by the first cause in the standard's order; then `Unsigned` where the zone after it can't be planned,
/// or has data that no octets are. `Memory`, also as the cause of these, where none is found.
pub fn prepare(
    alloc: Global,
    origin: LowerName,
    zone: &RecordMap,
    update: Update,
    signing: Signing,
) -> Result<Option<Prepared>, PrepareFault>
    ensures prepared { IfOk result (λ found. IfSome found (λ p.
        IsPrepared origin zone.now update.prerequisites.items update.changes.items signing
        p.plan)) }
    ensures unchanged { IfOk result (λ found. IfNone found
        (IsUnchanged
        (course_of origin zone.now update.prerequisites.items update.changes.items))) }
    ensures serial { IfOk result (λ found. IfSome found (λ p.
        p.serial ≡ serial_at zone.now origin)) }
    ensures fault { IfErr result
        (IsUnprepared origin zone.now update.prerequisites.items update.changes.items signing) }
{
    let found = changed(alloc, &origin, zone, update)?;
    match found {
        None => Ok(None),
        Some(after) => {
            let made = prepare_changed(alloc, origin, zone, after, signing)?;
            Ok(Some(made))
        }
    }
}

/// The sets that an update changes; none where it changes nothing.
fn changed(
    alloc: Global,
    origin: &LowerName,
    zone: &RecordMap,
    update: Update,
) -> Result<Option<RecordMap>, PrepareFault>
    ensures found { IfOk result (λ found. IsFound found
        (course_of origin.now zone.now update.prerequisites.items update.changes.items)) }
    ensures fault { IfErr result (IsRefused
        (course_of origin.now zone.now update.prerequisites.items update.changes.items)) }
{
    match changed_sets(alloc, origin, zone, update) {
        Ok(found) => Ok(found),
        Err(refusal) => Err(PrepareFault::Refused(refusal)),
    }
}

/// The plan of a zone once these sets of it were changed.
fn prepare_changed(
    alloc: Global,
    origin: LowerName,
    zone: &RecordMap,
    after: RecordMap,
    signing: Signing,
) -> Result<Prepared, PrepareFault>
    ensures prepared { IfOk result (λ p. IsPreparedOf origin zone.now after signing p.plan) }
    ensures serial { IfOk result (λ p. p.serial ≡ serial_at zone.now origin) }
    ensures fault { IfErr result (IsUnpreparedOf origin zone.now after signing) }
{
    let serial = serial_of(zone, &origin)?;
    let bare = unsecured(alloc, after)?;
    let plan = plan_changed(alloc, origin, bare, signing, zone)?;
    Ok(Prepared { plan, serial })
}

/// The plan of a zone without denials, with the signatures that stand in another one.
fn plan_changed(
    alloc: Global,
    origin: LowerName,
    bare: RecordMap,
    signing: Signing,
    old: &RecordMap,
) -> Result<Plan, PrepareFault>
    ensures planned { IfOk result (IsKeptPlan origin old.now bare signing) }
    ensures fault { IfErr result (IsUnplanned origin old.now bare signing) }
{
    let Signing {
        keys,
        request,
        span,
    } = signing;
    let named = origin.clone()?;
    let blank = blank_plan(alloc, origin, bare, keys, &request)?;
    let plan = with_standing(alloc, blank, &named, old, &span)?;
    Ok(plan)
}

/// The plan of a zone without denials.
fn blank_plan(
    alloc: Global,
    origin: LowerName,
    bare: RecordMap,
    keys: Vec<PlannedKey>,
    request: &Request,
) -> Result<Plan, PrepareFault>
    ensures planned { IfOk result
        (λ plan. IsPlanned origin keys.items request.now bare plan.records) }
    ensures zone { IfOk result (λ plan. IsZone plan.records) }
    ensures keys { IfOk result
        (λ plan. plan.keys.items ≡ map (λ (k : KeyOfPlan). k.key) keys.items) }
    ensures faultless { OnOk result (plan_fault origin bare keys.items request.now ≡ None) }
    ensures fault { IfErr result (IsUnmade origin bare keys.items request.now) }
{
    match make_plan(alloc, origin, bare, keys, request) {
        Ok(plan) => Ok(plan),
        Err(fault) => Err(PrepareFault::Unsigned(fault)),
    }
}

/// A plan with the signatures that stand in another zone.
fn with_standing(
    alloc: Global,
    blank: Plan,
    origin: &LowerName,
    old: &RecordMap,
    span: &Span,
) -> Result<Plan, PrepareFault>
    ensures kept { IfOk result (λ plan. plan.records
        ≡ kept span.now
        (usable_keys blank.keys.items (set_at old.now origin.now dnskey_type)) old.now
        blank.records) }
    ensures keys { IfOk result (λ plan. plan.keys.items ≡ blank.keys.items) }
    ensures fault { IfErr result (IsUnkept old.now blank.records) }
{
    let mut plan = blank;
    match keep(alloc, &mut plan, origin, old, span) {
        Ok(()) => Ok(plan),
        Err(fault) => Err(PrepareFault::Unsigned(fault)),
    }
}
