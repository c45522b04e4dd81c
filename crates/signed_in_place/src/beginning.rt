//! A version of a signed zone changed, and its signatures planned.
ghost use Rattle.std.specs.Prelude.{◌≡◌, ◌⊎◌, List, Some, IfOk, IfErr, IsOkUnless};
ghost use Rattle.zone_proto.specs.Names.{Name};
ghost use Rattle.zone_map.specs.Zones.{Sets};
ghost use Rattle.update_in_place.specs.Parts.{AreChanged};
ghost use Rattle.zone_planner.specs.Faults.{request_fault};
ghost use Rattle.signed_in_place.specs.InPlace.{IsBegun, IsRenewedChange};

use crate::denials::ttl_and_serial;
use crate::locality::is_local;
use crate::names::{push_once, push_owners};
use signed_changes::{plan_change, renew_chain};
use std::alloc::Global;
use update_in_place::{Changed, carry_out};
use zone_map::RecordMap;
use zone_planner::{PlannedKey, Request};
use zone_planning::{Plan, PlanFault};
use zone_proto::LowerName;

/// A change of a zone that waits for its signatures.
#[derive(Drop)]
pub struct PreparedChange {
    /// The sets that get other signatures than they had, with blank ones in the places of those that are to be made, and the keys.
    pub plan: Plan,
    /// The names whose sets it changes, and the origin; some of them may stand there more than once.
    pub names: Vec<LowerName>,
}

/// What comes of a change of a signed zone.
#[derive(Drop)]
pub enum Begun {
    /// The zone is changed, and its chain closed again; signatures are to be made.
    Changed(PreparedChange),
    /// More of the zone is to be made anew than what the change touches, or the change may not be made, so that all of the zone is to be prepared: nothing is
    /// changed. So it is
    ///
    /// - where the zone is to deny otherwise than by NSEC, or doesn't as it stands: its origin owns no NSEC set, or NSEC3PARAM (RFC 5155 section 4);
    /// - where denials get another TTL, since the SOA does or its minimum changes (RFC 9077 section 3);
    /// - where a key's DNSKEY record isn't at the origin and is to be, or its CDS and CDNSKEY records (RFC 7344 section 3), or it is too long for a record;
    /// - where the records of DNSKEY, CDS or CDNSKEY change at the origin, whose keys sign the zone;
    /// - where a set of the names that change stands below a DNAME of the zone, or is a DNAME at a name that had none (RFC 6672 section 2.4).
    NotLocal,
}

/// Changes a version of the signed zone of an origin that takes the place of the one that is served: what an update changes is carried out in it, its
/// chain of NSEC sets is closed again, as `renew_chain` of `signed_changes` does that, and the signatures of the sets that get others are planned. The NSEC
/// sets get the TTL of denials (RFC 9077 section 3) and the serial of the zone after the update.
///
/// It costs what the names cost whose sets change, whatever else the zone has, as `renew_chain` says: nothing is made anew, copied or signed of what doesn't
/// change.
///
/// # Errors
///
/// Those of `plan_change` of `signed_changes`: `ManyKeys`, `BadKey`, `NoKey` and `UnsignedAlgorithm` for the keys, and `Moments`; `Memory` in place of any.
/// The version may be changed in part then, and is to be dropped.
pub fn begin_change(
    alloc: Global,
    origin: &LowerName,
    zone: &mut RecordMap,
    changed: &Changed,
    keys: &[PlannedKey],
    request: &Request,
) -> Result<Begun, PlanFault>
    requires { (names : List Name) × (next : Sets)
        × AreChanged names zone.old next changed.now.before changed.now.after }
    ensures begun { IfOk result (λ begun. IsBegun origin.now keys.now request.now
        changed.now.before changed.now.after zone.old zone.new begun) }
    ensures fault { IfErr result
        (λ e. (e ≡ PlanFault.Memory) ⊎ (request_fault keys.now request.now ≡ Some e)) }
{
    if !is_local(origin, zone, changed, keys, request)? {
        return Ok(Begun::NotLocal);
    }
    carry_out(alloc, zone, changed)?;
    let prepared = renew(alloc, origin, zone, changed, keys, request)?;
    Ok(Begun::Changed(prepared))
}

/// The same of a version in which what an update changes was carried out.
fn renew(
    alloc: Global,
    origin: &LowerName,
    zone: &mut RecordMap,
    changed: &Changed,
    keys: &[PlannedKey],
    request: &Request,
) -> Result<PreparedChange, PlanFault>
    ensures begun { IfOk result (λ prepared. IsRenewedChange origin.now keys.now request.now
        changed.now.before changed.now.after zone.old zone.new prepared) }
    ensures fault { IfErr result
        (λ e. (e ≡ PlanFault.Memory) ⊎ (request_fault keys.now request.now ≡ Some e)) }
{
    let (ttl, serial) = ttl_and_serial(zone, origin)?;
    let renewed = renew_chain(alloc, origin, zone, changed, ttl, serial)?;
    let mut names = renewed;
    push_once(origin, &mut names)?;
    push_owners(&changed.before, &mut names)?;
    push_owners(&changed.after, &mut names)?;
    let plan = plan_change(alloc, origin, zone, names.as_slice(), keys, request)?;
    Ok(PreparedChange { plan, names })
}
