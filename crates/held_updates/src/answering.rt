//! Updates answered from the zones of a database, which they change.
ghost use Rattle.std.specs.Prelude.{◌≡◌, IfOk, OnErr, OnOk};
ghost use Rattle.zone_database.specs.Databases.{with_zone, zones_in};
ghost use Rattle.held_updates.specs.Answering.{AnswersUpdate, Comes};

use crate::access::UpdateAccess;
use crate::planned::{PlannedUpdate, UpdatedZone};
use crate::requests::plan_update;
use std::alloc::{AllocError, Global};
use zone_database::{NextZone, ZoneDatabase};
use zone_proto::LowerName;

/// What came of a message.
#[derive(Drop)]
pub enum UpdateAnswer {
    /// It is no update: fewer octets than a header has, a response, or another opcode. Others answer it; nothing changed.
    Other,
    /// The response is there, and the zones are as they were: the update is refused, or its TSIG.
    Refused,
    /// The response is there, and the zones are as they were: the update is carried out, and changes nothing.
    Unchanged,
    /// The response is there, and is longer than the room for it; so the zones are as they were.
    TooLong,
    /// The response is there, and the zone of this origin was replaced by the one after the update.
    Updated(LowerName),
}

/// Carries out an update of one of the zones of a database, as [`plan_update`] plans it, and puts the zone after it in place of the one before. What
/// shares that one keeps it as it was, and answers that were kept of it are given up: `prepare` of the database keeps them anew. No journal is
/// kept.
///
/// `room` is how many octets the response may have where a zone changes. 512 are always enough: it has 23 at most, and its TSIG 358.
///
/// # Errors
///
/// `AllocError` for want of memory; no zone changes then, and what `out` has is no response.
#[tactic(auto, using(crate::proofs::Plans::answered))]
pub fn update_with_keys(
    alloc: Global,
    zones: &mut ZoneDatabase,
    access: &UpdateAccess,
    now: u64,
    room: usize,
    message: &[u8],
    out: &mut Vec<u8>,
) -> Result<UpdateAnswer, AllocError>
    ensures answer { IfOk result (λ answer. AnswersUpdate access.now now room message.now
        (zones_in zones.old) answer out.new.items (zones_in zones.new)) }
    ensures same { OnErr result (zones_in zones.new ≡ zones_in zones.old) }
{
    let planned = plan_update(alloc, zones, access, now, false, message, out)?;
    let answer = settle(alloc, zones, planned, room, out.as_slice())?;
    Ok(answer)
}

/// Has a zone after an update take the place of the one of its origin, if there is one, and room for the response.
#[tactic(auto, using(crate::proofs::Plans::put_comes, crate::proofs::Plans::long_comes))]
fn settle(
    alloc: Global,
    zones: &mut ZoneDatabase,
    planned: PlannedUpdate,
    room: usize,
    response: &[u8],
) -> Result<UpdateAnswer, AllocError>
    ensures answer { IfOk result (λ answer. Comes room response.now planned (zones_in zones.old)
        answer (zones_in zones.new)) }
    ensures same { OnErr result (zones_in zones.new ≡ zones_in zones.old) }
{
    match planned {
        PlannedUpdate::Other => Ok(UpdateAnswer::Other),
        PlannedUpdate::Refused => Ok(UpdateAnswer::Refused),
        PlannedUpdate::Unchanged => Ok(UpdateAnswer::Unchanged),
        PlannedUpdate::Updated(updated) => {
            if response.len() > room {
                drop(updated);
                return Ok(UpdateAnswer::TooLong);
            }
            let UpdatedZone { zone, .. } = updated;
            let origin = put_zone(alloc, zones, zone)?;
            Ok(UpdateAnswer::Updated(origin))
        }
    }
}

/// Puts a zone in place of the one of its origin, or among the others, and gives its origin.
fn put_zone(
    alloc: Global,
    zones: &mut ZoneDatabase,
    zone: NextZone,
) -> Result<LowerName, AllocError>
    ensures origin { IfOk result (λ origin. origin ≡ zone.origin) }
    ensures put { OnOk result (zones_in zones.new ≡ with_zone zone (zones_in zones.old)) }
    ensures same { OnErr result (zones_in zones.new ≡ zones_in zones.old) }
{
    match zone.origin().clone() {
        Ok(origin) => match zones.put_next(alloc, zone) {
            Ok(()) => Ok(origin),
            Err(_) => Err(AllocError),
        },
        Err(_) => {
            drop(zone);
            Err(AllocError)
        }
    }
}
