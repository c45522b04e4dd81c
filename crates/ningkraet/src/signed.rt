//! Updates of signed zones, each export by one call of `signed_calls`.
ghost use Rattle.std.specs.Prelude.{◌≡◌, None, option_map};
ghost use Rattle.zone_database.specs.Databases.{zones_in};
ghost use Rattle.journal_calls.specs.Plans.{room};
ghost use Rattle.plan_calls.specs.Outcomes.{Codes};
ghost use Rattle.signed_calls.specs.Outcomes.{Codes as PrepareCodes};
ghost use Rattle.signed_calls.specs.Preparing.{PreparesHeld, rooms};
ghost use Rattle.signed_calls.specs.Held.{SignsHeld};

use arrival_calls::ClientMessage;
use journal_calls::PlannedHandle;
use plan_calls::{PlanHandle, Signing};
use signed_calls::SignedZone;
use std::alloc::Global;
use update_calls::UpdatesHandle;
use zone_database::DatabaseHandle;

/// Carries out an update beside its zone, as `nk_update_begin` does; but where it is one of the signed zone that is given, keeps the plan of the zone
/// after it, which is to be signed.
#[unsafe(no_mangle)]
pub extern "C" fn nk_update_prepare(
    alloc: Global,
    update: &mut PlannedHandle,
    plan: &mut PlanHandle,
    zones: &mut DatabaseHandle,
    updates: &mut UpdatesHandle,
    message: &ClientMessage<'_>,
    zone: &SignedZone<'_>,
    how: &Signing,
    buffer: &mut [u8],
    written: &mut usize,
    frame: &mut [u8],
    frame_written: &mut usize,
) -> u32
    ensures prepared { PrepareCodes result (λ end.
        PreparesHeld updates.old.held message.now zone.now how.now zones.old.held end
        (rooms written.new buffer.old buffer.new frame_written.new frame.old frame.new)
        update.new.held plan.new.held) }
    ensures zones { option_map zones_in zones.new.held
        ≡ option_map zones_in zones.old.held }
    ensures updates { updates.new.held ≡ updates.old.held }
{
    signed_calls::prepare(
        alloc,
        update,
        plan,
        zones,
        updates,
        message,
        zone,
        how,
        buffer,
        written,
        frame,
        frame_written,
    )
    .code()
}

/// Keeps the zone of a plan, with the signatures that were given, as the zone after an update, and writes what the zone's journal gets into the room.
#[unsafe(no_mangle)]
pub extern "C" fn nk_update_sign(
    alloc: Global,
    update: &mut PlannedHandle,
    plan: &mut PlanHandle,
    zones: &mut DatabaseHandle,
    frame: &mut [u8],
    frame_written: &mut usize,
) -> u32
    ensures signed { Codes result (λ o. SignsHeld plan.old.held zones.old.held o
        (room frame_written.new frame.old frame.new) update.new.held plan.new.held) }
    ensures zones { zones.new.held ≡ zones.old.held }
    ensures update { plan.old.held ≡ None → update.new.held ≡ update.old.held }
    ensures written { plan.old.held ≡ None → frame_written.new ≡ frame_written.old }
{
    signed_calls::sign(alloc, update, plan, zones, frame, frame_written).code()
}
