//! Entries written.
ghost use Rattle.std.specs.Prelude.{◌≡◌, ◌^◌, ◌<◌, length, IfErr, IfOk, Some};
ghost use Rattle.shown_zones.specs.Steps.{shown_step, step_of};
ghost use Rattle.zone_journal.specs.Entries.{entry_of};
ghost use Rattle.zone_journal.specs.Writing.{IsEntryFault};

use crate::fault::EntryFault;
use crate::groups::groups_of;
use crate::writable::is_writable;
use message_series::{SeriesFault, write_series};
use shown_zones::ZoneStep;
use std::alloc::Global;
use zone_proto::Name;

/// The entry of a step of the zone of this origin: fewer than 2^32 octets, which read back as what answers show of the step.
///
/// # Errors
///
/// `Unreadable` where the step isn't between two SOAs; where one of its other sets has no records, is of type SOA or RRSIG, or has the owner
/// and type of the one before it. By the law [`steps_are_writable`](crate::laws::steps_are_writable) no step between versions is such a one.
/// `Unwritable` where it is another one, but one of its records has data that no octets are, or is too long for a message; or where the
/// records take more than 65,534 messages, so that there are more than 65,534 of them. `Memory` where none is found.
pub fn write_entry(alloc: Global, origin: &Name, step: &ZoneStep) -> Result<Vec<u8>, EntryFault>
    ensures reads { IfOk result
        (λ octets. entry_of octets.items ≡ Some (shown_step (step_of step.now))) }
    ensures size { IfOk result (λ octets. length octets.items < 2 ^ 32) }
    ensures fault { IfErr result (IsEntryFault origin.now (step_of step.now)) }
{
    if !is_writable(step) {
        return Err(EntryFault::Unreadable);
    }
    let groups = groups_of(alloc, step)?;
    match write_series(alloc, origin, groups.as_slice()) {
        Ok(octets) => Ok(octets),
        Err(SeriesFault::Unwritable) => Err(EntryFault::Unwritable),
        Err(SeriesFault::Memory) => Err(EntryFault::Memory),
    }
}
