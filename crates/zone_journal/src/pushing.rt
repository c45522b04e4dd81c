//! Steps put behind a journal.
ghost use Rattle.std.specs.Prelude.{◌≡◌, IfErr, OnErr, OnOk};
ghost use Rattle.shown_zones.specs.Steps.{step_of};
ghost use Rattle.zone_journal.specs.Journals.{IsPut};
ghost use Rattle.zone_journal.specs.Writing.{IsEntryFault};

use crate::entry_writer::write_entry;
use crate::fault::EntryFault;
use journal_frames::push_frame;
use shown_zones::ZoneStep;
use std::alloc::Global;
use zone_proto::Name;

/// Puts the entry of a step of the zone of this origin behind a journal, in a frame. What is new of the journal has to be in its file, and
/// synced, before the zone after the step is served: else a crash brings a version back that was left.
///
/// # Errors
///
/// Those of [`write_entry`](crate::write_entry). The journal stays as it was.
pub fn push_step(
    alloc: Global,
    origin: &Name,
    step: &ZoneStep,
    journal: &mut Vec<u8>,
) -> Result<(), EntryFault>
    ensures ok { OnOk result (IsPut journal.old.items journal.new.items (step_of step.now)) }
    ensures fault { IfErr result (IsEntryFault origin.now (step_of step.now)) }
    ensures same { OnErr result (journal.new.items ≡ journal.old.items) }
{
    let entry = write_entry(alloc, origin, step)?;
    Ok(push_frame(journal, entry.as_slice())?)
}
