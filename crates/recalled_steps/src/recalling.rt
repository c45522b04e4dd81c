//! Steps recalled from a journal.
ghost use Rattle.std.specs.Prelude.{◌≡◌, None, IfOk, OnOk};
ghost use Rattle.journal_frames.specs.Journals.{frames_in};
ghost use Rattle.recalled_steps.specs.Recalling.{all_noted, serial_behind, IsRecalledIfAny};

use difference_messages::serial_of;
use kept_steps::KeptSteps;
use shown_zones::ZoneStep;
use std::alloc::{AllocError, Global};
use step_answers::note_step;
use zone_journal::steps_of;

/// Steps of a zone, and the version to which they lead.
#[derive(Drop)]
pub struct Recalled {
    /// The steps.
    pub steps: KeptSteps,
    /// The serial of the version to which the last one leads that the journal has; none where it has none, or that isn't read of it.
    pub serial: Option<u32>,
}

/// The steps of the entries in the whole frames of a zone's journal, kept as they would be if each version had been noted when it came: the newest, as
/// many as have `most` records, signatures among them. What stands behind the last whole frame counts for nothing. None where one of the frames has
/// no entry. Fails only for lack of memory.
#[tactic(auto, using(crate::proofs::Recalls::recalled_so, crate::proofs::Recalls::recalled_none))]
pub fn recall_steps(
    alloc: Global,
    journal: &[u8],
    most: u32,
) -> Result<Option<Recalled>, AllocError>
    ensures { IfOk result (IsRecalledIfAny most (frames_in journal.now)) }
{
    let Ok(found) = steps_of(alloc, journal) else {
        return Err(AllocError);
    };
    let Some(entries) = found else {
        return Ok(None);
    };
    let mut steps = KeptSteps::new(alloc, most);
    let serial = note_all(&mut steps, entries)?;
    Ok(Some(Recalled { steps, serial }))
}

/// Notes steps, one after the other. The serial of the version to which the last one leads.
fn note_all(kept: &mut KeptSteps, steps: Vec<ZoneStep>) -> Result<Option<u32>, AllocError>
    ensures noted { OnOk result (kept.new ≡ all_noted kept.old steps.items) }
    ensures serial { IfOk result (λ serial. serial ≡ serial_behind None steps.items) }
{
    let mut serial = None;
    for step in steps {
        serial = serial_of(&step.new_soa);
        note_step(kept, Some(step))?;
    }
    Ok(serial)
}
