//! The steps of one zone.
ghost use Rattle.std.specs.Prelude.{◌≡◌, IfOk, OnErr, OnOk};
ghost use Rattle.std.specs.Arc.{arc_value};
ghost use Rattle.held_steps.specs.Histories.{IsBegun, IsNext};
ghost use Rattle.held_steps.specs.Recalling.{leads_to, recalled_to, IsRecalledHistory};

use crate::serial::serial_in;
use kept_steps::KeptSteps;
use recalled_steps::{Recalled, recall_steps};
use std::alloc::{AllocError, Global};
use std::sync::Arc;
use step_answers::note_version;
use zone_database::Zone;

/// The newest version of a zone, and steps that lead to it.
#[derive(Drop)]
pub struct ZoneHistory {
    /// The version, shared with the databases that have it.
    pub newest: Arc<Zone>,
    /// The steps.
    pub steps: KeptSteps,
}

impl ZoneHistory {
    /// A version without steps, and how many records steps may have that are kept. Takes no memory.
    #[tactic(auto, using(crate::proofs::Noted::begun_so))]
    pub fn new(alloc: Global, newest: Arc<Zone>, most: u32) -> ZoneHistory
        ensures { IsBegun (arc_value newest) most result }
    {
        ZoneHistory {
            newest,
            steps: KeptSteps::new(alloc, most),
        }
    }

    /// A version with the steps of the zone's journal, if they lead to it by its serial, and else without steps; `most` is how many records steps may
    /// have that are kept. Fails only for lack of memory.
    #[tactic(auto, using(crate::proofs::Recalls::recalled_so))]
    pub fn recalled(
        alloc: Global,
        newest: Arc<Zone>,
        journal: &[u8],
        most: u32,
    ) -> Result<ZoneHistory, AllocError>
        ensures { IfOk result (IsRecalledHistory (arc_value newest) most journal.now) }
    {
        let serial = serial_in(&newest)?;
        let found = recall_steps(alloc, journal, most)?;
        let steps = recalled_to(alloc, serial, most, found);
        Ok(ZoneHistory { newest, steps })
    }

    /// Takes in the next version, as `note_version` of `step_answers` does. Fails only for lack of memory, and then all is as it was.
    #[tactic(auto, using(crate::proofs::Noted::next_so))]
    pub fn note(&mut self, alloc: Global, next: Arc<Zone>) -> Result<(), AllocError>
        ensures next { OnOk result (IsNext (arc_value next) self.old self.new) }
        ensures same { OnErr result (self.new ≡ self.old) }
    {
        note_version(
            alloc,
            &next.origin,
            self.newest.inner.record_map(),
            next.inner.record_map(),
            &mut self.steps,
        )?;
        self.newest = next;
        Ok(())
    }
}

/// The steps that were recalled if they lead to the version of a serial, and else none.
fn recalled_to(alloc: Global, serial: Option<u32>, most: u32, found: Option<Recalled>) -> KeptSteps
    ensures { result ≡ recalled_to serial most found }
{
    let Some(found) = found else {
        return KeptSteps::new(alloc, most);
    };
    let Recalled {
        steps,
        serial: reached,
    } = found;
    if leads_to(reached, serial) {
        return steps;
    }
    drop(steps);
    KeptSteps::new(alloc, most)
}

/// Whether the version that was reached has this serial.
fn leads_to(reached: Option<u32>, serial: Option<u32>) -> bool
    ensures { result ≡ leads_to reached serial }
{
    match (reached, serial) {
        (Some(reached), Some(serial)) => reached == serial,
        _ => false,
    }
}
