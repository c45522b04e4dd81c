//! Steps kept.
ghost use Rattle.std.specs.Prelude.{◌≡◌, [], option_map, OnErr, OnOk};
ghost use Rattle.kept_steps.specs.Giving.{steps_from};
ghost use Rattle.kept_steps.specs.Kept.{with_step};

use crate::counting::{drop_oldest, room_behind};
use crate::giving::from_only;
use difference_messages::has_step_at;
use shown_zones::ZoneStep;
use std::alloc::{AllocError, Global};
use std::marker::Model;
use zone_proto::is_newer;

/// The newest steps of a zone, each from one version to the next.
#[derive(Drop)]
pub struct KeptSteps {
    steps: Vec<ZoneStep>,
    /// How many records they have.
    records: usize,
    /// How many they may have.
    most: usize,
}

impl Model for KeptSteps {
    ghost use Rattle.std.specs.Prelude.{◌≡◌, ◌≤◌, ◌<◌, ◌^◌};
    ghost use Rattle.kept_steps.specs.Kept.{size_of, Kept};

    ghost Value = { Kept };

    ghost view = { λ k. record { most = k.most; steps = k.steps.items } };

    ghost invariant = { λ k. (k.records ≡ size_of k.steps.items) × (k.records ≤ k.most)
        × (k.most < 2 ^ 32) };
}

impl KeptSteps {
    /// No steps, and how many records may be kept, signatures among them. Takes no memory.
    pub fn new(alloc: Global, most: u32) -> KeptSteps
        ensures { result ≡ record { most = most; steps = [] } }
    {
        KeptSteps {
            steps: Vec::new(alloc),
            records: 0,
            most: most as usize,
        }
    }

    /// Puts the step to a new version behind the others, which lead to the version before it. Of all steps the oldest go until the others have no
    /// more records than may be kept; so all go where this one has more. Fails only for lack of memory, which leaves all as it was.
    #[tactic(auto, using(crate::proofs::Newest::none_stays, crate::proofs::Newest::size_last))]
    pub fn push(&mut self, step: ZoneStep) -> Result<(), AllocError>
        ensures ok { OnOk result (self.new ≡ with_step self.old step) }
        ensures same { OnErr result (self.new ≡ self.old) }
    {
        let Some(room) = room_behind(&step, self.most) else {
            self.forget();
            return Ok(());
        };
        self.steps.push(step)?;
        let records = self.records + (self.most - room);
        self.records = drop_oldest(&mut self.steps, records, self.most);
        Ok(())
    }

    /// Forgets all steps, as where the zone is loaded anew.
    pub fn forget(&mut self)
        ensures { self.new ≡ record self.old { steps = [] } }
    {
        self.steps.clear();
        self.records = 0;
    }

    /// The steps that a secondary lacks that holds the version of a serial, where the newest version has the second serial, and the steps lead to
    /// it: from the step that begins there on. They are given as they are, not condensed (RFC 1995 section 5). Doesn't allocate.
    ///
    /// None where the newest version isn't newer (RFC 1982), and the SOA alone answers (RFC 1995 section 2); and where the zone goes out
    /// whole (section 4): no step begins at the serial that is held; or serials have come around, so that two do, or one begins at that of the newest
    /// version, where a secondary would take the zone to be complete.
    pub fn steps_from(&self, held: u32, newest: u32) -> Option<&[ZoneStep]>
        ensures { option_map (λ x. x.now) result ≡ steps_from held newest self.now.steps }
    {
        let steps = self.steps.as_slice();
        if !is_newer(newest, held) || has_step_at(newest, steps) {
            return None;
        }
        from_only(held, steps)
    }
}
