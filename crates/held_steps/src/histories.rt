//! The steps of zones.

use crate::history::ZoneHistory;
use std::alloc::{AllocError, Global};
use std::collections::BTreeMap;
use std::sync::Arc;
use zone_database::Zone;
use zone_proto::LowerName;

/// The steps of zones by their origins, and the newest version of each, to which they lead.
#[derive(Drop)]
pub struct HeldSteps {
    pub(crate) histories: BTreeMap<LowerName, ZoneHistory>,
    /// How many records the steps of one zone may have.
    pub(crate) most: u32,
}

impl HeldSteps {
    ghost use Rattle.std.specs.Prelude.{◌≡◌, None, OnErr, OnOk, option_copied};
    ghost use Rattle.std.specs.Arc.{arc_value};
    ghost use Rattle.held_steps.specs.Histories.{history_of, most_in, HasNone, IsNotedIn, IsPut, IsSame};
    ghost use Rattle.held_steps.specs.Recalling.{IsRecalledIn};

    /// No steps, and how many records those of one zone may have, signatures among them. Takes no memory.
    pub fn new(alloc: Global, most: u32) -> HeldSteps
        ensures none { HasNone result }
        ensures most { most_in result ≡ most }
    {
        HeldSteps {
            histories: BTreeMap::new(alloc),
            most,
        }
    }

    /// What is kept of the zone of an origin. Doesn't allocate.
    pub fn get(&self, origin: &LowerName) -> Option<&ZoneHistory>
        ensures { option_copied result ≡ history_of self.now origin.now }
    {
        self.histories.get(origin)
    }

    /// Takes in the next version of a zone: the step to it from the version that was noted before is kept behind the others, and the oldest go until
    /// they have no more records than they may have. All are forgotten where it isn't newer by its serial (RFC 1982), or one of the two has no
    /// SOA. The first version of a zone that is noted has no steps.
    ///
    /// Each version that is served in place of another has to be noted, so that no answer says less than what changed. It takes one pass over
    /// either version, and a copy of what changed. Fails only for lack of memory, and then all is as it was.
    pub fn note(&mut self, alloc: Global, version: Arc<Zone>) -> Result<(), AllocError>
        ensures noted { OnOk result (IsNotedIn (arc_value version) self.old self.new) }
        ensures same { OnErr result (IsSame self.old self.new) }
    {
        match self.histories.get_mut(&version.origin) {
            Some(history) => history.note(alloc, version),
            None => self.begin(alloc, version),
        }
    }

    /// Takes in the first version of a zone.
    #[tactic(auto, using(crate::proofs::Noted::noted_first))]
    fn begin(&mut self, alloc: Global, version: Arc<Zone>) -> Result<(), AllocError>
        requires { history_of self.old (arc_value version).origin ≡ None }
        ensures noted { OnOk result (IsNotedIn (arc_value version) self.old self.new) }
        ensures same { OnErr result (IsSame self.old self.new) }
    {
        let Ok(origin) = version.origin.clone() else {
            return Err(AllocError);
        };
        let history = ZoneHistory::new(alloc, version, self.most);
        match self.histories.insert(origin, history) {
            Ok(_) => Ok(()),
            Err(_) => Err(AllocError),
        }
    }

    /// Takes in the version of a zone to which its journal leads, with the steps of the journal, in place of what is kept of the zone: so what changed
    /// before a server was started goes out still. Where the journal leads to a version of another serial, or one of its frames has no entry, there
    /// are no steps. Call it once the zone is replayed, and `note` for each version after it. Fails only for lack of memory, and then all is as it was.
    #[tactic(auto, using(crate::proofs::Recalls::recalled_in))]
    pub fn recall(
        &mut self,
        alloc: Global,
        version: Arc<Zone>,
        journal: &[u8],
    ) -> Result<(), AllocError>
        ensures recalled { OnOk result
            (IsRecalledIn (arc_value version) journal.now self.old self.new) }
        ensures same { OnErr result (IsSame self.old self.new) }
    {
        let Ok(origin) = version.origin.clone() else {
            return Err(AllocError);
        };
        let history = ZoneHistory::recalled(alloc, version, journal, self.most)?;
        match self.histories.insert(origin, history) {
            Ok(_) => Ok(()),
            Err(_) => Err(AllocError),
        }
    }

    /// Forgets the zone of an origin. Doesn't allocate.
    #[tactic(auto, using(crate::proofs::Noted::forgotten))]
    pub fn forget(&mut self, origin: &LowerName)
        ensures forgotten { IsPut origin.now None (history_of self.old) (history_of self.new) }
        ensures most { most_in self.new ≡ most_in self.old }
    {
        drop(self.histories.remove(origin));
    }
}
