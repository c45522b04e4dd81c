//! The pre-publication of a key that signs the zone (RFC 6781 section 4.1.1.1, RFC 7583 section 3.2.1).
ghost use Rattle.std.specs.Prelude.{◌≡◌, ℕ, ◌<◌, IsTrue, OnOk, OnErr};
ghost use Rattle.zone_rollover.specs.Steps.{allowed};
ghost use Rattle.zone_rollover.specs.ZskRollovers.{due, is_timed, stage_after, stage_at, use_of};

use crate::key_use::{Generation, KeyUse};
use crate::steps::{Due, Step, StepFault, Wait, allowed};
use crate::timing::Timing;

/// How far the pre-publication of a key has come, with the moment of each step, in seconds since 1970.
#[derive(Clone, Copy, PartialEq, Eq, Debug)]
pub enum ZskStage {
    /// The old key signs the zone; nothing is done yet.
    Initial,
    /// The new key is in the DNSKEY set beside the old one.
    NewDnskey {
        /// Since when it does.
        new_dnskey: u64,
    },
    /// The new key signs the zone, and the old one is in the DNSKEY set still.
    NewRrsigs {
        /// Since when the new key was in the DNSKEY set.
        new_dnskey: u64,
        /// Since when it signs.
        new_rrsigs: u64,
    },
    /// The old key is gone.
    DnskeyRemoved {
        /// Since when the new key was in the DNSKEY set.
        new_dnskey: u64,
        /// Since when it signs.
        new_rrsigs: u64,
        /// Since when the old one is gone.
        dnskey_removed: u64,
    },
}

/// The pre-publication of a key that signs the zone, as far as it has come.
#[derive(Clone, Copy, PartialEq, Eq, Debug)]
pub struct ZskRollover {
    /// What its steps wait for.
    pub timing: Timing,
    /// How far it has come: each of its steps was taken when it might be.
    pub stage: ZskStage,
    ghost timed: { IsTrue (is_timed timing stage) },
}

impl ZskRollover {
    /// A rollover of which nothing is done yet.
    pub fn new(timing: Timing) -> ZskRollover
        ensures timing { result.timing ≡ timing }
        ensures stage { result.stage ≡ ZskStage.Initial }
    {
        ZskRollover {
            timing,
            stage: ZskStage::Initial,
        }
    }

    /// The step that is due, from which moment on it may be taken, and what it waits for; none once the rollover is over.
    pub fn due(&self) -> Option<Due>
        ensures { result ≡ due self.now.timing self.now.stage }
    {
        match self.stage {
            ZskStage::Initial => Some(Due {
                step: Step::NewDnskey,
                from: 0,
                waits_for: Wait::Nothing,
            }),
            ZskStage::NewDnskey { new_dnskey } => Some(Due {
                step: Step::NewRrsigs,
                from: new_dnskey + self.timing.keys_wait(),
                waits_for: Wait::CachedKeys,
            }),
            ZskStage::NewRrsigs { new_rrsigs, .. } => Some(Due {
                step: Step::DnskeyRemoved,
                from: new_rrsigs + self.timing.sets_wait(),
                waits_for: Wait::CachedSets,
            }),
            ZskStage::DnskeyRemoved { .. } => None,
        }
    }

    /// Takes the step that is due: it is done at a moment, in seconds since 1970. Refused by `TooEarly` before the moment from
    /// which it may be taken, by `TooLate` past the year 9999, and by `Over` where no step is left; then nothing changes.
    pub fn step(&mut self, moment: u64) -> Result<(), StepFault>
        ensures outcome { result ≡ allowed (due self.old.timing self.old.stage) moment }
        ensures timing { self.new.timing ≡ self.old.timing }
        ensures ok { OnOk result (self.new.stage ≡ stage_after self.old.stage moment) }
        ensures err { OnErr result (self.new.stage ≡ self.old.stage) }

        // The step changes nothing of what was before its moment.
        ensures past { (t : ℕ) → t < moment
            → stage_at self.new.stage t ≡ stage_at self.old.stage t }
    {
        allowed(self.due(), moment)?;
        let stage = match self.stage {
            ZskStage::Initial => ZskStage::NewDnskey { new_dnskey: moment },
            ZskStage::NewDnskey { new_dnskey } => ZskStage::NewRrsigs {
                new_dnskey,
                new_rrsigs: moment,
            },
            ZskStage::NewRrsigs {
                new_dnskey,
                new_rrsigs,
            } => ZskStage::DnskeyRemoved {
                new_dnskey,
                new_rrsigs,
                dnskey_removed: moment,
            },
            ZskStage::DnskeyRemoved { .. } => self.stage,
        };
        *self = ZskRollover {
            timing: self.timing,
            stage,
        };
        Ok(())
    }

    /// What is done with the old key, or the new one, since the last step.
    pub fn use_of(&self, generation: Generation) -> KeyUse
        ensures { result ≡ use_of self.now.stage generation }
    {
        let (old, new) = match self.stage {
            ZskStage::Initial => (KeyUse::ZSK, KeyUse::NONE),
            ZskStage::NewDnskey { .. } => (KeyUse::ZSK, KeyUse::PUBLISHED),
            ZskStage::NewRrsigs { .. } => (KeyUse::PUBLISHED, KeyUse::ZSK),
            ZskStage::DnskeyRemoved { .. } => (KeyUse::NONE, KeyUse::ZSK),
        };
        match generation {
            Generation::Old => old,
            Generation::New => new,
        }
    }
}
