//! The double signature by keys that the parent tells of (RFC 6781 section 4.1.2, RFC 7583 section 3.3.1).
ghost use Rattle.std.specs.Prelude.{◌≡◌, ℕ, ◌<◌, IsTrue, OnOk, OnErr};
ghost use Rattle.zone_rollover.specs.Steps.{allowed};
ghost use Rattle.zone_rollover.specs.KskRollovers.{due, is_timed, stage_after, stage_at, use_of};

use crate::key_use::{Generation, KeyUse};
use crate::steps::{Due, Step, StepFault, Wait, allowed};
use crate::timing::Timing;

/// How far the double signature has come, with the moment of each step, in seconds since 1970.
#[derive(Clone, Copy, PartialEq, Eq, Debug)]
pub enum KskStage {
    /// The old key alone signs the DNSKEY set, and the parent tells of it; nothing is done yet.
    Initial,
    /// Both keys are in the DNSKEY set, and sign it.
    NewDnskey {
        /// Since when the new key does.
        new_dnskey: u64,
    },
    /// The parent was asked for the DS record of the new key in place of the old one's.
    DsSubmitted {
        /// Since when the new key was in the DNSKEY set.
        new_dnskey: u64,
        /// When the parent was asked.
        ds_submitted: u64,
    },
    /// The parent has the DS record of the new key alone.
    DsSeen {
        /// Since when the new key was in the DNSKEY set.
        new_dnskey: u64,
        /// When the parent was asked.
        ds_submitted: u64,
        /// When it was seen at the parent.
        ds_seen: u64,
    },
    /// The old key is gone.
    DnskeyRemoved {
        /// Since when the new key was in the DNSKEY set.
        new_dnskey: u64,
        /// When the parent was asked.
        ds_submitted: u64,
        /// When it was seen at the parent.
        ds_seen: u64,
        /// Since when the old key is gone.
        dnskey_removed: u64,
    },
}

/// The double signature by keys that the parent tells of, as far as it has come.
#[derive(Clone, Copy, PartialEq, Eq, Debug)]
pub struct KskRollover {
    /// What its steps wait for.
    pub timing: Timing,
    /// How far it has come: each of its steps was taken when it might be.
    pub stage: KskStage,
    ghost timed: { IsTrue (is_timed timing stage) },
}

impl KskRollover {
    /// A rollover of which nothing is done yet.
    pub fn new(timing: Timing) -> KskRollover
        ensures timing { result.timing ≡ timing }
        ensures stage { result.stage ≡ KskStage.Initial }
    {
        KskRollover {
            timing,
            stage: KskStage::Initial,
        }
    }

    /// The step that is due, from which moment on it may be taken, and what it waits for; none once the rollover is over.
    pub fn due(&self) -> Option<Due>
        ensures { result ≡ due self.now.timing self.now.stage }
    {
        match self.stage {
            KskStage::Initial => Some(Due {
                step: Step::NewDnskey,
                from: 0,
                waits_for: Wait::Nothing,
            }),
            KskStage::NewDnskey { new_dnskey } => Some(Due {
                step: Step::DsSubmitted,
                from: new_dnskey + self.timing.keys_wait(),
                waits_for: Wait::CachedKeys,
            }),
            KskStage::DsSubmitted { ds_submitted, .. } => Some(Due {
                step: Step::DsSeen,
                from: ds_submitted,
                waits_for: Wait::Parent,
            }),
            KskStage::DsSeen { ds_seen, .. } => Some(Due {
                step: Step::DnskeyRemoved,
                from: ds_seen + self.timing.ds_wait(),
                waits_for: Wait::CachedDs,
            }),
            KskStage::DnskeyRemoved { .. } => None,
        }
    }

    /// Takes the step that is due: it is done at a moment, in seconds since 1970. Refused by `TooEarly` before the moment from
    /// which it may be taken, by `TooLate` past the year 9999, and by `Over` where no step is left; then nothing changes.
    pub fn step(&mut self, moment: u64) -> Result<(), StepFault>
        ensures outcome { result ≡ allowed (due self.old.timing self.old.stage) moment }
        ensures timing { self.new.timing ≡ self.old.timing }
        ensures ok { OnOk result (self.new.stage ≡ stage_after self.old.stage moment) }
        ensures err { OnErr result (self.new.stage ≡ self.old.stage) }

        // The step changes nothing of what was before its moment.
        ensures past { (t : ℕ) → t < moment
            → stage_at self.new.stage t ≡ stage_at self.old.stage t }
    {
        allowed(self.due(), moment)?;
        let stage = match self.stage {
            KskStage::Initial => KskStage::NewDnskey { new_dnskey: moment },
            KskStage::NewDnskey { new_dnskey } => KskStage::DsSubmitted {
                new_dnskey,
                ds_submitted: moment,
            },
            KskStage::DsSubmitted {
                new_dnskey,
                ds_submitted,
            } => KskStage::DsSeen {
                new_dnskey,
                ds_submitted,
                ds_seen: moment,
            },
            KskStage::DsSeen {
                new_dnskey,
                ds_submitted,
                ds_seen,
            } => KskStage::DnskeyRemoved {
                new_dnskey,
                ds_submitted,
                ds_seen,
                dnskey_removed: moment,
            },
            KskStage::DnskeyRemoved { .. } => self.stage,
        };
        *self = KskRollover {
            timing: self.timing,
            stage,
        };
        Ok(())
    }

    /// What is done with the old key, or the new one, since the last step.
    pub fn use_of(&self, generation: Generation) -> KeyUse
        ensures { result ≡ use_of self.now.stage generation }
    {
        let (old, new) = match self.stage {
            KskStage::Initial => (KeyUse::KSK, KeyUse::NONE),
            KskStage::NewDnskey { .. } => (KeyUse::KSK, KeyUse::SIGNS_KEYS),
            KskStage::DsSubmitted { .. } | KskStage::DsSeen { .. } => {
                (KeyUse::SIGNS_KEYS, KeyUse::KSK)
            }
            KskStage::DnskeyRemoved { .. } => (KeyUse::NONE, KeyUse::KSK),
        };
        match generation {
            Generation::Old => old,
            Generation::New => new,
        }
    }
}
