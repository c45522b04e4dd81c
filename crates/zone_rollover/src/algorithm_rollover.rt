//! The change to keys of another algorithm, as validators that want each algorithm to be whole need it: signatures come before
//! keys, and go after them (RFC 6781 section 4.1.4).
ghost use Rattle.std.specs.Prelude.{◌≡◌, ℕ, ◌<◌, IsTrue, OnOk, OnErr};
ghost use Rattle.zone_rollover.specs.Steps.{allowed};
ghost use Rattle.zone_rollover.specs.AlgorithmRollovers.{due, in_use, is_timed, part_of, stage_after, stage_at, use_of};

use crate::key_use::{Generation, KeyUse, Role};
use crate::steps::{Due, Step, StepFault, Wait, allowed};
use crate::timing::Timing;

/// How far the change of the algorithm has come, with the moment of each step, in seconds since 1970.
#[derive(Clone, Copy, PartialEq, Eq, Debug)]
pub enum AlgorithmStage {
    /// The old keys alone sign the zone, and the parent tells of them; nothing is done yet.
    Initial,
    /// The new keys sign beside the old ones.
    NewRrsigs {
        /// Since when they do.
        new_rrsigs: u64,
    },
    /// The new keys are in the DNSKEY set beside the old ones.
    NewDnskey {
        /// Since when the new keys signed.
        new_rrsigs: u64,
        /// Since when they are in the DNSKEY set.
        new_dnskey: u64,
    },
    /// The parent was asked for the DS records of the new keys in place of the old ones'.
    DsSubmitted {
        /// Since when the new keys signed.
        new_rrsigs: u64,
        /// Since when they were in the DNSKEY set.
        new_dnskey: u64,
        /// When the parent was asked.
        ds_submitted: u64,
    },
    /// The parent has the DS records of the new keys alone.
    DsSeen {
        /// Since when the new keys signed.
        new_rrsigs: u64,
        /// Since when they were in the DNSKEY set.
        new_dnskey: u64,
        /// When the parent was asked.
        ds_submitted: u64,
        /// When they were seen at the parent.
        ds_seen: u64,
    },
    /// The old keys are gone from the DNSKEY set, and sign still.
    DnskeyRemoved {
        /// Since when the new keys signed.
        new_rrsigs: u64,
        /// Since when they were in the DNSKEY set.
        new_dnskey: u64,
        /// When the parent was asked.
        ds_submitted: u64,
        /// When the new DS set was seen at the parent.
        ds_seen: u64,
        /// Since when the old keys are gone from the DNSKEY set.
        dnskey_removed: u64,
    },
    /// The old keys' signatures are gone.
    RrsigsRemoved {
        /// Since when the new keys signed.
        new_rrsigs: u64,
        /// Since when they were in the DNSKEY set.
        new_dnskey: u64,
        /// When the parent was asked.
        ds_submitted: u64,
        /// When the new DS set was seen at the parent.
        ds_seen: u64,
        /// Since when the old keys were gone from the DNSKEY set.
        dnskey_removed: u64,
        /// Since when they sign nothing.
        rrsigs_removed: u64,
    },
}

/// The change of the algorithm, as far as it has come.
#[derive(Clone, Copy, PartialEq, Eq, Debug)]
pub struct AlgorithmRollover {
    /// What its steps wait for.
    pub timing: Timing,
    /// How far it has come: each of its steps was taken when it might be.
    pub stage: AlgorithmStage,
    ghost timed: { IsTrue (is_timed timing stage) },
}

impl AlgorithmRollover {
    /// A rollover of which nothing is done yet.
    pub fn new(timing: Timing) -> AlgorithmRollover
        ensures timing { result.timing ≡ timing }
        ensures stage { result.stage ≡ AlgorithmStage.Initial }
    {
        AlgorithmRollover {
            timing,
            stage: AlgorithmStage::Initial,
        }
    }

    /// The step that is due, from which moment on it may be taken, and what it waits for; none once the rollover is over.
    pub fn due(&self) -> Option<Due>
        ensures { result ≡ due self.now.timing self.now.stage }
    {
        match self.stage {
            AlgorithmStage::Initial => Some(Due {
                step: Step::NewRrsigs,
                from: 0,
                waits_for: Wait::Nothing,
            }),
            AlgorithmStage::NewRrsigs { new_rrsigs } => Some(Due {
                step: Step::NewDnskey,
                from: new_rrsigs + self.timing.sets_wait(),
                waits_for: Wait::CachedSets,
            }),
            AlgorithmStage::NewDnskey { new_dnskey, .. } => Some(Due {
                step: Step::DsSubmitted,
                from: new_dnskey + self.timing.keys_wait(),
                waits_for: Wait::CachedKeys,
            }),
            AlgorithmStage::DsSubmitted { ds_submitted, .. } => Some(Due {
                step: Step::DsSeen,
                from: ds_submitted,
                waits_for: Wait::Parent,
            }),
            AlgorithmStage::DsSeen { ds_seen, .. } => Some(Due {
                step: Step::DnskeyRemoved,
                from: ds_seen + self.timing.ds_wait(),
                waits_for: Wait::CachedDs,
            }),
            AlgorithmStage::DnskeyRemoved { dnskey_removed, .. } => Some(Due {
                step: Step::RrsigsRemoved,
                from: dnskey_removed + self.timing.keys_wait(),
                waits_for: Wait::CachedKeys,
            }),
            AlgorithmStage::RrsigsRemoved { .. } => None,
        }
    }

    /// Takes the step that is due: it is done at a moment, in seconds since 1970. Refused by `TooEarly` before the moment from
    /// which it may be taken, by `TooLate` past the year 9999, and by `Over` where no step is left; then nothing changes.
    pub fn step(&mut self, moment: u64) -> Result<(), StepFault>
        ensures outcome { result ≡ allowed (due self.old.timing self.old.stage) moment }
        ensures timing { self.new.timing ≡ self.old.timing }
        ensures ok { OnOk result (self.new.stage ≡ stage_after self.old.stage moment) }
        ensures err { OnErr result (self.new.stage ≡ self.old.stage) }

        // The step changes nothing of what was before its moment.
        ensures past { (t : ℕ) → t < moment
            → stage_at self.new.stage t ≡ stage_at self.old.stage t }
    {
        allowed(self.due(), moment)?;
        let stage = match self.stage {
            AlgorithmStage::Initial => AlgorithmStage::NewRrsigs { new_rrsigs: moment },
            AlgorithmStage::NewRrsigs { new_rrsigs } => AlgorithmStage::NewDnskey {
                new_rrsigs,
                new_dnskey: moment,
            },
            AlgorithmStage::NewDnskey {
                new_rrsigs,
                new_dnskey,
            } => AlgorithmStage::DsSubmitted {
                new_rrsigs,
                new_dnskey,
                ds_submitted: moment,
            },
            AlgorithmStage::DsSubmitted {
                new_rrsigs,
                new_dnskey,
                ds_submitted,
            } => AlgorithmStage::DsSeen {
                new_rrsigs,
                new_dnskey,
                ds_submitted,
                ds_seen: moment,
            },
            AlgorithmStage::DsSeen {
                new_rrsigs,
                new_dnskey,
                ds_submitted,
                ds_seen,
            } => AlgorithmStage::DnskeyRemoved {
                new_rrsigs,
                new_dnskey,
                ds_submitted,
                ds_seen,
                dnskey_removed: moment,
            },
            AlgorithmStage::DnskeyRemoved {
                new_rrsigs,
                new_dnskey,
                ds_submitted,
                ds_seen,
                dnskey_removed,
            } => AlgorithmStage::RrsigsRemoved {
                new_rrsigs,
                new_dnskey,
                ds_submitted,
                ds_seen,
                dnskey_removed,
                rrsigs_removed: moment,
            },
            AlgorithmStage::RrsigsRemoved { .. } => self.stage,
        };
        *self = AlgorithmRollover {
            timing: self.timing,
            stage,
        };
        Ok(())
    }

    /// What is done with an old key, or a new one, of a role since the last step.
    pub fn use_of(&self, generation: Generation, role: Role) -> KeyUse
        ensures { result ≡ use_of self.now.stage generation role }
    {
        let all = in_use(role);
        let is_old = generation == Generation::Old;
        let is_new = generation == Generation::New;
        match self.stage {
            AlgorithmStage::Initial => part_of(all, is_old, is_old, is_old),
            AlgorithmStage::NewRrsigs { .. } => part_of(all, is_old, true, is_old),
            AlgorithmStage::NewDnskey { .. } => part_of(all, true, true, is_old),
            AlgorithmStage::DsSubmitted { .. } | AlgorithmStage::DsSeen { .. } => {
                part_of(all, true, true, is_new)
            }
            AlgorithmStage::DnskeyRemoved { .. } => part_of(all, is_new, true, is_new),
            AlgorithmStage::RrsigsRemoved { .. } => part_of(all, is_new, is_new, is_new),
        }
    }
}

/// What is done with a key of a role that is in use.
fn in_use(role: Role) -> KeyUse
    ensures { result ≡ in_use role }
{
    match role {
        Role::Ksk => KeyUse::KSK,
        Role::Zsk => KeyUse::ZSK,
        Role::Csk => KeyUse::CSK,
    }
}

/// What of a use is done: as far as it is in the DNSKEY set, signs, and the parent is to tell of it.
fn part_of(usage: KeyUse, is_published: bool, signs: bool, wants_ds: bool) -> KeyUse
    ensures { result ≡ part_of usage is_published signs wants_ds }
{
    KeyUse {
        is_published: usage.is_published && is_published,
        signs_keys: usage.signs_keys && signs,
        signs_others: usage.signs_others && signs,
        wants_ds: usage.wants_ds && wants_ds,
    }
}
