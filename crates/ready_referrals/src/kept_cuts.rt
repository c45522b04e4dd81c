//! What is kept of the zone cuts of a zone.
ghost use Rattle.std.specs.Prelude.{◌≡◌, true, IfOk, IfSome, OnOk};
ghost use Rattle.zone_proto.specs.Names.{is_at_or_above};
ghost use Rattle.zone_response.specs.Queries.{zone_of, Zone};
ghost use Rattle.ready_referrals.specs.Referrals.{AreReferrals, IsReferral};

use crate::hints::{MOST_SLOTS, Slots, hint_of};
use crate::keeping::{ReadyReferral, ready_referral};
use std::alloc::{AllocError, Global};
use zone_proto::{LowerName, Nsec3Hash, RecordType, Signer};
use zone_response::ServedZone;

/// How many labels below the origin a zone cut may be that is kept.
const MOST_LABELS: usize = 3;

/// What is kept of the zone cuts of a zone. Which zone's they are is said by `AreReferrals`.
#[derive(Drop)]
pub struct ReadyReferrals {
    /// One for each zone cut.
    pub(crate) referrals: Vec<ReadyReferral>,
    /// Where they are found.
    pub(crate) slots: Slots,
    /// How many labels a zone cut has that is kept: at least so many.
    pub(crate) least: usize,
    /// At most so many.
    pub(crate) most: usize,
}

impl ReadyReferrals {
    /// Of no zone cuts. Doesn't allocate.
    pub fn new(alloc: Global) -> ReadyReferrals
        ensures { (z : Zone) → AreReferrals z result }
    {
        ReadyReferrals {
            referrals: Vec::new(alloc),
            slots: Slots::new(alloc),
            least: 0,
            most: 0,
        }
    }

    /// How many there are. Doesn't allocate.
    pub fn len(&self) -> usize {
        self.referrals.len()
    }

    /// What refers at a name, if a zone cut at or above it is kept. Doesn't allocate.
    pub fn find(&self, name: &LowerName) -> Option<&ReadyReferral>
        ensures above { IfSome result (λ r. is_at_or_above r.now.cut name.now ≡ true) }
        ensures kept { IfSome result (λ r. (z : Zone) → AreReferrals z self.now
            → IsReferral z r.now) }
    {
        if self.referrals.is_empty() {
            return None;
        }
        let count = name.num_labels();
        for labels in self.least..self.most.saturating_add(1) {
            if labels > count {
                return None;
            }
            let found = self.find_by(name, hint_of(name, count - labels));
            if found.is_some() {
                return found;
            }
        }
        None
    }

    /// What refers at a name, if a hint leads to it.
    fn find_by(&self, name: &LowerName, hint: usize) -> Option<&ReadyReferral>
        ensures above { IfSome result (λ r. is_at_or_above r.now.cut name.now ≡ true) }
        ensures kept { IfSome result (λ r. (z : Zone) → AreReferrals z self.now
            → IsReferral z r.now) }
    {
        for step in 0..MOST_SLOTS {
            let index = self.slots.at(hint, step)?;
            let found = self.at(index, name);
            if found.is_some() {
                return found;
            }
        }
        None
    }

    /// The one of a number, if it refers at a name.
    fn at(&self, index: usize, name: &LowerName) -> Option<&ReadyReferral>
        ensures above { IfSome result (λ r. is_at_or_above r.now.cut name.now ≡ true) }
        ensures kept { IfSome result (λ r. (z : Zone) → AreReferrals z self.now
            → IsReferral z r.now) }
    {
        let referral = self.referrals.get(index)?;
        if referral.cut.zone_of(name) {
            Some(referral)
        } else {
            None
        }
    }

    /// Keeps one more.
    fn keep(&mut self, referral: ReadyReferral) -> Result<(), AllocError>
        ensures { OnOk result ((z : Zone) → IsReferral z referral → AreReferrals z self.old
            → AreReferrals z self.new) }
    {
        let labels = referral.cut.num_labels();
        if self.referrals.is_empty() || labels < self.least {
            self.least = labels;
        }
        self.most = self.most.max(labels);
        self.referrals.push(referral)?;
        Ok(())
    }

    /// Whether a name is at or below the zone cut that was kept last.
    fn is_below_last(&self, name: &LowerName) -> bool {
        match self.referrals.last() {
            Some(last) => last.cut.zone_of(name),
            None => false,
        }
    }
}

/// Keeps what refers at and below the zone cuts of a zone that are at most three labels below its origin. One isn't kept where no octets are the data of a
/// record, nor where DNSSEC can't prove its referral. Fails only for lack of memory.
pub fn ready_referrals<S: Signer, H: Nsec3Hash>(
    alloc: Global,
    zone: &ServedZone<'_, S, H>,
) -> Result<ReadyReferrals, AllocError>
    ensures { IfOk result (AreReferrals (zone_of S.signature_of H.digest_of zone.now)) }
{
    let most = zone.origin.num_labels().saturating_add(MOST_LABELS);
    let mut kept = ReadyReferrals::new(alloc);
    for (key, _) in zone.inner.record_map().iter() {
        if key.record_type == RecordType::NS
            && key.name.num_labels() <= most
            && !kept.is_below_last(&key.name)
        {
            if let Some(referral) = ready_referral(alloc, zone, &key.name)? {
                kept.keep(referral)?;
            }
        }
    }
    let slots = slots_of(alloc, kept.referrals.as_slice())?;
    Ok(ReadyReferrals { slots, ..kept })
}

/// Slots for the names of referrals.
fn slots_of(alloc: Global, referrals: &[ReadyReferral]) -> Result<Slots, AllocError> {
    let mut slots = Slots::for_names(alloc, referrals.len())?;
    for index in 0..referrals.len() {
        slots.put(hint_of(&referrals[index].cut, 0), index);
    }
    Ok(slots)
}
