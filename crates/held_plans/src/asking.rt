//! What a plan asks its keys to sign.
ghost use Rattle.std.specs.Prelude.{◌≡◌, ◌++◌, IfOk, IfErr, OnOk};
ghost use Rattle.zone_planning.specs.Faults.{IsSignable, IsSignableBy, IsUnwritableUnless};
ghost use Rattle.zone_planning.specs.Frames.{asked, asked_from, asked_of};
ghost use Rattle.zone_planning.specs.SignedData.{signed_data};
ghost use Rattle.held_plans.specs.Asking.{AreSignable};

use std::alloc::Global;
use std::collections::VecDeque;
use std::marker::Model;
use zone_map::RecordMap;
use zone_planning::{PlanFault, blank_number, push_signed_data};
use zone_proto::{RData, RRSIG, RecordSet, Seq};

/// What a key has to sign. Contracts see it as an `Asked` of `zone_planning`.
#[derive(Drop)]
pub struct AskedSignature {
    /// The number of the key.
    number: u8,
    /// The octets that its signature is to be made of (RFC 4034 section 3.1.8.1).
    octets: Seq<u8>,
}

impl Model for AskedSignature {
    ghost use Rattle.zone_planning.specs.Frames.{Asked};

    ghost Value = { Asked };

    ghost view = { λ a. record { number = a.number; octets = a.octets } };
}

impl AskedSignature {
    /// The number of the key.
    pub fn number(&self) -> u8
        ensures { result ≡ self.now.number }
    {
        self.number
    }

    /// The octets that its signature is to be made of.
    pub fn octets(&self) -> &[u8]
        ensures { result.now ≡ self.now.octets }
    {
        self.octets.as_slice()
    }
}

/// What is to be signed for each blank signature of a zone, in order. Refused by `Unwritable` for data that no octets are, and by
/// `Memory`.
pub(crate) fn asked(
    alloc: Global,
    records: &RecordMap,
) -> Result<VecDeque<AskedSignature>, PlanFault>
    ensures ok { IfOk result (λ queue. queue.items ≡ asked records.now) }
    ensures err { IfErr result (λ e. IsUnwritableUnless e (AreSignable records.now)) }
{
    let mut queue = VecDeque::new(alloc);
    for (_, set) in records.iter() {
        match push_asked(&mut queue, set) {
            Ok(()) => {}
            Err(fault) => return Err(fault),
        }
    }
    Ok(queue)
}

/// Appends the same of a set.
fn push_asked(queue: &mut VecDeque<AskedSignature>, set: &RecordSet) -> Result<(), PlanFault>
    ensures ok { OnOk result (queue.new.items ≡ queue.old.items ++ asked_of set.now) }
    ensures err { IfErr result (λ e. IsUnwritableUnless e (IsSignable set.now)) }
{
    for record in set.rrsigs() {
        if let RData::RRSIG(rrsig) = &record.rdata {
            if let Some(number) = blank_number(record) {
                queue.push_back(asked_by(*queue.allocator(), number, rrsig, set)?)?;
            }
        }
    }
    Ok(())
}

/// What the key of this number has to sign for a signature with these data.
fn asked_by(
    alloc: Global,
    number: u8,
    rrsig: &RRSIG,
    set: &RecordSet,
) -> Result<AskedSignature, PlanFault>
    ensures ok { IfOk result
        (λ a. a ≡ record { number = number; octets = signed_data rrsig.now set.now }) }
    ensures err { IfErr result
        (λ e. IsUnwritableUnless e (IsSignableBy set.now (RData.RRSIG rrsig.now))) }
{
    let mut octets = Vec::new(alloc);
    push_signed_data(&mut octets, rrsig, set)?;
    // Exactly as much memory as it takes, since there may be millions of these.
    let octets = Seq::from_slice(alloc, octets.as_slice())?;
    Ok(AskedSignature { number, octets })
}
