//! A zone that is being sent, or steps in its place.
ghost use Rattle.std.specs.Prelude.{◌≡◌, None};
ghost use Rattle.held_steps.specs.Sending.{GoesOnAnswer};
ghost use Rattle.held_steps.specs.Shortening.{is_at_start, IsShortened};

use crate::histories::HeldSteps;
use crate::lacking::messages_lacked;
use crate::sealing::next_text;
use held_transfers::HeldTransfer;
use std::alloc::{AllocError, Global};
use transfer_messages::{OpenTransfer, Place};

/// A zone that is being sent; or, in its place, the steps to it that the one who asks lacks.
#[derive(Drop)]
pub struct HeldAnswer {
    /// The zone, and how the messages are signed.
    pub transfer: HeldTransfer,
    /// The messages of steps that are left, as they are before they are signed, if these go out.
    pub texts: Option<Vec<Vec<u8>>>,
}

impl HeldAnswer {
    /// The zone.
    pub fn new(transfer: HeldTransfer) -> HeldAnswer
        ensures { result ≡ record { transfer = transfer; texts = None } }
    {
        HeldAnswer {
            transfer,
            texts: None,
        }
    }

    /// Has the steps go out in place of the zone that the one who asks lacks, whose message this is, and says whether they do: two and more are
    /// condensed into one (RFC 1995 section 5), so that nothing is sent that was added and deleted again. All messages are made now, so nothing of the
    /// steps is needed any more.
    ///
    /// The zone goes out whole (RFC 1995 section 4), and nothing changes, where it was asked for whole, or a message went out already; where the
    /// steps aren't kept that lead from the serial of the message to that of the zone; and where one of their records can't be sent.
    /// Fails only for lack of memory, and nothing changes then.
    pub fn shorten(
        &mut self,
        alloc: Global,
        steps: &HeldSteps,
        message: &[u8],
    ) -> Result<bool, AllocError>
        ensures { IsShortened steps.now message.now self.old self.new result }
    {
        if self.texts.is_some() || !is_at_start(&self.transfer.transfer) {
            return Ok(false);
        }
        match messages_lacked(alloc, steps, &self.transfer, message)? {
            Some(texts) => {
                self.texts = Some(texts);
                Ok(true)
            }
            None => Ok(false),
        }
    }

    /// Makes the next message in place of the octets of `out`, at a moment in seconds since 1970, and says whether there is one: of the steps, if
    /// they go out, and else of the zone, as `next` of `HeldTransfer` does. It is signed, if the request was, the first with the MAC of the
    /// request, and each further one with that of the message before (RFC 8945 section 5.3.1). Fails only for lack of memory, and then the
    /// answer is where it was.
    #[tactic(auto, using(crate::proofs::Going::goes_by_texts, crate::proofs::Going::goes_by_zone))]
    pub fn next(&mut self, alloc: Global, now: u64, out: &mut Vec<u8>) -> Result<bool, AllocError>
        ensures { GoesOnAnswer now self.old self.new out.new.items result }
    {
        match &mut self.texts {
            Some(texts) => next_text(alloc, texts, &mut self.transfer.transfer.sealing, now, out),
            None => self.transfer.next(alloc, now, out),
        }
    }
}

/// Whether no message of a transfer went out.
fn is_at_start(transfer: &OpenTransfer) -> bool
    ensures { result ≡ is_at_start transfer.now }
{
    match &transfer.place {
        Place::Opening(sent) => *sent == 0 && !transfer.is_broken_off,
        _ => false,
    }
}
