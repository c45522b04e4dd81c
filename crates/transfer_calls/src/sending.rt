//! The messages of a zone that is sent, handed out one after the other.
ghost use Rattle.std.specs.Prelude.{◌≡◌, None};
ghost use Rattle.transfer_calls.specs.Transfers.{GivesMessage, HandsOut, IsKeptBy};

use crate::beginning::give_response;
use crate::outcome::TransferOutcome;
use crate::transfer_handle::TransferHandle;
use call_handles::Handle;
use held_steps::HeldAnswer;
use std::alloc::Global;
use std::mem;
use zone_database::Outcome;

/// Writes the next message of a zone that is sent into the room, at a moment in seconds since 1970, and its length into `written`.
///
/// `NoMore` where all were handed out, and `NoTransfer` where the handle holds none. After `NoMore`, and after `NoRoom`, where the message is
/// longer than the room (`written` says how many octets it has), the handle holds nothing: no message may be left out. `NoMemory` leaves the
/// transfer where it was. The room stays as it was after anything but `Done`.
#[tactic(auto, using(crate::proofs::CallFacts::given_held))]
pub fn next(
    alloc: Global,
    transfer: &mut TransferHandle,
    now: u64,
    buffer: &mut [u8],
    written: &mut usize,
) -> TransferOutcome
    ensures { GivesMessage now transfer.old.held result written.new buffer.old buffer.new
        transfer.new.held }
{
    match transfer.take(alloc) {
        Some(mut held) => {
            let outcome = hand_out(alloc, &mut held, now, buffer, written);
            keep(transfer, held, outcome);
            outcome
        }
        None => {
            *written = 0;
            TransferOutcome::NoTransfer
        }
    }
}

/// Writes the next message of a transfer into the room.
#[tactic(auto, using(crate::proofs::CallFacts::handed, crate::proofs::CallFacts::handed_none, crate::proofs::CallFacts::handed_later))]
fn hand_out(
    alloc: Global,
    held: &mut HeldAnswer,
    now: u64,
    buffer: &mut [u8],
    written: &mut usize,
) -> TransferOutcome
    ensures { HandsOut now held.old held.new result written.new buffer.old buffer.new }
{
    let mut out = Vec::new(alloc);
    let Ok(is_message) = held.next(alloc, now, &mut out) else {
        *written = 0;
        return TransferOutcome::Usual(Outcome::NoMemory);
    };
    if !is_message {
        *written = 0;
        return TransferOutcome::NoMore;
    }
    give_response(out.as_slice(), buffer, written)
}

/// Has a handle, which holds nothing, hold a transfer on, unless its last message was handed out, or one found no room.
fn keep(transfer: &mut TransferHandle, held: Box<HeldAnswer>, outcome: TransferOutcome)
    requires { transfer.old.held ≡ None }
    ensures { IsKeptBy outcome held.value transfer.new.held }
{
    match outcome {
        TransferOutcome::Usual(Outcome::Done) | TransferOutcome::Usual(Outcome::NoMemory) => {
            transfer.put(held)
        }
        _ => {}
    }
}

/// Gives the memory of what a handle holds back. It holds nothing then.
pub fn free(alloc: Global, transfer: &mut TransferHandle)
    ensures { transfer.new.held ≡ None }
{
    drop(mem::replace(transfer, TransferHandle::empty(alloc)));
}
