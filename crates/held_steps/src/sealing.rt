//! Messages that go out, signed if the request was.
ghost use Rattle.std.specs.Prelude.{◌≡◌, OnErr, OnOk, length};
ghost use Rattle.transfer_messages.specs.Seals.{goes_out_whole, sealing_behind_whole};
ghost use Rattle.step_answers.specs.Answers.{texts_of};
ghost use Rattle.held_steps.specs.Sending.{room_for, GoesOnByTexts};

use message_tsig::tsig_size;
use std::alloc::{AllocError, Global};
use transfer_messages::{Sealing, seal};

/// Puts the first of some messages in place of the octets of `out`, signed, and takes it out; says whether there is one. Fails only for lack
/// of memory, and then the messages are as they were.
#[tactic(auto, using(crate::proofs::Going::went, crate::proofs::Going::none_left))]
pub(crate) fn next_text(
    alloc: Global,
    texts: &mut Vec<Vec<u8>>,
    sealing: &mut Option<Sealing>,
    now: u64,
    out: &mut Vec<u8>,
) -> Result<bool, AllocError>
    ensures { GoesOnByTexts now sealing.old sealing.new (texts_of texts.old.items)
        (texts_of texts.new.items) out.new.items result }
{
    out.clear();
    let Some(first) = texts.first() else {
        return Ok(false);
    };
    out.extend_from_slice(first.as_slice())?;
    seal_whole(alloc, sealing, now, out)?;
    drop(texts.remove(0));
    Ok(true)
}

/// Signs a message of a response, if the response is signed, and never cuts it: it has left room for the TSIG.
#[tactic(auto, using(crate::proofs::Sealed::sealed_whole, crate::proofs::Sealed::behind_whole))]
fn seal_whole(
    alloc: Global,
    sealing: &mut Option<Sealing>,
    now: u64,
    message: &mut Vec<u8>,
) -> Result<(), AllocError>
    ensures sealed { OnOk result
        (message.new.items ≡ goes_out_whole sealing.old now message.old.items) }
    ensures next { OnOk result
        (sealing.new ≡ sealing_behind_whole sealing.old now message.old.items) }
    ensures same { OnErr result (sealing.new ≡ sealing.old) }
{
    let limit = room_for(sealing, message.as_slice());
    seal(alloc, sealing, now, limit, message)
}

/// How many octets a message has with its TSIG, if the response is signed.
fn room_for(sealing: &Option<Sealing>, message: &[u8]) -> usize
    ensures { result ≡ room_for sealing.now message.now }
{
    match sealing {
        Some(sealing) => message.len() + tsig_size(&sealing.key),
        None => message.len(),
    }
}
