//! Frames answered over any reader and writer (RFC 1035 section 4.2.2, RFC 7766).
ghost use Rattle.std.specs.Prelude.{◌≡◌, ◌<◌, None, length, IfOk, OnErr, OnOk};
ghost use Rattle.zone_server.specs.Frames.{frame_of};
ghost use Rattle.served_frames.specs.Serving.{Serves, TakesFrames};
ghost use Rattle.served_frames.specs.Stopping.{BreaksOff, StopsWithin};

use crate::answerer::Answerer;
use input_reads::read_some;
use std::alloc::Global;
use std::io::{ErrorKind, Read, Write};
use zone_server::{Mode, READ_OCTETS, Stop, frame_of};

/// Answers the frames of an input, up to its end, each as soon as it has come and those before it are answered. A last frame that isn't complete is
/// ignored.
///
/// # Errors
/// The first cause that ends it before the input does. What was written by then is a front of the answers, in the order of the frames, which may end
/// within a message; the other answers are lost.
pub fn serve_by<A: Answerer, R: Read, W: Write>(
    alloc: Global,
    answerer: &mut A,
    mode: Mode,
    input: &mut R,
    output: &mut W,
) -> Result<(), Stop>
    ensures served { OnOk result (Serves A.answers answerer.old mode
        (R.remaining input.old) (R.remaining input.new)
        (W.contents output.old) (W.contents output.new) answerer.new) }
    ensures broken_off { OnErr result (BreaksOff A.answers A.begins answerer.old mode
        (R.remaining input.old) (R.remaining input.new)
        (W.contents output.old) (W.contents output.new) answerer.new) }
{
    let mut chunk = vec![in alloc; 0u8; READ_OCTETS]?;
    serve_in_chunks(alloc, answerer, mode, input, output, chunk.as_mut_slice())
}

/// The same by reads into a buffer.
#[tactic(auto, using(crate::proofs::Served::none_served, crate::proofs::Served::all_served))]
fn serve_in_chunks<A: Answerer, R: Read, W: Write>(
    alloc: Global,
    answerer: &mut A,
    mode: Mode,
    input: &mut R,
    output: &mut W,
    chunk: &mut [u8],
) -> Result<(), Stop>
    requires { 0 < length chunk.old }
    ensures served { OnOk result (Serves A.answers answerer.old mode
        (R.remaining input.old) (R.remaining input.new)
        (W.contents output.old) (W.contents output.new) answerer.new) }
    ensures broken_off { OnErr result (BreaksOff A.answers A.begins answerer.old mode
        (R.remaining input.old) (R.remaining input.new)
        (W.contents output.old) (W.contents output.new) answerer.new) }
{
    let mut waiting = Vec::new(alloc);
    for _ in 0..u64::MAX {
        let count = match read_some(input, chunk) {
            Ok(count) => count,
            Err(error) => return Err(Stop::Read(error.kind())),
        };
        if count == 0 {
            return Ok(());
        }
        waiting.extend_from_slice(&chunk[..count])?;
        serve_waiting(alloc, answerer, mode, &mut waiting, output)?;
    }
    Err(Stop::Read(ErrorKind::Interrupted))
}

/// Answers all whole frames of what was read, which are taken away.
fn serve_waiting<A: Answerer, W: Write>(
    alloc: Global,
    answerer: &mut A,
    mode: Mode,
    waiting: &mut Vec<u8>,
    output: &mut W,
) -> Result<(), Stop>
    ensures taken { OnOk result (TakesFrames A.answers answerer.old mode
        waiting.old.items waiting.new.items
        (W.contents output.old) (W.contents output.new) answerer.new) }
    ensures no_more { OnOk result (frame_of mode waiting.new.items ≡ None) }
    ensures stopped { OnErr result (StopsWithin A.answers A.begins answerer.old mode
        waiting.old.items (W.contents output.old) (W.contents output.new) answerer.new) }
{
    let left = answer_frames(answerer, mode, waiting.as_slice(), output)?;
    // A frame that comes octet by octet isn't copied each time.
    if left.len() < waiting.len() {
        let left = Vec::from_slice(alloc, left)?;
        *waiting = left;
    }
    Ok(())
}

/// Answers all whole frames, and gives what follows these.
fn answer_frames<'o, A: Answerer, W: Write>(
    answerer: &mut A,
    mode: Mode,
    octets: &'o [u8],
    output: &mut W,
) -> Result<&'o [u8], Stop>
    ensures taken { IfOk result (λ left. TakesFrames A.answers answerer.old mode
        octets.now left.now (W.contents output.old) (W.contents output.new) answerer.new) }
    ensures no_more { IfOk result (λ left. frame_of mode left.now ≡ None) }
    ensures stopped { OnErr result (StopsWithin A.answers A.begins answerer.old mode
        octets.now (W.contents output.old) (W.contents output.new) answerer.new) }
{
    let mut rest = octets;
    while let Some((frame, behind)) = frame_of(mode, rest) {
        answerer.answer(frame, output)?;
        rest = behind;
    }
    Ok(rest)
}
