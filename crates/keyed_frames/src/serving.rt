//! Frames answered by keys over any reader and writer (RFC 1035 section 4.2.2, RFC 7766).
ghost use Rattle.std.specs.Prelude.{◌≡◌, ◌<◌, None, length, IfOk, OnErr, OnOk};
ghost use Rattle.std.specs.Io.KnownBytes.{Appends};
ghost use Rattle.zone_server.specs.Frames.{frame_of, framed_of};
ghost use Rattle.zone_database.specs.Databases.{zones_in};
ghost use Rattle.keyed_frames.specs.Serving.{AnswersByKeys, IsPlainAnswer, IsWrittenFor, Serves, TakesFrames, Writes};
ghost use Rattle.keyed_frames.specs.Stopping.{BeginsByKeys, BeginsFor, BreaksOff, Stops, StopsWithin};

use crate::clock::Clock;
use crate::sending::{send_zone, write_framed};
use held_transfers::{KeyedAnswer, TransferAccess, answer_with_keys};
use input_reads::read_some;
use std::alloc::Global;
use std::io::{ErrorKind, Read, Write};
use zone_database::ZoneDatabase;
use zone_server::{Frame, Mode, READ_OCTETS, Stop, frame_of};

/// Answers the frames of an input from the zones of a database, by keys, up to the end of the input, each at the moment that the clock tells. A
/// message without an answer has no frame in the output, and a last frame that isn't complete is ignored.
///
/// A message with a TSIG, and one that asks for a zone, is answered as `answer_with_keys` of `held_transfers` says, and any other as any server
/// answers it. A zone goes only to those whom a grant of `access` lets have it; each of its messages, of which the last one is signed too, is
/// signed as the request was (RFC 8945 section 5.3.1). Each answer is written as soon as it is made.
///
/// # Errors
/// The first cause that ends it before the input does. What was written by then is a front of the answers, in the order of the frames, which may end
/// within a message; the other answers are lost.
pub fn serve_keyed_frames<C: Clock, R: Read, W: Write>(
    alloc: Global,
    database: &ZoneDatabase,
    access: &TransferAccess,
    clock: &mut C,
    mode: Mode,
    input: &mut R,
    output: &mut W,
) -> Result<(), Stop>
    ensures served { OnOk result (Serves access.now (zones_in database.now) mode
        (R.remaining input.old) (R.remaining input.new)
        (W.contents output.old) (W.contents output.new)) }
    ensures broken_off { OnErr result (BreaksOff access.now (zones_in database.now) mode
        (R.remaining input.old) (R.remaining input.new)
        (W.contents output.old) (W.contents output.new)) }
{
    let mut chunk = vec![in alloc; 0u8; READ_OCTETS]?;
    serve_in_chunks(
        alloc,
        database,
        access,
        clock,
        mode,
        input,
        output,
        chunk.as_mut_slice(),
    )
}

/// The same by reads into a buffer.
#[tactic(auto, using(crate::proofs::ServedFrames::none_served, crate::proofs::ServedFrames::all_served))]
fn serve_in_chunks<C: Clock, R: Read, W: Write>(
    alloc: Global,
    database: &ZoneDatabase,
    access: &TransferAccess,
    clock: &mut C,
    mode: Mode,
    input: &mut R,
    output: &mut W,
    chunk: &mut [u8],
) -> Result<(), Stop>
    requires { 0 < length chunk.old }
    ensures served { OnOk result (Serves access.now (zones_in database.now) mode
        (R.remaining input.old) (R.remaining input.new)
        (W.contents output.old) (W.contents output.new)) }
    ensures broken_off { OnErr result (BreaksOff access.now (zones_in database.now) mode
        (R.remaining input.old) (R.remaining input.new)
        (W.contents output.old) (W.contents output.new)) }
{
    let mut waiting = Vec::new(alloc);
    for _ in 0..u64::MAX {
        let count = match read_some(input, chunk) {
            Ok(count) => count,
            Err(error) => return Err(Stop::Read(error.kind())),
        };
        if count == 0 {
            return Ok(());
        }
        waiting.extend_from_slice(&chunk[..count])?;
        serve_waiting(alloc, database, access, clock, mode, &mut waiting, output)?;
    }
    Err(Stop::Read(ErrorKind::Interrupted))
}

/// Answers all whole frames of what was read, which are taken away.
fn serve_waiting<C: Clock, W: Write>(
    alloc: Global,
    database: &ZoneDatabase,
    access: &TransferAccess,
    clock: &mut C,
    mode: Mode,
    waiting: &mut Vec<u8>,
    output: &mut W,
) -> Result<(), Stop>
    ensures taken { OnOk result (TakesFrames access.now (zones_in database.now) mode
        waiting.old.items waiting.new.items
        (W.contents output.old) (W.contents output.new)) }
    ensures no_more { OnOk result (frame_of mode waiting.new.items ≡ None) }
    ensures stopped { OnErr result (StopsWithin access.now (zones_in database.now) mode
        waiting.old.items (W.contents output.old) (W.contents output.new)) }
{
    let left = answer_frames(
        alloc,
        database,
        access,
        clock,
        mode,
        waiting.as_slice(),
        output,
    )?;
    // A frame that comes octet by octet isn't copied each time.
    if left.len() < waiting.len() {
        let left = Vec::from_slice(alloc, left)?;
        *waiting = left;
    }
    Ok(())
}

/// Answers all whole frames, and gives what follows these.
fn answer_frames<'o, C: Clock, W: Write>(
    alloc: Global,
    database: &ZoneDatabase,
    access: &TransferAccess,
    clock: &mut C,
    mode: Mode,
    octets: &'o [u8],
    output: &mut W,
) -> Result<&'o [u8], Stop>
    ensures taken { IfOk result (λ left. TakesFrames access.now (zones_in database.now) mode
        octets.now left.now (W.contents output.old) (W.contents output.new)) }
    ensures no_more { IfOk result (λ left. frame_of mode left.now ≡ None) }
    ensures stopped { OnErr result (StopsWithin access.now (zones_in database.now) mode
        octets.now (W.contents output.old) (W.contents output.new)) }
{
    let mut out = Vec::new(alloc);
    let mut rest = octets;
    while let Some((frame, behind)) = frame_of(mode, rest) {
        answer_keyed_frame(alloc, database, access, clock, frame, &mut out, output)?;
        rest = behind;
    }
    Ok(rest)
}

/// Writes what answers a message from the zones of a database, by keys, at the moment that the clock tells, as [`serve_keyed_frames`] does. `out` is for
/// an answer.
///
/// # Errors
/// Where it stops, a front of the answer was written.
#[tactic(auto, using(crate::proofs::Written::by_keys, crate::proofs::StoppedFrames::keys_stop, crate::proofs::StoppedFrames::none_stops))]
pub fn answer_keyed_frame<C: Clock, W: Write>(
    alloc: Global,
    database: &ZoneDatabase,
    access: &TransferAccess,
    clock: &mut C,
    frame: Frame<'_>,
    out: &mut Vec<u8>,
    output: &mut W,
) -> Result<(), Stop>
    ensures answered { OnOk result (Writes
        (AnswersByKeys access.now (zones_in database.now) (framed_of frame.entry))
        (W.contents output.old) (W.contents output.new)) }
    ensures stopped { OnErr result (Stops
        (BeginsByKeys access.now (zones_in database.now) (framed_of frame.entry))
        (W.contents output.old) (W.contents output.new)) }
{
    let now = clock.seconds();
    match answer_with_keys(
        alloc,
        database,
        access,
        now,
        frame.transport,
        frame.message,
        out,
    ) {
        Ok(answer) => write_answer(alloc, database, clock, frame, answer, out, output),
        Err(_) => Err(Stop::Memory),
    }
}

/// Writes what a message is answered with, for which these octets are there.
#[tactic(auto, using(crate::proofs::Written::by_any, crate::proofs::Written::by_nothing, crate::proofs::Written::by_response, crate::proofs::Written::by_transfer, crate::proofs::Written::stopped_any, crate::proofs::Written::stopped_response, crate::proofs::Written::stopped_transfer))]
fn write_answer<C: Clock, W: Write>(
    alloc: Global,
    database: &ZoneDatabase,
    clock: &mut C,
    frame: Frame<'_>,
    answer: KeyedAnswer,
    out: &mut Vec<u8>,
    output: &mut W,
) -> Result<(), Stop>
    ensures written { OnOk result (Writes
        (IsWrittenFor (zones_in database.now) (framed_of frame.entry) answer out.old.items)
        (W.contents output.old) (W.contents output.new)) }
    ensures stopped { OnErr result (Stops
        (BeginsFor (zones_in database.now) (framed_of frame.entry) answer out.old.items)
        (W.contents output.old) (W.contents output.new)) }
{
    match answer {
        KeyedAnswer::Unkeyed => write_plain(alloc, database, frame, out, output),
        KeyedAnswer::Nothing => Ok(()),
        KeyedAnswer::Response => write_framed(out.as_slice(), output),
        KeyedAnswer::Transfer(mut transfer) => {
            send_zone(alloc, &mut transfer, clock, out, output)
        }
    }
}

/// Writes what any server answers to a message.
#[tactic(auto, using(crate::proofs::Written::by_plain, crate::proofs::Written::stopped_plain, crate::proofs::StoppedFrames::none_stops))]
fn write_plain<W: Write>(
    alloc: Global,
    database: &ZoneDatabase,
    frame: Frame<'_>,
    out: &mut Vec<u8>,
    output: &mut W,
) -> Result<(), Stop>
    ensures written { OnOk result (Writes
        (IsPlainAnswer (zones_in database.now) (framed_of frame.entry))
        (W.contents output.old) (W.contents output.new)) }
    ensures stopped { OnErr result (Stops
        (IsPlainAnswer (zones_in database.now) (framed_of frame.entry))
        (W.contents output.old) (W.contents output.new)) }
{
    match database.answer(alloc, frame.message, frame.transport, out) {
        Ok(_) => write_framed(out.as_slice(), output),
        Err(_) => Err(Stop::Memory),
    }
}
