//! Frames answered over any reader and writer (RFC 1035 section 4.2.2, RFC 7766).
ghost use Rattle.std.specs.Prelude.{◌≡◌, ◌<◌, [], None, Ok, length, IfOk, OnErr, OnOk};
ghost use Rattle.message_reading.specs.Queries.{query_of, ReadsQuery};
ghost use Rattle.zone_server.specs.Frames.{frame_of, framed_of};
ghost use Rattle.zone_server.specs.Serving.{served_of, Answers, AnswersQuery, IsOneAnswer, Puts, Serves, TakesFrames};
ghost use Rattle.zone_server.specs.Stopping.{BeginsAnswer, BeginsQuery, BreaksOff, IsOneAnswerTo, Stops, StopsWithin};

use crate::answering::answer_read;
use crate::frames::{Frame, Mode, frame_of};
use crate::server::Server;
use crate::transfer_reply::asks_for_transfer;
use crate::transfers::answer_transfer;
use crate::waiting::{Stop, put_answer, write_out};
use input_reads::read_some;
use message_reading::{Query, ReadError, read_query};
use std::alloc::Global;
use std::io::{ErrorKind, Read, Write};
use zone_proto::{Nsec3Hash, Signer};

/// How many octets of an input are read at once.
pub const READ_OCTETS: usize = 65_536;

/// Answers the frames of an input from the zones of a server, up to the end of the input. A message without an answer has no
/// frame in the output, and a last frame that isn't complete is ignored.
///
/// Each message is answered with one, as [`answer`](crate::answer) does, except queries for a zone: AXFR over TCP (RFC 5936)
/// and IXFR (RFC 1995). If the name isn't the origin of a zone, or the class isn't IN, the code is NOTAUTH; if the zone's
/// policy isn't `AllowAll`, `Refused`; if it has no SOA, `ServFail`.
///
/// - In answer to AXFR the zone is sent in messages of up to 65,535 octets, each in a frame: the SOA, all sets in the order of
///   their keys, each with its signatures, and the SOA again (RFC 5936 section 2.2). A set is whole in a message unless no
///   message has room for it. Each message has the question (section 2.2.2), and TC is never set.
/// - In answer to IXFR the same is sent over TCP if the serial of the SOA in the query's authority section is older than the
///   zone's (RFC 1982); otherwise, and over UDP, the SOA alone (RFC 1995 section 2). Without an SOA there the code is
///   `FormErr`.
/// - If a record can't be sent, a message with `ServFail` ends the transfer (RFC 5936 section 2.2).
///
/// Frames are answered as soon as no complete one is left of what was read, all of them with one write, and before the input is
/// read again: so a client that waits for an answer gets it. If 65,536 octets or more are waiting, they are written before: so
/// at most two messages wait, and a transfer is written as it is made, from the zone's own records.
///
/// # Errors
/// The first cause that ends it before the input does. What was written by then is a front of the answers, in the order of the frames, which may end
/// within a message; the other answers are lost.
pub fn serve_frames<S: Signer, H: Nsec3Hash, R: Read, W: Write>(
    alloc: Global,
    server: &Server<'_, '_, S, H>,
    mode: Mode,
    input: &mut R,
    output: &mut W,
) -> Result<(), Stop>
    ensures served { OnOk result (Serves (served_of S.signature_of H.digest_of server.now) mode
        (R.remaining input.old) (R.remaining input.new)
        (W.contents output.old) (W.contents output.new)) }
    ensures broken_off { OnErr result
        (BreaksOff (served_of S.signature_of H.digest_of server.now) mode
        (R.remaining input.old) (R.remaining input.new)
        (W.contents output.old) (W.contents output.new)) }
{
    let mut chunk = vec![in alloc; 0u8; READ_OCTETS]?;
    serve_in_chunks(alloc, server, mode, input, output, chunk.as_mut_slice())
}

/// The same by reads into a buffer.
fn serve_in_chunks<S: Signer, H: Nsec3Hash, R: Read, W: Write>(
    alloc: Global,
    server: &Server<'_, '_, S, H>,
    mode: Mode,
    input: &mut R,
    output: &mut W,
    chunk: &mut [u8],
) -> Result<(), Stop>
    requires { 0 < length chunk.old }
    ensures served { OnOk result (Serves (served_of S.signature_of H.digest_of server.now) mode
        (R.remaining input.old) (R.remaining input.new)
        (W.contents output.old) (W.contents output.new)) }
    ensures broken_off { OnErr result
        (BreaksOff (served_of S.signature_of H.digest_of server.now) mode
        (R.remaining input.old) (R.remaining input.new)
        (W.contents output.old) (W.contents output.new)) }
{
    let mut waiting = Vec::new(alloc);
    let mut answers = Vec::new(alloc);
    for _ in 0..u64::MAX {
        let count = match read_some(input, chunk) {
            Ok(count) => count,
            Err(error) => return Err(Stop::Read(error.kind())),
        };
        if count == 0 {
            return Ok(());
        }
        waiting.extend_from_slice(&chunk[..count])?;
        serve_waiting(alloc, server, mode, &mut waiting, &mut answers, output)?;
    }
    Err(Stop::Read(ErrorKind::Interrupted))
}

/// Answers all whole frames of what was read, which are taken away, and writes the answers.
fn serve_waiting<S: Signer, H: Nsec3Hash, W: Write>(
    alloc: Global,
    server: &Server<'_, '_, S, H>,
    mode: Mode,
    waiting: &mut Vec<u8>,
    answers: &mut Vec<u8>,
    output: &mut W,
) -> Result<(), Stop>
    requires { answers.old.items ≡ [] }
    ensures taken { OnOk result (TakesFrames (served_of S.signature_of H.digest_of server.now) mode
        waiting.old.items waiting.new.items [] []
        (W.contents output.old) (W.contents output.new)) }
    ensures no_more { OnOk result (frame_of mode waiting.new.items ≡ None) }
    ensures written { OnOk result (answers.new.items ≡ []) }
    ensures stopped { OnErr result
        (StopsWithin (served_of S.signature_of H.digest_of server.now) mode
        waiting.old.items [] (W.contents output.old) (W.contents output.new)) }
{
    let left = answer_frames(alloc, server, mode, waiting.as_slice(), answers, output)?;
    if left.len() < waiting.len() {
        let left = Vec::from_slice(alloc, left)?;
        *waiting = left;
    }
    write_out(answers, output)?;
    Ok(())
}

/// Answers all whole frames, and gives what follows these. The last answers wait to be written.
fn answer_frames<'o, S: Signer, H: Nsec3Hash, W: Write>(
    alloc: Global,
    server: &Server<'_, '_, S, H>,
    mode: Mode,
    octets: &'o [u8],
    answers: &mut Vec<u8>,
    output: &mut W,
) -> Result<&'o [u8], Stop>
    ensures taken { IfOk result
        (λ left. TakesFrames (served_of S.signature_of H.digest_of server.now) mode octets.now
        left.now answers.old.items answers.new.items
        (W.contents output.old) (W.contents output.new)) }
    ensures no_more { IfOk result (λ left. frame_of mode left.now ≡ None) }
    ensures stopped { OnErr result
        (StopsWithin (served_of S.signature_of H.digest_of server.now) mode
        octets.now answers.old.items (W.contents output.old) (W.contents output.new)) }
{
    let mut out = Vec::new(alloc);
    let mut rest = octets;
    while let Some((frame, behind)) = frame_of(mode, rest) {
        answer_frame(alloc, server, frame, &mut out, answers, output)?;
        rest = behind;
    }
    Ok(rest)
}

/// Appends what answers a message to what waits, and writes this where it is much. `out` is for an answer.
fn answer_frame<S: Signer, H: Nsec3Hash, W: Write>(
    alloc: Global,
    server: &Server<'_, '_, S, H>,
    frame: Frame<'_>,
    out: &mut Vec<u8>,
    answers: &mut Vec<u8>,
    output: &mut W,
) -> Result<(), Stop>
    ensures put { OnOk result
        (Puts (Answers (served_of S.signature_of H.digest_of server.now) (framed_of frame.entry))
        answers.old.items answers.new.items
        (W.contents output.old) (W.contents output.new)) }
    ensures stopped { OnErr result
        (Stops (BeginsAnswer (served_of S.signature_of H.digest_of server.now)
        (framed_of frame.entry)) answers.old.items
        (W.contents output.old) (W.contents output.new)) }
{
    match read_query(alloc, frame.message) {
        Ok(query) => answer_query(alloc, server, frame, query, out, answers, output),
        Err(error) => answer_once(alloc, server, frame, Err(error), out, answers, output),
    }
}

/// Appends what answers a query to what waits.
fn answer_query<S: Signer, H: Nsec3Hash, W: Write>(
    alloc: Global,
    server: &Server<'_, '_, S, H>,
    frame: Frame<'_>,
    query: Query,
    out: &mut Vec<u8>,
    answers: &mut Vec<u8>,
    output: &mut W,
) -> Result<(), Stop>
    requires { query_of frame.message.now ≡ Ok query }
    ensures put { OnOk result
        (Puts (AnswersQuery (served_of S.signature_of H.digest_of server.now)
        (framed_of frame.entry) query) answers.old.items answers.new.items
        (W.contents output.old) (W.contents output.new)) }
    ensures stopped { OnErr result
        (Stops (BeginsQuery (served_of S.signature_of H.digest_of server.now)
        (framed_of frame.entry) query) answers.old.items
        (W.contents output.old) (W.contents output.new)) }
{
    if asks_for_transfer(frame.transport, &query) {
        return answer_transfer(alloc, server, frame, &query, out, answers, output);
    }
    answer_once(alloc, server, frame, Ok(query), out, answers, output)
}

/// Appends the one answer to a message to what waits.
fn answer_once<S: Signer, H: Nsec3Hash, W: Write>(
    alloc: Global,
    server: &Server<'_, '_, S, H>,
    frame: Frame<'_>,
    read: Result<Query, ReadError>,
    out: &mut Vec<u8>,
    answers: &mut Vec<u8>,
    output: &mut W,
) -> Result<(), Stop>
    requires { ReadsQuery read (query_of frame.message.now) }
    ensures answer { OnOk result
        (Puts (IsOneAnswer (served_of S.signature_of H.digest_of server.now)
        (framed_of frame.entry)) answers.old.items answers.new.items
        (W.contents output.old) (W.contents output.new)) }
    ensures read { OnOk result (query_of frame.entry.message.now ≡ read) }
    ensures stopped { OnErr result
        (Stops (IsOneAnswerTo (served_of S.signature_of H.digest_of server.now)
        (framed_of frame.entry) read) answers.old.items
        (W.contents output.old) (W.contents output.new)) }
{
    answer_read(alloc, server.zones, read, frame.transport, out)?;
    put_answer(out.as_slice(), answers, output)
}
