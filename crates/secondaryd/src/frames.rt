//! Frames of octets: what happened, and what is to be done.
ghost use Rattle.std.specs.Prelude.{◌≡◌, length, IfOk, OnOk};
ghost use Rattle.std.specs.Int.{w32, w64};
ghost use Rattle.std.specs.Io.KnownBytes.{Appends, Consumes};
ghost use Rattle.secondaryd.specs.Frames.{frame_text, kind_of, ReadsEvent, ReadsKind, ReadsNumber, ReadsOctet};

use input_reads::read_some;
use std::alloc::Global;
use std::io;
use std::io::{ErrorKind, Read, Write};

/// How many octets a frame has at most: more than any message.
const MOST: u32 = 131_072;

/// What kind of event happened, by the octet that says it.
#[derive(Clone, Copy, PartialEq, Eq, Debug)]
pub enum EventKind {
    /// `a`: a question may go out.
    MayAsk,
    /// `m`: a message of the answer came.
    Message,
    /// `f`: nothing comes of the question.
    Failure,
    /// `n`: octets came as a NOTIFY.
    Notification,
    /// `t`: nothing but that time passed.
    Time,
}

/// What happened.
#[derive(Drop)]
pub struct Event {
    /// Its kind.
    pub kind: EventKind,
    /// When it happened, in seconds since 1970.
    pub moment: u64,
    /// What belongs to it.
    pub octets: Vec<u8>,
}

/// The next frame of an input; none exactly where nothing is left of it. Refused if the input ends within the frame, a read fails, there is no
/// memory, or the frame is of no kind, or longer than any that is wanted.
#[tactic(auto, using(crate::proofs::FrameFacts::event_read))]
pub fn read_event<R: Read>(alloc: Global, input: &mut R) -> io::Result<Option<Event>>
    ensures { IfOk result (ReadsEvent (R.remaining input.old) (R.remaining input.new)) }
{
    let Some(kind) = read_kind(input)? else {
        return Ok(None);
    };
    let moment = read_moment(input)?;
    let count = read_count(input)?;
    let octets = read_octets(alloc, count, input)?;
    Ok(Some(Event {
        kind,
        moment,
        octets,
    }))
}

/// The kind of the next frame; none at the end of the input.
fn read_kind<R: Read>(input: &mut R) -> io::Result<Option<EventKind>>
    ensures { IfOk result (ReadsKind (R.remaining input.old) (R.remaining input.new)) }
{
    let Some(octet) = read_octet(input)? else {
        return Ok(None);
    };
    match kind_of(octet) {
        Some(kind) => Ok(Some(kind)),
        None => Err(io::Error::from(ErrorKind::InvalidData)),
    }
}

/// The kind that an octet says, if it says one.
fn kind_of(octet: u8) -> Option<EventKind>
    ensures { result ≡ kind_of octet }
{
    match octet {
        b'a' => Some(EventKind::MayAsk),
        b'm' => Some(EventKind::Message),
        b'f' => Some(EventKind::Failure),
        b'n' => Some(EventKind::Notification),
        b't' => Some(EventKind::Time),
        _ => None,
    }
}

/// The next octet; none at the end of the input.
#[tactic(auto, using(crate::proofs::FrameFacts::octet_read))]
fn read_octet<R: Read>(input: &mut R) -> io::Result<Option<u8>>
    ensures { IfOk result (ReadsOctet (R.remaining input.old) (R.remaining input.new)) }
{
    let mut octet = [0u8; 1];
    if read_some(input, &mut octet)? == 0 {
        return Ok(None);
    }
    Ok(Some(octet[0]))
}

/// The moment of a frame.
#[tactic(auto, using(crate::proofs::FrameFacts::number_read))]
fn read_moment<R: Read>(input: &mut R) -> io::Result<u64>
    ensures { IfOk result (ReadsNumber w64 8 (R.remaining input.old) (R.remaining input.new)) }
{
    let mut text = [0u8; 8];
    input.read_exact(&mut text)?;
    Ok(u64::from_be_bytes(text))
}

/// The length of a frame.
#[tactic(auto, using(crate::proofs::FrameFacts::number_read))]
fn read_count<R: Read>(input: &mut R) -> io::Result<u32>
    ensures { IfOk result (ReadsNumber w32 4 (R.remaining input.old) (R.remaining input.new)) }
{
    let mut text = [0u8; 4];
    input.read_exact(&mut text)?;
    Ok(u32::from_be_bytes(text))
}

/// So many octets.
fn read_octets<R: Read>(alloc: Global, count: u32, input: &mut R) -> io::Result<Vec<u8>>
    ensures size { IfOk result (λ octets. length octets.items ≡ count) }
    ensures octets { IfOk result (λ octets. Consumes (R.remaining input.old)
        (R.remaining input.new) octets.items) }
{
    if count > MOST {
        return Err(io::Error::from(ErrorKind::InvalidData));
    }
    let mut octets = vec![in alloc; 0u8; count as usize]?;
    input.read_exact(octets.as_mut_slice())?;
    Ok(octets)
}

/// Writes a frame. One has fewer than 2^32 octets; refused by a write that fails alone.
pub fn write_frame<W: Write>(output: &mut W, kind: u8, octets: &[u8]) -> io::Result<()>
    ensures { OnOk result (Appends (W.contents output.old) (W.contents output.new)
        (frame_text kind octets.now)) }
{
    let Ok(count) = u32::try_from(octets.len()) else {
        return Err(io::Error::from(ErrorKind::InvalidInput));
    };
    output.write_all(&[kind])?;
    output.write_all(&count.to_be_bytes())?;
    output.write_all(octets)
}
