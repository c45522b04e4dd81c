//! Runs in which memory is refused to one line of a transcript.

use crate::streams::{Capture, Feed, Portion};
use crate::transcript::{LineEnd, Transcript};
use alloc_failures::Scarcity;
use std::alloc::{AllocError, Global};
use std::io;
use std::io::Read;

/// How many rooms are tried before a line has to be served.
const ATTEMPTS: usize = 800;

/// How many octets more each room has.
const STEP: usize = 16;

/// Octets: the room that the program has before the line, and after it.
const PLENTY: usize = 60_000;

/// Octets: room for what a run writes.
const WRITING: usize = 32_768;

/// Gives a line by each read. When it gives a certain one only so much memory is left, until it gives the next.
#[derive(Drop)]
struct ScarceFeed<'d> {
    feed: Feed<'d>,
    line: usize,
    room: usize,
    scarce: &'d mut Scarcity,
}

impl Read for ScarceFeed<'_> {
    fn read(&mut self, buf: &mut [u8]) -> io::Result<usize> {
        if self.feed.reads == self.line {
            self.scarce.leave(self.room);
        } else if self.feed.reads == self.line.saturating_add(1) {
            self.scarce.leave(PLENTY);
        }
        self.feed.read(buf)
    }
}

/// Refuses memory to each line in turn, with no room for its growths and then with more each time, until the line is served.
/// A line to which memory is refused has to be answered by that, and the lines after it as if it hadn't been there. Tells
/// what differs first, if anything does.
pub fn try_refusals(alloc: Global, transcript: &Transcript) -> Result<Option<String>, AllocError> {
    let mut scarce = Scarcity::new(alloc)?;
    let mut start = LineEnd {
        read: 0,
        written: 0,
    };
    for (i, end) in transcript.line_ends.iter().enumerate() {
        if end.written > start.written {
            let told = try_line(alloc, &mut scarce, transcript, i, start, end.read)?;
            if let Some(told) = told {
                let line = i.saturating_add(1);
                return Ok(Some(format!(in alloc; "memory is refused to line {line}: {told}")?));
            }
        }
        start = *end;
    }
    Ok(None)
}

/// Refuses memory to a line, which begins where the one before it ended.
fn try_line(
    alloc: Global,
    scarce: &mut Scarcity,
    transcript: &Transcript,
    number: usize,
    start: LineEnd,
    end: usize,
) -> Result<Option<String>, AllocError> {
    let line = part(transcript.input.as_slice(), start.read, end);
    let wanted = answers_without(alloc, transcript, start, end, refusal_of(line))?;
    match refusals_of(alloc, scarce, transcript, number, wanted.as_slice())? {
        Some(count) if (count > 0) == takes_memory(line) => Ok(None),
        Some(count) => Ok(Some(format!(in alloc; "{count} refusals were seen")?)),
        None => Ok(Some(format!(in alloc; "another answer came")?)),
    }
}

/// How a line is answered to which memory is refused.
fn refusal_of(line: &[u8]) -> &'static [u8] {
    if line.starts_with(b"key") || line.starts_with(b"secure") {
        b"refused Memory\n"
    } else {
        b"error Memory\n"
    }
}

/// Whether a line takes memory: all do but one that lists the zone's own owners, if their names are short.
fn takes_memory(line: &[u8]) -> bool {
    !line.starts_with(b"circle")
}

/// What the program writes without a line, and in its place how it is refused.
fn answers_without(
    alloc: Global,
    transcript: &Transcript,
    start: LineEnd,
    end: usize,
    refusal: &[u8],
) -> Result<Vec<u8>, AllocError> {
    let input = transcript.input.as_slice();
    let mut others = Vec::from_slice(alloc, part(input, 0, start.read))?;
    others.extend_from_slice(part(input, end, input.len()))?;
    let mut feed = Feed {
        text: others.as_slice(),
        portion: Portion::Line,
        fails: false,
        reads: 0,
    };
    let mut output = Capture::with_room(alloc, WRITING)?;
    let mut fault = Capture::new(alloc, usize::MAX);
    let args = transcript.args.as_slice();
    zone_store::program::run(alloc, args, &mut feed, &mut output, &mut fault);
    let written = output.got.as_slice();
    let mut answers = Vec::from_slice(alloc, part(written, 0, start.written))?;
    answers.extend_from_slice(refusal)?;
    answers.extend_from_slice(part(written, start.written, written.len()))?;
    Ok(answers)
}

/// How often memory is refused to a line before it is served; none if a run ended otherwise.
fn refusals_of(
    alloc: Global,
    scarce: &mut Scarcity,
    transcript: &Transcript,
    line: usize,
    wanted: &[u8],
) -> Result<Option<usize>, AllocError> {
    let mut output = Capture::with_room(alloc, WRITING)?;
    scarce.begin(3 * ATTEMPTS)?;
    let refusals = try_rooms(alloc, scarce, transcript, line, wanted, &mut output);
    scarce.end();
    Ok(refusals)
}

fn try_rooms(
    alloc: Global,
    scarce: &mut Scarcity,
    transcript: &Transcript,
    line: usize,
    wanted: &[u8],
    output: &mut Capture,
) -> Option<usize> {
    for refusals in 0..ATTEMPTS {
        output.got.clear();
        scarce.leave(PLENTY);
        let room = refusals.saturating_mul(STEP);
        let status = run_in_room(alloc, scarce, transcript, line, room, output);
        if status == 0 && output.got == transcript.output {
            return Some(refusals);
        }
        if status != 0 || output.got.as_slice() != wanted {
            return None;
        }
    }
    None
}

/// Runs a transcript with only so much room for a line, and answers its status.
fn run_in_room(
    alloc: Global,
    scarce: &mut Scarcity,
    transcript: &Transcript,
    line: usize,
    room: usize,
    output: &mut Capture,
) -> u8 {
    let mut feed = ScarceFeed {
        feed: Feed {
            text: transcript.input.as_slice(),
            portion: Portion::Line,
            fails: false,
            reads: 0,
        },
        line,
        room,
        scarce,
    };
    let mut fault = Capture::new(alloc, usize::MAX);
    zone_store::program::run(
        alloc,
        transcript.args.as_slice(),
        &mut feed,
        output,
        &mut fault,
    )
}

/// The octets between two places.
fn part(octets: &[u8], start: usize, end: usize) -> &[u8] {
    octets.get(start..end).unwrap_or(b"")
}
