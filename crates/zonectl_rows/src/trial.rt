//! Runs of the program that a transcript is compared with.

use crate::difference::{Ending, first_difference};
use crate::refused_lines::try_refusals;
use crate::streams::{Capture, Feed, Portion};
use crate::transcript::Transcript;
use std::alloc::{AllocError, Global};

/// Before and within how many lines a read fails, and at how many answers a write.
const FAILURES: usize = 16;

/// The longest reads, in octets.
const WHOLE: usize = 1 << 20;

/// From how many octets on answers are written without waiting for the next read.
const WAITING_LIMIT: usize = 4_096;

/// Runs a transcript, and tells what differs first, if anything does.
pub fn try_all(alloc: Global, transcript: &Transcript) -> Result<Option<String>, AllocError> {
    for step in [WHOLE, 7, 1] {
        if let Some(told) = try_reads(alloc, transcript, step)? {
            return Ok(Some(told));
        }
    }
    if transcript.status == 2 {
        return try_silent_fault(alloc, transcript);
    }
    if let Some(told) = try_failing_reads(alloc, transcript)? {
        return Ok(Some(told));
    }
    if let Some(told) = try_failing_writes(alloc, transcript)? {
        return Ok(Some(told));
    }
    if transcript.is_refused_memory {
        return try_refusals(alloc, transcript);
    }
    Ok(None)
}

/// Runs a transcript on reads of at most `step` octets.
fn try_reads(
    alloc: Global,
    transcript: &Transcript,
    step: usize,
) -> Result<Option<String>, AllocError> {
    let feed = Feed {
        text: transcript.input.as_slice(),
        portion: Portion::Octets(step),
        fails: false,
        reads: 0,
    };
    let wanted = Ending {
        output: transcript.output.as_slice(),
        fault: transcript.fault.as_slice(),
        status: transcript.status,
    };
    match compare(alloc, transcript, feed, usize::MAX, &wanted)? {
        Some(told) if step < WHOLE => Ok(Some(format!(in alloc; "in reads of {step}: {told}")?)),
        told => Ok(told),
    }
}

/// A read fails after each of the first lines, and before the line feed of each: what the lines before it bring is
/// written, and nothing else.
fn try_failing_reads(alloc: Global, transcript: &Transcript) -> Result<Option<String>, AllocError> {
    let mut written = 0usize;
    for (i, end) in transcript.line_ends.iter().take(FAILURES).enumerate() {
        let within = (end.read.saturating_sub(1), written);
        for (read, output) in [within, (end.read, end.written)] {
            let told = try_failing_read(alloc, transcript, read, output)?;
            if let Some(told) = told {
                let line = i.saturating_add(1);
                return Ok(Some(format!(in alloc; "a read fails at line {line}: {told}")?));
            }
        }
        written = end.written;
    }
    Ok(None)
}

/// A read fails after so many octets of the input, when so many of the output are written.
fn try_failing_read(
    alloc: Global,
    transcript: &Transcript,
    read: usize,
    written: usize,
) -> Result<Option<String>, AllocError> {
    let feed = Feed {
        text: up_to(transcript.input.as_slice(), read),
        portion: Portion::Octets(WHOLE),
        fails: true,
        reads: 0,
    };
    let wanted = Ending {
        output: up_to(transcript.output.as_slice(), written),
        fault: b"read failed\n",
        status: 2,
    };
    compare(alloc, transcript, feed, usize::MAX, &wanted)
}

/// A write fails at each of the first answers: what was written before it stands, and nothing else. Each read brings one
/// line, so that each answer is a write.
fn try_failing_writes(
    alloc: Global,
    transcript: &Transcript,
) -> Result<Option<String>, AllocError> {
    let mut written = 0usize;
    let mut answers = 0usize;
    for end in transcript.line_ends.iter().take(FAILURES) {
        if end.written > written {
            let told = try_failing_write(alloc, transcript, answers, written)?;
            if let Some(told) = told {
                return Ok(Some(format!(in alloc; "a write fails after {answers}: {told}")?));
            }
            written = end.written;
            answers = answers.saturating_add(1);
        }
    }
    Ok(None)
}

/// A write fails after so many answers, when so many octets of the output are written.
fn try_failing_write(
    alloc: Global,
    transcript: &Transcript,
    answers: usize,
    written: usize,
) -> Result<Option<String>, AllocError> {
    let feed = Feed {
        text: transcript.input.as_slice(),
        portion: Portion::Line,
        fails: false,
        reads: 0,
    };
    let wanted = Ending {
        output: up_to(transcript.output.as_slice(), written),
        fault: b"write failed\n",
        status: 2,
    };
    compare(alloc, transcript, feed, answers, &wanted)
}

/// The status stands also where standard error can't be written to.
fn try_silent_fault(alloc: Global, transcript: &Transcript) -> Result<Option<String>, AllocError> {
    let mut feed = Feed {
        text: transcript.input.as_slice(),
        portion: Portion::Octets(WHOLE),
        fails: false,
        reads: 0,
    };
    let (mut output, mut fault) = (Capture::new(alloc, 0), Capture::new(alloc, 0));
    let args = transcript.args.as_slice();
    let status = zone_store::program::run(alloc, args, &mut feed, &mut output, &mut fault);
    if fault.failed && status == transcript.status {
        return Ok(None);
    }
    Ok(Some(format!(in alloc; "standard error fails: the status was {status}")?))
}

/// Runs the program, whose writes fail after so many, and tells what differs first from how it has to end.
fn compare(
    alloc: Global,
    transcript: &Transcript,
    mut feed: Feed<'_>,
    writes: usize,
    wanted: &Ending<'_>,
) -> Result<Option<String>, AllocError> {
    let (mut output, mut fault) = (Capture::new(alloc, writes), Capture::new(alloc, usize::MAX));
    let args = transcript.args.as_slice();
    let status = zone_store::program::run(alloc, args, &mut feed, &mut output, &mut fault);
    let came = Ending {
        output: output.got.as_slice(),
        fault: fault.got.as_slice(),
        status,
    };
    if let Some(difference) = first_difference(wanted, &came) {
        return Ok(Some(format!(in alloc; "{difference}")?));
    }
    let lacks_end = !transcript.input.as_slice().ends_with(b"\n");
    if output.writes > most_writes(feed.reads, output.got.len(), lacks_end) {
        return Ok(Some(format!(in alloc; "{} writes for {} reads", output.writes, feed.reads)?));
    }
    Ok(None)
}

/// How many writes a run may make that makes so many reads and writes so many octets: one before each read but the first,
/// one for each `WAITING_LIMIT` octets, and one for a last line that lacks its end.
fn most_writes(reads: usize, octets: usize, lacks_end: bool) -> usize {
    let before_reads = if lacks_end {
        reads
    } else {
        reads.saturating_sub(1)
    };
    before_reads.saturating_add(octets / WAITING_LIMIT)
}

/// The first octets.
fn up_to(octets: &[u8], count: usize) -> &[u8] {
    octets.get(..count).unwrap_or(octets)
}
