//! Runs of the program to which memory is refused elsewhere than at one line: from the start, at a long answer, and at several
//! lines of one read.

use crate::streams::{Capture, Feed, Portion};
use alloc_failures::Scarcity;
use std::alloc::{AllocError, Global};
use std::io;
use std::io::Read;

/// How many rooms are tried before a run has to succeed.
const ATTEMPTS: usize = 4_000;

/// How many octets more each room has.
const STEP: usize = 16;

/// Makes the runs, and has a line for each.
pub fn report(alloc: Global) -> Result<String, AllocError> {
    let mut report = String::new(alloc);
    write!(report, "refused runs")?;
    write_told(
        &mut report,
        each_growth_is_refused(alloc)?,
        "each_growth_is_refused",
    )?;
    let told = memory_is_refused_to_a_long_answer(alloc)?;
    write_told(&mut report, told, "memory_is_refused_to_a_long_answer")?;
    write_told(
        &mut report,
        memory_is_refused_to_a_denial(alloc)?,
        "memory_is_refused_to_a_denial",
    )?;
    let told = memory_is_refused_to_the_text_of_a_circle(alloc)?;
    write_told(
        &mut report,
        told,
        "memory_is_refused_to_the_text_of_a_circle",
    )?;
    Ok(report)
}

/// Writes whether a run was as it should be.
fn write_told(report: &mut String, is_right: bool, name: &str) -> Result<(), AllocError> {
    write!(
        report,
        "\n  {} {name}",
        if is_right { "ok" } else { "WRONG" }
    )
}

/// The argument of a run, and what it writes.
#[derive(Drop)]
struct Run {
    args: Vec<String>,
    output: Capture,
    fault: Capture,
}

impl Run {
    fn new(alloc: Global) -> Result<Run, AllocError> {
        Ok(Run {
            args: vec![in alloc; String::from_str(alloc, "example.com.")?]?,
            output: Capture::with_room(alloc, 32_768)?,
            fault: Capture::with_room(alloc, 4_096)?,
        })
    }

    /// Runs the program on this input, and answers its status.
    fn start<R: Read>(&mut self, alloc: Global, input: &mut R) -> u8 {
        self.output.got.clear();
        self.fault.got.clear();
        let (args, output, fault) = (self.args.as_slice(), &mut self.output, &mut self.fault);
        zone_store::program::run(alloc, args, input, output, fault)
    }

    /// Runs the program in this room, and answers its status; none if the room can't be left.
    fn run_in(
        &mut self,
        alloc: Global,
        scarce: &mut Scarcity,
        room: usize,
        input: &[u8],
    ) -> Option<u8> {
        if !scarce.leave(room) {
            return None;
        }
        Some(self.start(alloc, &mut whole(input)))
    }

    fn wrote(&self, text: &[u8]) -> bool {
        self.output.got.as_slice() == text
    }

    fn complained(&self, text: &[u8]) -> bool {
        self.fault.got.as_slice() == text
    }
}

/// A feed that gives a text whole.
fn whole(text: &[u8]) -> Feed<'_> {
    Feed {
        text,
        portion: Portion::Octets(usize::MAX),
        fails: false,
        reads: 0,
    }
}

/// How often memory was refused, by where.
#[derive(Clone, Copy)]
struct Refusals {
    at_the_start: u32,
    at_the_first_line: u32,
    at_the_query: u32,
}

/// Runs the program with ever more room, until it answers: how often memory was refused where; none if a run ended
/// otherwise.
fn refusals_of_short_answers(
    alloc: Global,
    scarce: &mut Scarcity,
    run: &mut Run,
) -> Option<Refusals> {
    let mut refusals = Refusals {
        at_the_start: 0,
        at_the_first_line: 0,
        at_the_query: 0,
    };
    for i in 0..ATTEMPTS {
        let status = run.run_in(alloc, scarce, i.saturating_mul(STEP), INPUT)?;
        let starts = run.complained(b"") && status == 0;
        let both = run.wrote(b"error Memory\nerror Memory\n");
        if status == 2 && run.complained(b"out of memory\n") && run.wrote(b"") {
            refusals.at_the_start = refusals.at_the_start.saturating_add(1);
        } else if starts && (both || run.wrote(b"error Memory\nerror NXDomain\n")) {
            refusals.at_the_first_line = refusals.at_the_first_line.saturating_add(1);
        } else if starts && run.wrote(b"yes\nerror Memory\n") {
            refusals.at_the_query = refusals.at_the_query.saturating_add(1);
        } else if starts && run.wrote(ANSWERS) {
            return Some(refusals);
        } else {
            return None;
        }
    }
    None
}

/// The name has more than 32 octets, so that its copies take memory.
const INPUT: &[u8] = b"add www.names-of-more-than-32-octets.example.com. 60 A 192.0.2.1
lookup www.names-of-more-than-32-octets.example.com. A
";

const ANSWERS: &[u8] = b"yes
answer 1
www.names-of-more-than-32-octets.example.com. 60 IN A 192.0.2.1
additional 0
";

/// With ever more room: no memory for the first buffers, then none for the line, then for the query, then enough.
/// A line to which memory is refused changes nothing, so the query after it finds nothing.
fn each_growth_is_refused(alloc: Global) -> Result<bool, AllocError> {
    let mut run = Run::new(alloc)?;
    let mut scarce = Scarcity::new(alloc)?;
    scarce.begin(ATTEMPTS)?;
    let refusals = refusals_of_short_answers(alloc, &mut scarce, &mut run);
    scarce.end();
    Ok(refusals.is_some_and(|refusals| {
        refusals.at_the_start > 0 && refusals.at_the_first_line > 2 && refusals.at_the_query > 0
    }))
}

/// Three records of two thousand octets each, and a query for them.
fn long_input(alloc: Global) -> Result<Vec<u8>, AllocError> {
    let mut input = Vec::with_capacity(alloc, 16_384)?;
    for digits in [b"01", b"02", b"03"] {
        input.extend_from_slice(b"add a. 60 TXT ")?;
        for _ in 0..2_000 {
            input.extend_from_slice(digits)?;
        }
        input.push(b'\n')?;
    }
    input.extend_from_slice(b"lookup a. TXT\n")?;
    Ok(input)
}

/// Runs the program with ever more room, until it writes the long answer: how often it stopped as after a failed write.
fn refusals_of_a_long_answer(
    alloc: Global,
    scarce: &mut Scarcity,
    run: &mut Run,
    input: &[u8],
) -> Option<u32> {
    let mut stops = 0u32;
    for i in 0..ATTEMPTS {
        let room = i.saturating_mul(STEP).saturating_add(16_384);
        let status = run.run_in(alloc, scarce, room, input)?;
        if run.complained(b"write failed\n") {
            if status != 2 || !run.wrote(b"yes\nyes\nyes\n") {
                return None;
            }
            stops = stops.saturating_add(1);
        } else if run.output.got.starts_with(b"yes\nyes\nyes\nanswer 3\n") {
            return (status == 0).then_some(stops);
        }
    }
    None
}

/// An answer too long for the room that is there from the start needs memory while it is being built. Where that is
/// refused, the answers before it are written, though their lines were read together with its own, and nothing of it is.
/// The program ends as after a failed write.
fn memory_is_refused_to_a_long_answer(alloc: Global) -> Result<bool, AllocError> {
    let input = long_input(alloc)?;
    let mut run = Run::new(alloc)?;
    let mut scarce = Scarcity::new(alloc)?;
    scarce.begin(ATTEMPTS)?;
    let stops = refusals_of_a_long_answer(alloc, &mut scarce, &mut run, input.as_slice());
    scarce.end();
    Ok(stops.is_some_and(|stops| stops > 0))
}

/// Gives three texts, one by each read. When it gives the second there is only so much room left, until it gives the third.
#[derive(Drop)]
struct ScarceFeed<'i, 's> {
    room: usize,
    texts: [&'i [u8]; 3],
    given: usize,
    scarce: &'s mut Scarcity,
    is_scarce: bool,
}

impl Read for ScarceFeed<'_, '_> {
    fn read(&mut self, buf: &mut [u8]) -> io::Result<usize> {
        self.scarce.end();
        if self.given == 1 {
            let room = self.room;
            let is_scarce = self.scarce.begin(1).is_ok() && self.scarce.leave(room);
            self.is_scarce = is_scarce;
        }
        let text = self.texts.get(self.given).copied().unwrap_or(b"");
        self.given = self.given.saturating_add(1);
        whole(text).read(buf)
    }
}

/// A zone whose origin and one more name have NSEC records. That name has more than 32 octets, so that its copies take memory.
const SECURED: &[u8] = b"kind nsec
add example.com. 3600 SOA ns.example.com. host.example.com. 1 7200 600 86400 300
add names-of-more-than-32-octets.example.com. 60 A 192.0.2.1
key 7
secure 1000
";

/// A query for a denial, and two other lines, which take no memory.
const DENIED: &[u8] = b"deny z.example.com. A
lookup z.example.com. A
circle
";

const DENIED_AGAIN: &[u8] = b"deny z.example.com. A
";

const REFUSED: &[u8] = b"ok
yes
yes
ok
ok 2
error Memory
error NXDomain
circle 2
example.com.
names-of-more-than-32-octets.example.com.
proof 2
example.com. 300 IN NSEC names-of-more-than-32-octets.example.com. SOA RRSIG NSEC DNSKEY
names-of-more-than-32-octets.example.com. 300 IN NSEC example.com. A RRSIG NSEC
";

const PROVED: &[u8] = b"ok
yes
yes
ok
ok 2
proof 2
example.com. 300 IN NSEC names-of-more-than-32-octets.example.com. SOA RRSIG NSEC DNSKEY
names-of-more-than-32-octets.example.com. 300 IN NSEC example.com. A RRSIG NSEC
error NXDomain
circle 2
example.com.
names-of-more-than-32-octets.example.com.
proof 2
example.com. 300 IN NSEC names-of-more-than-32-octets.example.com. SOA RRSIG NSEC DNSKEY
names-of-more-than-32-octets.example.com. 300 IN NSEC example.com. A RRSIG NSEC
";

/// Runs the program on three texts, with ever more room while it has the second, until it writes what is wanted: how
/// often memory was refused to it; none if a run ended otherwise.
fn refusals_between(
    alloc: Global,
    run: &mut Run,
    step: usize,
    texts: [&[u8]; 3],
    refused: &[u8],
    served: &[u8],
) -> Option<usize> {
    let mut scarce = Scarcity::new(alloc).ok()?;
    for refusals in 0..ATTEMPTS {
        let mut feed = ScarceFeed {
            room: refusals.saturating_mul(step),
            texts,
            given: 0,
            scarce: &mut scarce,
            is_scarce: false,
        };
        let status = run.start(alloc, &mut feed);
        let is_served = status == 0 && run.complained(b"") && feed.is_scarce;
        if is_served && run.wrote(served) {
            return Some(refusals);
        }
        if !is_served || !run.wrote(refused) {
            return None;
        }
    }
    None
}

/// A denial to which memory is refused, at each of its growths, is answered by that. The lines after it are served, and once
/// there is memory again the same denial is proved as ever.
fn memory_is_refused_to_a_denial(alloc: Global) -> Result<bool, AllocError> {
    let mut run = Run::new(alloc)?;
    let texts = [SECURED, DENIED, DENIED_AGAIN];
    let refusals = refusals_between(alloc, &mut run, STEP, texts, REFUSED, PROVED);
    Ok(refusals.is_some_and(|refusals| refusals > 2))
}

/// The first and last labels of names whose texts have more than 8,192 octets in all.
const OWNERS: &[u8] = b"abcdefghijk";

/// A circle of their owners, and a line that doesn't allocate.
const LISTED: &[u8] = b"circle
lookup z.example.com. A
";

const LISTED_AGAIN: &[u8] = b"circle
";

/// Writes a name of three labels of 63 octets, and more above them. In texts each octet may have several.
fn write_owner(text: &mut Vec<u8>, octet: &[u8], above: u8) -> Result<(), AllocError> {
    for _ in 0..3 {
        for _ in 0..63 {
            text.extend_from_slice(octet)?;
        }
        text.push(b'.')?;
    }
    text.push(above)?;
    text.extend_from_slice(b".example.com.")
}

/// A zone of these names that is secured.
fn wide_zone(alloc: Global) -> Result<Vec<u8>, AllocError> {
    let mut input = Vec::with_capacity(alloc, 8_192)?;
    input.extend_from_slice(b"kind nsec\n")?;
    for above in OWNERS {
        input.extend_from_slice(b"add ")?;
        write_owner(&mut input, b"@", *above)?;
        input.extend_from_slice(b" 60 A 192.0.2.1\n")?;
    }
    input.extend_from_slice(b"key 7\nsecure 1000\n")?;
    Ok(input)
}

/// Writes what answers to `circle`: an octet that isn't a letter, a digit, `-`, `_` or `*` is written by its number.
fn write_circle(text: &mut Vec<u8>) -> Result<(), AllocError> {
    text.extend_from_slice(b"circle 12\nexample.com.\n")?;
    for above in OWNERS {
        write_owner(text, b"\\064", *above)?;
        text.push(b'\n')?;
    }
    Ok(())
}

/// What the program writes, where memory is refused to the first circle, or isn't.
fn wide_answers(alloc: Global, is_refused: bool) -> Result<Vec<u8>, AllocError> {
    let mut output = Vec::with_capacity(alloc, 32_768)?;
    output.extend_from_slice(b"ok\n")?;
    for _ in OWNERS {
        output.extend_from_slice(b"yes\n")?;
    }
    output.extend_from_slice(b"ok\nok 0\n")?;
    if is_refused {
        output.extend_from_slice(b"error Memory\n")?;
    } else {
        write_circle(&mut output)?;
    }
    output.extend_from_slice(b"error NXDomain\n")?;
    write_circle(&mut output)?;
    Ok(output)
}

/// A circle whose text has more octets than there is room for from the start needs memory for it. Where that is refused, the
/// answer is that alone, nothing of the list stands, and the lines after it are served.
fn memory_is_refused_to_the_text_of_a_circle(alloc: Global) -> Result<bool, AllocError> {
    let zone = wide_zone(alloc)?;
    let (refused, served) = (wide_answers(alloc, true)?, wide_answers(alloc, false)?);
    let mut run = Run::new(alloc)?;
    let texts = [zone.as_slice(), LISTED, LISTED_AGAIN];
    let (refused, served) = (refused.as_slice(), served.as_slice());
    let refusals = refusals_between(alloc, &mut run, 4_096, texts, refused, served);
    Ok(refusals.is_some_and(|refusals| refusals > 1))
}
