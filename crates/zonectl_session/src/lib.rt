//! The program `zonectl`: carries out the command of each line, and writes an answer to each. Reading lines, recognizing
//! commands and writing answers is done by `zonectl_commands`, printing records by `line_text`, and its zone is that of
//! `zone_in_memory`; its demonstration signer does no cryptography.
#![tactic(auto)]

ghost use Rattle.std.specs.Prelude.{◌≡◌, ◌≢◌, ◌≤◌, ◌<◌, ℕ, length, map, if◌then◌else◌, IfOk, IsErrOf, string_bytes};
ghost use Rattle.zone_proto.specs.Names.{Name as NameLabels};
ghost use Rattle.zonectl_session.specs.Sessions.{first_session, IsOnlyWord, IsServed};

mod circle;
mod demo_signer;
pub mod laws;
mod replies;
mod session;
mod signing;

pub use demo_signer::DemoSigner;
use session::{Served, empty_zone};
use std::alloc::Global;
use std::io::{Read, Write};
use zone_proto::{Name, ProtoError};
pub use zone_sha1::Sha1Hash;
use zonectl_commands::{Stop, serve};

/// Why the program ends before its input does.
enum Fault {
    /// The words after its name aren't one name.
    Usage,
    /// Lines weren't served to their end.
    Stopped(Stop),
}

/// Runs the program on the words after its name: keeps a zone in memory, carries out each line of `input`, and
/// writes the answers to `output`.
///
/// `args` is one word, the zone's origin. A line is a command, blank, or a comment that begins with `#`; any
/// other line is answered by `bad line N`, counted from 1, and passed over. The answers to lines that were read
/// together are written together: those that wait are written in one piece before `input` is read again and at its
/// end, and as soon as they have 4,096 octets or more.
///
/// # Status
/// It is 0, or 1 after a bad line: then `input` was read to its end, and what was written is the answers to its
/// lines, one after the other, from a zone without records on. It is 2 after an error.
///
/// # Errors
/// One line on `fault` says why the program ends: the words aren't one name, the first memory is refused, or a read or a
/// write failed. When a read fails, the answers to all lines before it are written; after a write that failed nothing
/// more is. Memory that is refused later on ends nothing: it makes the answer of its line `error Memory`, and leaves the
/// zone as it was. Where it is the text of an answer that finds no memory, which only one of more than 4,096 octets can
/// meet, the answers before it are written and nothing of it, and the program ends as after a failed write.
pub fn run<R: Read, W: Write, E: Write>(
    alloc: Global,
    args: &[String],
    input: &mut R,
    output: &mut W,
    fault: &mut E,
) -> u8
    ensures status { result ≤ 2 }
    ensures usage { length args.now ≢ 1 → result ≡ 2 }
    ensures served { result < 2
        → IsServed (map string_bytes args.now) (R.remaining input.old) (R.remaining input.new)
        (W.contents output.old) (W.contents output.new) result }
{
    match serve_zone(alloc, args, input, output) {
        Ok(true) => 0,
        Ok(false) => 1,
        Err(why) => {
            let _ = fault.write_all(reason(why));
            2
        }
    }
}

/// The line that says why the program ends.
fn reason(why: Fault) -> &'static [u8] {
    match why {
        Fault::Usage => b"usage: zonectl ORIGIN\n",
        Fault::Stopped(Stop::Memory) => b"out of memory\n",
        Fault::Stopped(Stop::Read) => b"read failed\n",
        Fault::Stopped(Stop::Write) => b"write failed\n",
    }
}

/// Serves all lines from a zone without records on, and says whether each was good.
fn serve_zone<R: Read, W: Write>(
    alloc: Global,
    args: &[String],
    input: &mut R,
    output: &mut W,
) -> Result<bool, Fault>
    ensures usage { length args.now ≢ 1 → IsErrOf result Fault.Usage }
    ensures served { IfOk result (λ good.
        IsServed (map string_bytes args.now) (R.remaining input.old) (R.remaining input.new)
        (W.contents output.old) (W.contents output.new) (if good then 0 else 1)) }
{
    let mut served = make_zone(alloc, args)?;
    match serve(alloc, &mut served, input, output) {
        Ok(good) => Ok(good),
        Err(stop) => Err(Fault::Stopped(stop)),
    }
}

/// Makes the zone without records, whose origin is the one word.
fn make_zone(alloc: Global, args: &[String]) -> Result<Served, Fault>
    ensures usage { length args.now ≢ 1 → IsErrOf result Fault.Usage }
    ensures made { IfOk result
        (λ served. (origin : NameLabels) × IsOnlyWord (map string_bytes args.now) origin
        × (served ≡ first_session origin)) }
{
    let [origin] = args else {
        return Err(Fault::Usage);
    };
    match Name::parse(alloc, origin.as_str()) {
        Ok(origin) => Ok(Served {
            zone: empty_zone(origin, None),
            moment: 0,
        }),
        Err(ProtoError::Memory) => Err(Fault::Stopped(Stop::Memory)),
        Err(_) => Err(Fault::Usage),
    }
}
