//! Answers that wait to be written.
ghost use Rattle.std.specs.Prelude.{◌≡◌, ◌<◌, ◌++◌, [], length, OnErr, OnOk};
ghost use Rattle.std.specs.Io.KnownBytes.{Appends};
ghost use Rattle.zone_server.specs.Frames.{framed};
ghost use Rattle.zone_server.specs.Serving.{Moves};
ghost use Rattle.zone_server.specs.Stopping.{MovesFront};

use crate::frames::push_framed;
use std::alloc::AllocError;
use std::io;
use std::io::{ErrorKind, Write};

/// From how many octets on answers are written while whole frames are left.
const WAITING_LIMIT: usize = 65_536;

/// Why frames aren't served to the end of an input.
#[derive(Debug, Drop)]
pub enum Stop {
    /// No memory is found.
    Memory,
    /// A read failed.
    Read(ErrorKind),
    /// A write failed.
    Write(ErrorKind),
}

/// Want of memory is `Memory`.
impl From<AllocError> for Stop {
    ghost use Rattle.zone_server.specs.declared.waiting.Stop.TheVariants.{Memory};

    ghost from_gives = { λ _ e. e ≡ Memory };

    fn from(_: AllocError) -> Stop {
        Stop::Memory
    }
}

/// Puts an answer behind its length behind those that wait, and writes these where they are many. An answer has at most 65,535
/// octets; where it has none, nothing is put there.
pub(crate) fn put_answer<W: Write>(
    octets: &[u8],
    answers: &mut Vec<u8>,
    output: &mut W,
) -> Result<(), Stop>
    requires { length octets.now < 65536 }
    ensures put { OnOk result (Moves (answers.old.items ++ framed octets.now)
        (W.contents output.old) (W.contents output.new) answers.new.items) }
    ensures front { OnErr result (MovesFront (answers.old.items ++ framed octets.now)
        (W.contents output.old) (W.contents output.new)) }
{
    push_framed(answers, octets)?;
    write_if_many(answers, output)
}

/// Writes the answers that wait, where they have as many octets as may wait.
fn write_if_many<W: Write>(answers: &mut Vec<u8>, output: &mut W) -> Result<(), Stop>
    ensures moved { OnOk result (Moves answers.old.items
        (W.contents output.old) (W.contents output.new) answers.new.items) }
    ensures front { OnErr result
        (MovesFront answers.old.items (W.contents output.old) (W.contents output.new)) }
{
    if answers.len() < WAITING_LIMIT {
        return Ok(());
    }
    write_out(answers, output)
}

/// Writes the answers that wait, if any do. Where a write fails, a front of them was written.
pub(crate) fn write_out<W: Write>(answers: &mut Vec<u8>, output: &mut W) -> Result<(), Stop>
    ensures front { OnErr result
        (MovesFront answers.old.items (W.contents output.old) (W.contents output.new)) }
    ensures none_left { OnOk result (answers.new.items ≡ []) }
    ensures written { OnOk result
        (Appends (W.contents output.old) (W.contents output.new) answers.old.items) }
{
    if answers.is_empty() {
        return Ok(());
    }
    match written(answers.as_slice(), output) {
        Ok(()) => {
            answers.clear();
            Ok(())
        }
        Err(e) => Err(Stop::Write(e.kind())),
    }
}

/// Writes octets, to where they are read. Where a write fails, a front of them was written.
fn written<W: Write>(octets: &[u8], output: &mut W) -> io::Result<()>
    ensures all { OnOk result
        (Appends (W.contents output.old) (W.contents output.new) octets.now) }
    ensures front { OnErr result
        (MovesFront octets.now (W.contents output.old) (W.contents output.new)) }
{
    write_whole(octets, output)?;
    output.flush()
}

/// Writes octets, as many at a time as the output takes, and again where a signal came first: of the `write_all` of the library it isn't known
/// what was written where it fails.
fn write_whole<W: Write>(octets: &[u8], output: &mut W) -> io::Result<()>
    ensures all { OnOk result
        (Appends (W.contents output.old) (W.contents output.new) octets.now) }
    ensures front { OnErr result
        (MovesFront octets.now (W.contents output.old) (W.contents output.new)) }
{
    let mut rest = octets;
    for _ in 0..u64::MAX {
        if rest.is_empty() {
            return Ok(());
        }
        match output.write(rest) {
            Ok(0) => return Err(io::Error::from(ErrorKind::WriteZero)),
            Ok(count) => rest = &rest[count..],
            Err(e) => {
                if e.kind() != ErrorKind::Interrupted {
                    return Err(e);
                }
            }
        }
    }
    Err(io::Error::from(ErrorKind::Interrupted))
}
