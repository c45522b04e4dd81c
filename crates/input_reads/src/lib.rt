//! One read of an input, which a signal may have interrupted.
#![tactic(auto)]

ghost use Rattle.std.specs.Prelude.{◌≡◌, List, ℕ};
ghost use Rattle.std.specs.Io.KnownBytes.{ReadConsumes};
ghost use Rattle.std.specs.Io.{ReadsAtMost};

use std::io;
use std::io::{ErrorKind, Read};

/// Reads once into a buffer, and again where a signal came first. Returns how many octets were read, which begin the buffer; 0 only
/// at the end of the input, or for an empty buffer. Its errors are those of the read.
pub fn read_some<R: Read>(input: &mut R, buffer: &mut [u8]) -> io::Result<usize>
    ensures bound { ReadsAtMost result buffer.new }
    ensures bytes { ReadConsumes (R.remaining input.old) (R.remaining input.new) result buffer.new }
{
    for _ in 0..u64::MAX {
        match input.read(buffer) {
            Ok(count) => return Ok(count),
            Err(e) => {
                if e.kind() != ErrorKind::Interrupted {
                    return Err(e);
                }
            }
        }
    }
    Err(io::Error::from(ErrorKind::Interrupted))
}
