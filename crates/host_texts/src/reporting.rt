//! Lines that tell what is wrong.
ghost use Rattle.std.specs.Prelude.{◌≡◌, None};

use std::fmt::Display;
use std::io::{ErrorKind, Write};
use zone_scanner::Place;
use zone_texts::{FaultLines, Reading, Sources, ToldLine};

/// Tells why a program ends, and gives the status for it.
pub fn tell<E: Write>(fault: &mut E, why: &[u8]) -> u8
    ensures { result ≡ 2 }
{
    let _ = fault.write_all(why);
    2
}

/// Tells why a file can't be read, and gives the status for it.
pub fn tell_unread<E: Write>(fault: &mut E, file: &str, why: ErrorKind) -> u8
    ensures { result ≡ 2 }
{
    let _ = write!(fault, "{file}: the file can't be read: {why}\n");
    2
}

/// Tells what is wrong with a word, or with a file.
pub fn refuse<T, E: Write, W: Display>(fault: &mut E, word: &str, why: &W) -> Option<T>
    ensures { result ≡ None }
{
    let _ = write!(fault, "{word}: {why}\n");
    None
}

/// Tells why a file can't be read, as `tell_unread`.
pub fn refuse_unread<T, E: Write>(fault: &mut E, file: &str, why: ErrorKind) -> Option<T>
    ensures { result ≡ None }
{
    tell_unread(fault, file, why);
    None
}

/// Tells something of a place of the files that were read, or of the first file where the place isn't known.
pub fn tell_at<E: Write, T: Display>(
    fault: &mut E,
    sources: &Sources,
    place: Option<Place>,
    told: &T,
) {
    let line = ToldLine {
        sources,
        place,
        told,
    };
    let _ = write!(fault, "{line}\n");
}

/// Tells what is wrong at a place of the files that were read, as `tell_at`.
pub fn refuse_at<T, E: Write, W: Display>(
    fault: &mut E,
    sources: &Sources,
    place: Option<Place>,
    why: &W,
) -> Option<T>
    ensures { result ≡ None }
{
    tell_at(fault, sources, place, why);
    None
}

/// Tells the faults of the files that were read, and how many there are besides, with a hint how to see those, as `, which --all tells`.
pub fn tell_faults<E: Write>(fault: &mut E, reading: &Reading, hint: &str) {
    let lines = FaultLines { reading, hint };
    let _ = write!(fault, "{lines}");
}
