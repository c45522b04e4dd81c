//! Lines that tell what of files is wrong, or isn't taken as it is.
ghost use Rattle.file_calls.specs.Loading.{IsReported};

use crate::outcome::FileOutcome;
use call_handles::write_cut;
use std::alloc::AllocError;
use std::fmt::Display;
use zone_builder::{LoadFault, LoadWarning};
use zone_scanner::Place;
use zone_texts::{FaultLines, Reading, Sources, ToldLine};

/// Appends the lines of the faults of files to a text.
pub(crate) fn tell_faults(reading: &Reading, told: &mut String) -> Result<(), AllocError> {
    let lines = FaultLines { reading, hint: "" };
    write!(told, "{lines}")
}

/// Appends the line of what keeps records from being a zone to a text.
pub(crate) fn tell_fault(
    sources: &Sources,
    fault: &LoadFault,
    told: &mut String,
) -> Result<(), AllocError> {
    tell_at(sources, fault.place(), fault, told)
}

/// Appends the lines of warnings to a text.
pub(crate) fn tell_warnings(
    sources: &Sources,
    warnings: &[LoadWarning],
    told: &mut String,
) -> Result<(), AllocError> {
    for warning in warnings {
        tell_at(sources, warning.place(), warning, told)?;
    }
    Ok(())
}

/// Appends the line of something at a place of the files to a text, or of the first file where the place isn't known.
fn tell_at<T: Display>(
    sources: &Sources,
    place: Option<Place>,
    what: &T,
    told: &mut String,
) -> Result<(), AllocError> {
    let line = ToldLine {
        sources,
        place,
        told: what,
    };
    write!(told, "{line}\n")
}

/// Writes what is told into the room, as much of it as the room takes, and gives how many octets that is. It is told where the call is
/// done, and where the files make no zone.
pub(crate) fn tell(outcome: FileOutcome, text: &[u8], buffer: &mut [u8]) -> usize
    ensures { IsReported outcome result buffer.old buffer.new }
{
    match outcome {
        FileOutcome::Done | FileOutcome::BadText => write_cut(text, buffer),
        _ => 0,
    }
}
