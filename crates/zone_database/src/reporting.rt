//! Lines that tell what of a text is wrong, or isn't taken as it is.

use crate::reading::TextFault;
use std::alloc::AllocError;
use std::fmt::Display;
use zone_builder::LoadWarning;
use zone_file::FaultText;
use zone_scanner::Place;

/// Appends the line of a fault to a text, with a label in place of a file's name: label, line, column and reason.
pub(crate) fn tell_fault(
    fault: &TextFault,
    label: &str,
    told: &mut String,
) -> Result<(), AllocError> {
    match fault {
        TextFault::Memory => told.push_str("out of memory\n"),
        TextFault::Text(fault) => write!(told, "{}\n", FaultText { file: label, fault }),
        TextFault::Zone(fault) => tell_at(label, fault.place(), fault, told),
    }
}

/// Appends the lines of warnings to a text.
pub(crate) fn tell_warnings(
    warnings: &[LoadWarning],
    label: &str,
    told: &mut String,
) -> Result<(), AllocError> {
    for warning in warnings {
        tell_at(label, warning.place(), warning, told)?;
    }
    Ok(())
}

/// Appends the line of something at a place to a text, or of the whole where the place isn't known.
fn tell_at<T: Display>(
    label: &str,
    place: Option<Place>,
    what: &T,
    told: &mut String,
) -> Result<(), AllocError> {
    match place {
        Some(place) => write!(told, "{label}:{}:{}: {what}\n", place.line, place.column),
        None => write!(told, "{label}: {what}\n"),
    }
}
