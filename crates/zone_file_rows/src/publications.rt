//! What is found of the zones that records of zone files make before they are published.

use crate::loading::loaded;
use crate::octets::octets_of;
use crate::zone::{error_line, read};
use alloc_failures::until_given;
use std::alloc::{AllocError, Global};
use std::fmt::Write;
use zone_builder::Loaded;
use zone_publication::{Finding, Period, check};

/// How soon is soon, in seconds.
const SOON: u32 = 100;

/// The answer to a row, which is a moment in seconds, an origin and a zone file: what is found of the zone at that moment, a warning
/// behind `warning:`, or `nothing`; behind `refused, then` where memory was refused before.
pub fn answer(alloc: Global, row: &str) -> Result<String, AllocError> {
    let (moment, rest) = row.split_once(' ').unwrap_or((row, ""));
    let (origin, text) = rest.split_once(' ').unwrap_or((rest, ""));
    let text = octets_of(alloc, text)?;
    let period = Period {
        moment: moment.parse::<u32>().unwrap_or(0),
        soon: SOON,
    };
    match read(alloc, origin, text.as_slice()) {
        Ok(records) => match loaded(alloc, origin, records.as_slice()) {
            Ok(loaded) => found_answer(alloc, period, &loaded),
            Err(fault) => format!(in alloc; "no zone: {fault}"),
        },
        Err(error) => error_line(alloc, &error),
    }
}

/// What is found of a zone, with a little more memory each time.
fn found_answer(alloc: Global, period: Period, loaded: &Loaded) -> Result<String, AllocError> {
    match until_given(alloc, || found(alloc, period, loaded))? {
        None => format!(in alloc; "refused"),
        Some((0, found)) => told(alloc, "", found.as_slice()),
        Some((_, found)) => told(alloc, "refused, then ", found.as_slice()),
    }
}

/// What is found of a zone; none if memory was refused.
fn found(alloc: Global, period: Period, loaded: &Loaded) -> Option<Vec<Finding>> {
    check(alloc, &loaded.records, &loaded.origin, period).ok()
}

fn told(alloc: Global, before: &str, found: &[Finding]) -> Result<String, AllocError> {
    if found.is_empty() {
        return format!(in alloc; "{before}nothing");
    }
    let mut line = format!(in alloc; "{before}")?;
    let mut sign = "";
    for finding in found {
        let kind = if finding.what.is_warning() {
            "warning: "
        } else {
            ""
        };
        write!(line, "{sign}{kind}{finding}")?;
        sign = "; ";
    }
    Ok(line)
}
