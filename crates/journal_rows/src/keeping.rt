//! Steps kept for secondaries.

use crate::calls::Case;
use crate::transfers::newest_of;
use kept_steps::KeptSteps;
use line_text::{TextError, Words};
use std::alloc::Global;

/// Begins to keep steps, which have so many records at most.
pub fn keep_answer(alloc: Global, case: &mut Case, text: &str) -> Result<String, TextError> {
    let mut words = Words::new(text.as_bytes());
    let most = words.take_u32()?;
    words.end()?;
    case.journal.kept = KeptSteps::new(alloc, most);
    Ok(format!(in alloc; "begun")?)
}

/// How many of the kept steps a secondary lacks that holds the version of a serial.
pub fn kept_answer(alloc: Global, case: &Case, text: &str) -> Result<String, TextError> {
    let mut words = Words::new(text.as_bytes());
    let held = words.take_u32()?;
    words.end()?;
    let newest = newest_of(case)?;
    match case.journal.kept.steps_from(held, newest) {
        Some(steps) => Ok(format!(in alloc; "steps: {}", steps.len())?),
        None => Ok(format!(in alloc; "none")?),
    }
}
