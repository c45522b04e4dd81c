//! Rows: calls and the answers that are wanted.

use crate::run::Runner;
use crate::state::State;
use line_text::TextError;
use std::alloc::{AllocError, Global};

/// Makes the calls of all rows, one after the other. The report counts the rows, and has a line for each with another answer.
pub fn report(alloc: Global, runner: &mut Runner, text: &str) -> Result<String, AllocError> {
    let mut state = Box::new(alloc, State::new(alloc))?;
    let mut faults = String::new(alloc);
    let (rows, wrong) = make_rows(runner, &mut state, text, &mut faults)?;
    format!(in alloc; "{rows} rows, {wrong} wrong{faults}")
}

/// Makes the calls of all rows: how many rows there are, and how many have another answer.
fn make_rows(
    runner: &mut Runner,
    state: &mut State,
    text: &str,
    faults: &mut String,
) -> Result<(usize, usize), AllocError> {
    let (mut rows, mut wrong) = (0usize, 0usize);
    for row in text.lines() {
        if let Some((call, wanted)) = row.split_once(" => ") {
            rows = rows.saturating_add(1);
            if !is_row_right(runner, state, call, wanted, faults)? {
                wrong = wrong.saturating_add(1);
            }
        }
    }
    Ok((rows, wrong))
}

/// Makes the calls of a row, as often as it says: whether all answers are those that are wanted.
fn is_row_right(
    runner: &mut Runner,
    state: &mut State,
    row: &str,
    wanted: &str,
    faults: &mut String,
) -> Result<bool, AllocError> {
    let Some((times, calls)) = split_times(row) else {
        return is_right(runner, state, row, wanted, faults);
    };
    for number in 0..times {
        let calls = numbered(runner.alloc, calls, number)?;
        let wanted = numbered(runner.alloc, wanted, number)?;
        if !are_right(runner, state, calls.as_str(), wanted.as_str(), faults)? {
            return Ok(false);
        }
    }
    Ok(true)
}

/// Splits `N times: CALLS`.
fn split_times(row: &str) -> Option<(u64, &str)> {
    let (times, calls) = row.split_once(" times: ")?;
    Some((times.parse::<u64>().ok()?, calls))
}

/// A text with a number in place of each `#`.
fn numbered(alloc: Global, text: &str, number: u64) -> Result<String, AllocError> {
    let digits = format!(in alloc; "{number}")?;
    text.replace(alloc, "#", digits.as_str())
}

/// Makes calls one after the other, up to the first that has another answer.
fn are_right(
    runner: &mut Runner,
    state: &mut State,
    calls: &str,
    wanted: &str,
    faults: &mut String,
) -> Result<bool, AllocError> {
    for (call, wanted) in calls.split(" then ").zip(wanted.split(" then ")) {
        if !is_right(runner, state, call, wanted, faults)? {
            return Ok(false);
        }
    }
    Ok(true)
}

/// Makes the call of a row: whether its answer is the one that is wanted. Else a line is added to the faults.
fn is_right(
    runner: &mut Runner,
    state: &mut State,
    call: &str,
    wanted: &str,
    faults: &mut String,
) -> Result<bool, AllocError> {
    let got = answer(runner, state, call)?;
    if got == wanted {
        return Ok(true);
    }
    write_fault(faults, call, got, wanted)?;
    Ok(false)
}

/// Adds a line that tells of a wrong answer.
fn write_fault(faults: &mut String, call: &str, got: &str, wanted: &str) -> Result<(), AllocError> {
    write!(faults, "\n  WRONG {call} => {got}, and not {wanted}")
}

/// The answer to a row.
fn answer<'r>(runner: &'r mut Runner, state: &mut State, row: &str) -> Result<&'r str, AllocError> {
    match runner.run(state, row) {
        Ok(()) => Ok(runner.answer()),
        Err(TextError::BadText) => Ok("a row that can't be read"),
        Err(TextError::Memory) => Err(AllocError),
    }
}
