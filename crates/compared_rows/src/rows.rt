//! Rows: calls, and the answers that are wanted.

use line_text::TextError;
use std::alloc::{AllocError, Global};
use std::{fs, io};

/// Makes the calls of the rows of a file, one after the other.
pub trait Caller: Drop {
    /// One that has made no call yet.
    fn new(alloc: Global) -> Self;

    /// Makes a call: its answer. Refused by `BadText` where the call can't be read, and by `Memory` for lack of memory.
    fn answer(&mut self, alloc: Global, call: &str) -> Result<String, TextError>;
}

/// Makes the calls of the rows of each file that a line of standard input names, and prints a report of each. A row is `CALL => ANSWER`, and
/// spaces within answers are passed over; a line without `=>` is a comment.
pub fn report_files<C: Caller>(rt: &HostRuntime) -> io::Result<()> {
    for file in rt.lines(rt.alloc()) {
        let file = file?;
        let text = fs::read_to_string(rt, file.as_str())?;
        let report = report::<C>(rt.alloc(), text.as_str())?;
        println!(rt; "{file}: {report}")?;
    }
    Ok(())
}

/// Makes the calls of all rows of a text. The report counts the rows, and has a line for each with another answer.
fn report<C: Caller>(alloc: Global, text: &str) -> Result<String, AllocError> {
    let mut caller = C::new(alloc);
    let mut faults = String::new(alloc);
    let (mut rows, mut wrong) = (0usize, 0usize);
    for row in text.lines() {
        if let Some((call, wanted)) = row.split_once(" => ") {
            rows = rows.saturating_add(1);
            let got = answer(alloc, &mut caller, call)?;
            if got.replace(alloc, " ", "")? != wanted.replace(alloc, " ", "")? {
                wrong = wrong.saturating_add(1);
                write!(faults, "\n  WRONG {call} => {got}, and not {wanted}")?;
            }
        }
    }
    format!(in alloc; "{rows} rows, {wrong} wrong{faults}")
}

/// The answer to a call, which says so where the call can't be read.
fn answer<C: Caller>(alloc: Global, caller: &mut C, call: &str) -> Result<String, AllocError> {
    match caller.answer(alloc, call) {
        Ok(text) => Ok(text),
        Err(TextError::BadText) => format!(in alloc; "a row that can't be read"),
        Err(TextError::Memory) => Err(AllocError),
    }
}

/// The answer that a call gave, empty where it can't be read; none if memory was refused to it.
pub fn unless_refused(alloc: Global, made: Result<String, TextError>) -> Option<String> {
    match made {
        Ok(text) => Some(text),
        Err(TextError::Memory) => None,
        Err(TextError::BadText) => Some(String::new(alloc)),
    }
}
