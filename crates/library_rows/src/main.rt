//! Makes calls of the library that lines of text describe, and reports which of them answer anything else. Each line of
//! standard input names a file of such lines, rows, in the current directory, `data`.
//!
//! A row is `CALL => ANSWER`; a line without `=>` is a comment. `src/forms.rt` of `library_rows_arguments` lists the calls. The rows
//! of a file share a zone, a current set, and sets that are collected for the next zone. Two forms of a row make the call
//! where growths are refused:
//!
//! - `without memory: CALL => ANSWER` makes it with no memory left, and it has to answer all the same.
//! - `after 3 refusals: CALL => ANSWER` makes it with no memory left, and then with a little more each time, until memory is
//!   no longer refused to it. It has to be refused three times or more, and each time all has to stay as it was.
//!
//! `1000 times: CALL then CALL => ANSWER then ANSWER` makes the calls so often, with each number from 0 on in place of
//! `#`, in the answers too.
//!
//! What a call is passed is read by its form into lists, one for each kind of value (`arguments.rt` of `library_rows_arguments`); so
//! a few functions read all calls. The functions that make them, here and in `library_rows_values`, take it from there, have no early
//! exit, and write what is answered as text into room that is there from the start. So a further call is a line of its form
//! and one where it is made.
#![tactic(auto)]

mod denials;
mod judgements;
mod rows;
mod run;
mod searches;
mod sets;
mod signers;
mod state;
mod texts;
mod zones;

use run::Runner;
use std::{fs, io};

fn main(rt: HostRuntime) -> io::Result<()> {
    let mut runner = Box::new(rt.alloc(), Runner::new(rt.alloc())?)?;
    for file in rt.lines(rt.alloc()) {
        let file = file?;
        let text = fs::read_to_string(&rt, file.as_str())?;
        let report = rows::report(rt.alloc(), &mut runner, text.as_str())?;
        println!(rt; "{file}: {report}")?;
    }
    Ok(())
}
