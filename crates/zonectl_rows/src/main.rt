//! Runs transcripts of `zonectl`, and reports differences. Each line of standard input names a file of transcripts in the
//! current directory, `data`; the file `pending` there names the transcripts that should still differ.
//!
//! A file of transcripts is written like this:
//!
//! ```text
//! # A line that begins with # is a comment.
//! ## the_name_of_a_transcript
//! $ zonectl example.com.
//! > lookup www.example.com. A
//! error Refused
//! > frobnicate
//! bad line 2
//! ! status 1
//! ```
//!
//! `$` is followed by the words that the program is given, `>` by a line of its input, and any other line is what it
//! writes next. A line that begins with `%>` is one of its input too, in which `%{7f}` is an octet in hex and `%{7f*3}`
//! three of them; they may be among the words as well. `! status` and `! standard error:` say how the run ends, if not
//! by status 0 and silence, and `! no last line feed` that its input ends with its last line's last octet.
//!
//! Each transcript is run on reads of any length, of seven octets and of one. It is also broken off by a read that fails
//! before and within each of its first lines, and, on reads of one line each, by a write that fails at each of its first
//! answers. In each run the answers to lines that were read together have to come in one write, unless they are long.
//!
//! One that has the line `! memory is refused to each line` is also run with no memory left while one line is carried out,
//! and then with a little more each time, until that line is served; so it is done with each line that is answered. Each
//! refusal has to be answered by `refused Memory` or `error Memory`, and the lines after it as if the line hadn't been there.
//!
//! At the end come the runs of `refused_runs.rt`, which no transcript says: those that are refused memory from their start, to
//! an answer that is longer than the program's buffers, and to several lines that one read brings.
#![tactic(auto)]

mod difference;
mod marks;
mod refused_lines;
mod refused_runs;
mod report;
mod streams;
mod transcript;
mod trial;

use report::Report;
use std::{fs, io};

fn main(rt: HostRuntime) -> io::Result<()> {
    let pending = fs::read_to_string(&rt, "pending")?;
    let mut report = Report::new(pending.as_str());
    for file in rt.lines(rt.alloc()) {
        let file = file?;
        let text = fs::read_to_string(&rt, file.as_str())?;
        println!(rt; "{file}")?;
        for (number, part) in text.split("\n## ").enumerate() {
            // What comes before the first name are comments.
            if number > 0 {
                let line = report.line(rt.alloc(), part)?;
                println!(rt; "  {line}")?;
            }
        }
    }
    println!(rt; "{report}")?;
    println!(rt; "{}", refused_runs::report(rt.alloc())?)
}
