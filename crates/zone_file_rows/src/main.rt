//! Reads texts of zone files that lines of text describe, and reports which of them are read differently. Each line of standard
//! input names a file of such lines, rows, in the current directory, `data`.
//!
//! A row is `TEXT => ANSWER`; a line without `=>` is a comment. In a text `{10}` is the octet 10, and `{97x300}` is the octet
//! 97 three hundred times. In the file `words` a text is a call and a word; in `zones`, `failing`, `printed` and `types` it is an
//! origin and a zone file, in `loading` and `chains` a call, an origin and a zone file, in `digests` an algorithm, an
//! origin and a zone file, and in `publications` a moment, an origin and a zone file. Texts and zone files are read whole, and octet by octet too.
#![tactic(auto)]

mod chains;
mod digests;
mod entries;
mod loading;
mod octets;
mod pieces;
mod plain_hash;
mod printed;
mod publications;
mod rows;
mod words;
mod zone;

use rows::Kind;
use std::{fs, io};

fn main(rt: HostRuntime) -> io::Result<()> {
    for file in rt.lines(rt.alloc()) {
        let file = file?;
        let text = fs::read_to_string(&rt, file.as_str())?;
        let report = rows::report(rt.alloc(), Kind::of_file(file.as_str()), text.as_str())?;
        println!(rt; "{file}: {report}")?;
    }
    Ok(())
}
