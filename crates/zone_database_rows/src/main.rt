//! Makes the calls of `zone_database` that `ningkraet` offers to C, as rows of text describe them, and reports which of them
//! end differently or leave something else. Each line of standard input names a file of rows in the current directory, `data`.
//!
//! A row is `HANDLE CALL => ANSWER`; a line without `=>` is a comment, and spaces within answers are passed over. There are two
//! handles, `one` and `two`, and both hold nothing where a file begins. The calls:
//!
//! - `new` and `free`; `copy` has the other handle hold the same zones, and `move` puts what is taken out of the handle into the
//!   other;
//! - `load ORIGIN TEXT` and `add ORIGIN TEXT`, of the text of a zone file, in which `|` ends a line;
//! - `drop ORIGIN`, `prepare ORIGIN` and `serial ORIGIN`;
//! - `answer TRANSPORT LIMIT HEX` of the octets of a message.
//!
//! An answer begins with the code of the call, as `include/ningkraet.h` numbers it: 0 for `free`, which has none, and for `move`
//! 0, or 2 where nothing is held. Behind it stands, for `serial`, the number in the place that the call was handed, where 999 stood
//! before; and for `load`, `add` and `answer` the count that it wrote, and the room up to the last octet that it changed: lines of
//! text, or octets in hex, `-` for none.
//!
//! What comes before a row and `: ` says how it is made:
//!
//! - `room 20: ` in a room of so many octets, else it has 1232;
//! - `without memory: ` where every growth is refused;
//! - `after refusals: ` with no memory left, and then with a little more each time, until memory isn't refused any longer. Its
//!   answer begins with `refused, then` where it was before.
#![tactic(auto)]

mod call;
mod handles;
mod left;

use compared_rows::report_files;
use handles::Handles;
use std::io;

fn main(rt: HostRuntime) -> io::Result<()> {
    report_files::<Handles>(&rt)
}
