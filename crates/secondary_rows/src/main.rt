//! Reads files of keys and of rules, writes and reads NOTIFY messages, and leads secondary zones through events, as rows of text describe; reports which
//! rows have another answer. Each line of standard input names a file of rows in the current directory, `data`.
//!
//! A row is `CALL => ANSWER`; a line without `=>` is a comment, and spaces within answers are passed over. Octets are written in hex, none as
//! `-`, and moments as seconds since 1970. The calls:
//!
//! - `keys TEXT` reads a file of keys, whose line breaks are written `\n` and `\r`: for each its name, its algorithm and its secret, or
//!   line, column and fault;
//! - `rules TEXT` reads rules of who may change what: for each the places of the words for its origin and its key, and the rule, or line, column and fault;
//! - `notify ID NAME` writes a NOTIFY, and `taken MESSAGE`, `unknown MESSAGE` and `refused MESSAGE` write the response to one;
//! - `read-notify MESSAGE` reads a NOTIFY: its identifier, its origin and its serial, or `none`; `read-response MESSAGE` reads the response to
//!   one: its identifier and its code, or `none`;
//! - `secondary EVENT ..` leads a secondary through events, and tells after each which question is due from which moment on: `new MOMENT`,
//!   `kept VERSION CONFIRMED MOMENT`, `ask MOMENT`, `notify SERIAL MOMENT` (`-` for no serial), `poll SERIAL MOMENT`, `got VERSION MOMENT`,
//!   `fail MOMENT`, `expire MOMENT` and `serves MOMENT`; a version is `SERIAL REFRESH RETRY EXPIRE`;
//! - `newer SERIAL SERIAL` compares serials: whether the first is newer;
//! - `scarce CALL` makes the call with no memory left, and then with a little more each time: whether memory was refused, and what the
//!   answer was then.
#![tactic(auto)]

mod calls;
mod keys;
mod notifies;
mod rules;
mod secondaries;

use calls::SecondaryCaller;
use compared_rows::report_files;
use std::io;

fn main(rt: HostRuntime) -> io::Result<()> {
    report_files::<SecondaryCaller>(&rt)
}
