//! Makes MACs, checks requests with a TSIG and signs responses, signs requests and checks their responses, as rows of text describe; reports
//! which rows have another answer. Each line of standard input names a file of rows in the current directory, `data`.
//!
//! A row is `CALL => ANSWER`; a line without `=>` is a comment, and spaces within answers are passed over. Octets are written in hex, none as
//! `-`, and moments as seconds since 1970. The calls:
//!
//! - `mac ALGORITHM KEY TEXT` makes a MAC;
//! - `key NAME ALGORITHM SECRET` adds a key to those that the rows below it are checked with: how many there are;
//! - `place MESSAGE` looks for the TSIG record of a message: its offset, `misplaced`, or `absent`;
//! - `check MOMENT REQUEST` checks the TSIG of a request: `unsigned`, `malformed`, the error, or `signed`; and where there is a key whose MAC
//!   it is, that key, the time, the fudge and the original identifier, and the request without its TSIG;
//! - `changed MOMENT REQUEST` checks each request in which one bit of the octets is another one: how many are found signed;
//! - `fronts MOMENT REQUEST` checks each proper front of the octets: how many are found signed;
//! - `respond MOMENT LIMIT REQUEST MESSAGE ..` signs the messages of the response to a request: their octets, within the limit each;
//! - `refuse MOMENT REQUEST` writes the response to a request whose TSIG is refused;
//! - `ask KEY MOMENT FUDGE REQUEST` signs a request with the key of this number: its MAC, and its octets;
//! - `answers KEY MOMENT MAC MESSAGE ..` checks the messages of the response to a request of this MAC: for each `signed` and the octets without
//!   its TSIG, `unsigned`, `refused` with the error and the other data, `refused-unsigned` with the error, or what is wrong with it; and then
//!   `complete` where the last one that counts is signed, or `incomplete`;
//! - `scarce CALL` makes the call with no memory left, and then with a little more each time: whether memory was refused, and what the
//!   answer was then.
#![tactic(auto)]

mod asking;
mod calls;
mod checking;
mod keys;
mod responding;

use calls::TsigCaller;
use compared_rows::report_files;
use std::io;

fn main(rt: HostRuntime) -> io::Result<()> {
    report_files::<TsigCaller>(&rt)
}
