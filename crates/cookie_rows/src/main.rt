//! Makes and checks cookies, and finds and puts options, as rows of text describe; reports which rows have another answer. Each line of
//! standard input names a file of rows in the current directory, `data`.
//!
//! A row is `CALL => ANSWER`; a line without `=>` is a comment, and spaces within answers are passed over. Octets are written in hex, none as
//! `-`, and moments as seconds since 1970. The calls:
//!
//! - `siphash KEY TEXT` makes a code: its octets, the first one first;
//! - `make SECRET CLIENT ADDRESS MOMENT` makes a cookie;
//! - `check CURRENT PREVIOUS COOKIE ADDRESS MOMENT` checks one: `malformed`, `alone`, `invalid` or `valid`;
//! - `changed CURRENT COOKIE ADDRESS MOMENT` checks each cookie in which one bit of the octets is another one: how many are valid;
//! - `option CODE MESSAGE` finds the value of an option in the OPT record of a message, or `none`;
//! - `put CODE VALUE MESSAGE` puts an option into the OPT record with which a message ends, or `none`.
#![tactic(auto)]

mod calls;

use calls::CookieCaller;
use compared_rows::report_files;
use std::io;

fn main(rt: HostRuntime) -> io::Result<()> {
    report_files::<CookieCaller>(&rt)
}
