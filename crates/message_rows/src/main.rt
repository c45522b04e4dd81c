//! Reads messages that rows of text give in hex, and writes responses that they describe; reports which of them are read or
//! written differently. Each line of standard input names a file of rows in the current directory, `data`.
//!
//! A row is `CALL => ANSWER`; a line without `=>` is a comment, and spaces within hex and answers are passed over. The calls:
//!
//! - `query HEX` reads a query, and `message HEX` a whole message: what was read, or why it was refused;
//! - `data TYPE HEX` reads the data of a type;
//! - `fronts query HEX` and `fronts message HEX` read each proper front of the octets: how many were read;
//! - `refusals query HEX` and `refusals message HEX` read with no memory left, and then with a little more each time: whether
//!   memory was refused, and whether the octets were read then;
//! - `write RESPONSE` writes a response: its octets in hex, or why it was not written; `length RESPONSE` tells how many they are;
//! - `limits RESPONSE` writes it at each limit from 12 octets on, below the one that it names, and reads each message that was
//!   written: from which limit on how many records each section has, and whether TC is set;
//! - `scarce RESPONSE` writes it with no memory left, and then with a little more each time: whether memory was refused, and
//!   whether the response was written then.
//!
//! A response is `LIMIT CODE SIZE FLAG; HEX; SET; SET ..`: the limit in octets, the response code, how many octets the server
//! takes, `aa` or `-`, the octets of the query, and the sets. A set is `SECTION RECORD | RECORD & SIGNATURE | SIGNATURE`, and all
//! of it has the TTL of its first record. A record is `NAME TTL TYPE DATA`, the data of NSEC, NSEC3, NSEC3PARAM, DNSKEY and RRSIG
//! as one word of hex, and those of TYPE65280 as a count of octets 0.
#![tactic(auto)]

mod calls;
mod limits;
mod meant;
mod reading;
mod sets;
mod text;
mod writing;

use calls::MessageCaller;
use compared_rows::report_files;
use std::io;

fn main(rt: HostRuntime) -> io::Result<()> {
    report_files::<MessageCaller>(&rt)
}
