//! Writes the questions of secondaries, takes the answers of primaries, and asks a server with keys for its zones and to update them, as rows of
//! text describe; reports which rows have another answer. Each line of standard input names a file of rows in the current directory, `data`.
//!
//! A row is `CALL => ANSWER`; a line without `=>` is a comment, and spaces within answers are passed over. Octets are written in hex. A question
//! is `soa`, `changes SERIAL` or `zone`. The calls:
//!
//! - `query ID NAME QUESTION` writes a question: its octets;
//! - `held NAME TTL TYPE DATA` adds a record to those that are held: how many there are;
//! - `answer ID NAME QUESTION MESSAGE ..` takes the messages of the answer to a question: how far it has come behind each, or what is wrong with
//!   it, which ends the row; and then what it says, the records of the zone in lines of a file or the serial alone;
//! - `keys TEXT` gives a server the keys of a file, and it lets nobody have or change a zone then: how many keys, or the fault; `zone NAME TEXT`
//!   gives it a zone; `|` ends the lines of texts;
//! - `allow NAME` lets anybody have a zone, and `allow NAME to KEY` those who have a key;
//! - `request MOMENT WAY MESSAGE` sends it a message, by `udp` or `tcp`: `the zone` where its messages begin, the octets of another response,
//!   `as any server` for what it answers without keys, or `nothing`;
//! - `rule ORIGIN grant|deny KEY NAME TYPE ..` adds a rule of a zone: those who have the key may change, or may not, the sets of the name and of all
//!   below it; of all types but SOA and NS where none is named;
//! - `update MOMENT ROOM MESSAGE` sends it an update, with room for so many octets of the response: the octets of that behind the origin of the zone
//!   that was updated, or behind `refused`, `unchanged` or `too long`; or `no update`;
//! - `plan MOMENT MESSAGE` has it plan one, and tells the same; `commit` puts the zone that was planned last in its place: `done`, `overtaken`, or
//!   `nothing is planned`;
//! - `prepare MOMENT NAME MESSAGE` has it prepare one where the zone of a name is signed by one key: what `plan` tells, or how many signatures are to
//!   be made, or `unsigned` where none can be, before the octets of the response; `finish` puts signatures in, so that what was prepared last is what
//!   was planned last: `signed`, or why it isn't, or `nothing is prepared`;
//! - `expire NAME` has a zone expire;
//! - `records NAME` tells the records of a zone.
#![tactic(auto)]

mod access;
mod answers;
mod calls;
mod signed;
mod updates;

use calls::TransferCaller;
use compared_rows::report_files;
use std::io;

fn main(rt: HostRuntime) -> io::Result<()> {
    report_files::<TransferCaller>(&rt)
}
