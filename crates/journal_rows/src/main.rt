//! Keeps journals of zones, and replays them whole, cut off and changed, from the first version or a later one, and sends steps to secondaries
//! (RFC 1995), as rows of text describe; reports which rows have another answer. Each line of standard input names a file of rows in the current
//! directory, `data`.
//!
//! A row is `CALL => ANSWER`; a line without `=>` is a comment, and spaces within answers are passed over. Records are words as they are
//! printed, without their class. The calls:
//!
//! - `origin NAME` begins a zone without records, of this name; `add RECORD` inserts a record into it: whether it was taken; `drop NAME TYPE` removes
//!   a set: whether it was there;
//! - `journal` begins the journal of the zone, as it is, and `version` puts the step to the zone as it is now behind it: `put`, or the fault;
//! - `replay` replays the journal over the version that it was begun over: `same` if answers show the zone as it is so, else `other`; and then,
//!   each after a semicolon, the records of that version that went (`-`) and came (`+`); or the fault;
//! - `replay-here` replays it over the zone as it is now;
//! - `cuts PLACE` replays what the journal has behind the version at a place, from 0 on, over that version, cut off behind each of its octets in
//!   turn, and `changed-octets` the journal with each octet changed in turn: the versions that this leads to, by their places, each told where it
//!   isn't the one before, or `none` where no version is as that;
//! - `frame HEX` puts octets in a frame behind the journal: `put`;
//! - `scarce-replay` replays it with no memory left, and then with a little more each time: whether memory was refused, and the answer then;
//! - `changes SERIAL LIMIT` answers a secondary that holds the version of this serial, in messages of so many octets at most: by steps, in how
//!   many messages, and whether it has the last version then, `same`, or `other`; or by the `SOA`, or the `whole zone`;
//! - `condensed SERIAL LIMIT` does so by one step in place of those: and then, each after a semicolon, the records that it deletes (`-`) and adds (`+`);
//!   or `none`, where no steps answer;
//! - `keep COUNT` keeps the steps to versions from here on, of so many records at most, and `kept SERIAL` tells how many of them a secondary
//!   lacks that holds the version of this serial, or `none`.
#![tactic(auto)]

mod calls;
mod changes;
mod journal;
mod keeping;
mod replays;
mod transfers;

use calls::Case;
use compared_rows::report_files;
use std::io;

fn main(rt: HostRuntime) -> io::Result<()> {
    report_files::<Case>(&rt)
}
