//! Updates zones, and asks tables of rules who may change what, as rows of text describe; reports which rows have another answer. Each line of
//! standard input names a file of rows in the current directory, `data`.
//!
//! A row is `CALL => ANSWER`; a line without `=>` is a comment, and spaces within answers are passed over. Records are words as they
//! are printed, without their class. The calls:
//!
//! - `origin NAME` begins a zone without records, of this name;
//! - `record RECORD` inserts a record into it: whether it was taken;
//! - `update ENTRY; ENTRY; ..` updates it: the code of the response (RFC 2136 section 2.2), and then, each after a semicolon, the records
//!   that are taken out (`-`) and given (`+`). Each entry is `need` or `change`, and a name, a TTL, a class (`IN`, `ANY`, `NONE`, or another
//!   by its number) and a type, and then `data` and these; or `empty` for none, or `unread` for data that aren't read;
//! - `back` applies the difference of the last update backwards to the zone, which is then the one before: whether it is;
//! - `since SERIAL` tells how many versions of the zone who has the one of a serial lacks, and what they changed together, or `none`;
//! - `denials nsec|nsec3|opt-out` chooses how the zone denies, `sign` signs it by one key; `signed-update ENTRY; ..` updates it so signed, and
//!   `overtaken ENTRY; ..` prepares such an update twice before both are committed. The owners and types of the sets for which signatures are
//!   made are told, each before a semicolon, and then `made`; `signed-ask KEY ENTRY; ..` does so where the table of rules permits it to who has
//!   a key, and `signed-reply KEY HEX` of octets, with those of the response before;
//! - `scarce ENTRY; ..` makes the same update of the zone with no memory left, and then with a little more each time: whether memory was
//!   refused, and the code in the end; the zone stays as it is;
//! - `rule grant|deny KEY SCOPE NAME TYPE ..` adds a rule to a table; the scopes are `name`, `subdomain`, `own-name` and `own-subdomain`;
//! - `ask KEY ENTRY; ..` makes an update where the table of rules permits it to who has a key, `ask-unsigned ENTRY; ..` to who has none: as
//!   `update`;
//! - `reply KEY HEX` answers octets of who has a key, `reply-unsigned HEX` of who has none: the octets of the response in hex, and where the
//!   update is made what `update` tells; or `no update`. `scarce-reply KEY HEX` does the same with no memory left, and then with a little more
//!   each time: whether memory was refused, and the code in the end;
//! - `permit KEY NAME TYPE` asks whether who has a key may change the sets of a name and a type, `permit-unsigned NAME TYPE` whether who
//!   has none may;
//! - `message HEX ZONE ENTRY; ..` asks whether octets are an update of a zone with these entries, `response HEX CODE` for the octets of the
//!   response to them with a code.
#![tactic(auto)]

mod calls;
mod entries;
mod messages;
mod policy;
mod replies;
mod signing;
mod updating;
mod versions;

use calls::Case;
use compared_rows::report_files;
use std::io;

fn main(rt: HostRuntime) -> io::Result<()> {
    report_files::<Case>(&rt)
}
