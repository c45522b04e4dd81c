//! Asks zones questions, and passes messages to servers of zones; reports which of them have another response than the one
//! given below them. Each line of standard input names a file of rows in the current directory, `data`.
//!
//! A file is written like this:
//!
//! ```text
//! # A line that begins with # is a comment, as is an empty one.
//! $ server
//! $ zone example. nsec
//! > example. 3600 SOA ns.example. host.example. 1 7200 600 86400 300
//! $ secure
//! = q.example. A 1
//! ;; NXDomain aa
//! ;; AUTHORITY
//! example. 300 IN SOA ns.example. host.example. 2 7200 600 86400 300
//! ? udp=1232 q.example. A rd edns=1232 do
//! ;; ->>HEADER<<- opcode: QUERY, status: NXDOMAIN, id: 1
//! ;; flags: qr aa rd; QUERY: 1, ANSWER: 0, AUTHORITY: 1, ADDITIONAL: 1
//! ```
//!
//! `$ server` begins a server without zones, `$ zone` adds a zone of an origin, which denies by `nsec` or by `nsec3` where one of
//! these follows; behind `nsec3` may stand the algorithm, the salt in hex, the iterations, and then `optout`. `>` is followed by a
//! record that goes into it, and `$ secure` signs it at the moment 0. `$ denials` makes one zone of the last two: the last one with the
//! NSEC3 sets of the one before it, by which it denies. `$ policy` is followed by who may transfer the first zone, `Deny`, `AllowAll`
//! or `AllowSigned`; the next one by who may transfer the second; and so on.
//!
//! `=` asks the last zone a question: a name, a type, a class by its number, `dnssec` where the query asks for DNSSEC, and behind that
//! `at` and a moment, if it isn't asked at the moment 0. Below it stands what the zone says, by its sections: the code, and `aa` of an
//! authoritative one; `;; GLUE` are the records of the additional section that have to go, and `;; LEFT` is followed by the name at
//! which a chain of aliases left the zone.
//!
//! `%` asks the same with no memory left, and then with a little more each time, until there is a response, so that growths are
//! refused in turn: each time before, the answer was that memory is refused. Below it stands that response.
//!
//! `?` is followed by `tcp` or `udp=` and the limit of the way, and then by a query: by a name, a type and words for what else it
//! has (`id=`, `opcode=`, `class=`, `rd`, `ad`, `cd`, `edns=` and the size, `version=`, `do`), or by `hex` and its octets. `<` is
//! followed by `stream` or `limits` and the octets of frames in hex. Below stand the responses in the words of `dig`, one space
//! for each tab, but for the data, which stand as in lines of zones; or `;; no response`.
//!
//! Sections without records are left out.
#![tactic(auto)]

mod message_text;
mod queries;
mod questions;
mod response_text;
mod rows;
mod zones;

use std::fs;

fn main(rt: HostRuntime) -> anyhow::Result<()> {
    for file in rt.lines(rt.alloc()) {
        let file = file?;
        let text = fs::read_to_string(&rt, file.as_str())?;
        let report = rows::report(rt.alloc(), text.as_str())?;
        println!(rt; "{file}: {report}")?;
    }
    Ok(())
}
