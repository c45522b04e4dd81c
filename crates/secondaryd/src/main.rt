//! `secondaryd ORIGIN [--keys FILE] [--zone FILE MOMENT]`: leads the secondary of a zone (RFC 1034 section 4.3.5). It opens no socket, reads no
//! clock and writes no file: another program does, and tells it on standard input what happened, and when; it says on standard output what is to
//! be done.
//!
//! The zone of `--zone` is held from the beginning, and was the primary's at the moment behind its file; questions are signed with the first key
//! of the file of `--keys`. Moments are in seconds since 1970. All numbers have their high octet first. What happened comes in frames of a kind of
//! one octet, a moment in eight, a length in four and so many octets:
//!
//! - `a`: a question may go out with the identifier that two octets are;
//! - `m`: the octets are the next message of the answer;
//! - `f`: nothing comes of the question: there is no connection, or it ended;
//! - `n`: the octets came as a NOTIFY (RFC 1996);
//! - `t`: nothing but that time passed, by which a zone may expire.
//!
//! To each it answers with frames of a kind, a length in four octets and so many octets, of which the last is `d`:
//!
//! - `q`: the octets are to be sent to the primary over TCP, behind their length;
//! - `z`: the octets are the text of the zone file that is held from now on; `k`: what is held is the primary's version now;
//! - `r`: the octets answer the NOTIFY; `x`: the zone has expired, and isn't to be served any more;
//! - `e`: the answer is over, and the connection can be closed; `l`: the octets are a line for a log;
//! - `d`: a question is due from the moment on that eight octets are.
#![tactic(auto)]

ghost use Rattle.std.specs.Prelude.{◌≤◌};

mod channel;
mod events;
mod files;
mod following;
mod frames;
mod serving;
mod starting;
mod version;

use host_texts::{arguments, tell};
use serving::serve;
use starting::{Wanted, begin, wanted_by};
use std::io;
use std::process::ExitCode;

const USAGE: &[u8] = b"usage: secondaryd ORIGIN [--keys FILE] [--zone FILE MOMENT]\n";

fn main(rt: HostRuntime) -> ExitCode {
    let mut fault = rt.stderr();
    let Ok(args) = arguments(&rt) else {
        return ExitCode::from(tell(&mut fault, b"out of memory\n"));
    };
    let status = match wanted_by(args.as_slice()) {
        Some(wanted) => run(&rt, &wanted),
        None => tell(&mut fault, USAGE),
    };
    ExitCode::from(status)
}

/// Leads the secondary, and gives the status of the program: 0 at the end of the input, and 2 where it can't begin, or a read or a write fails.
fn run(rt: &HostRuntime, wanted: &Wanted<'_>) -> u8
    ensures { result ≤ 2 }
{
    let mut fault = rt.stderr();
    let Some(mut following) = begin(rt, wanted, &mut fault) else {
        return 2;
    };
    let (mut input, mut output) = (rt.reader(), io::writer(rt));
    match serve(rt.alloc(), &mut following, &mut input, &mut output) {
        Ok(()) => 0,
        Err(_) => tell(
            &mut fault,
            b"reading or writing failed, or there was no memory\n",
        ),
    }
}
