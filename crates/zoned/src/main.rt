//! `zoned [--check] [--limits] [--keys FILE [--update-rules FILE --journals FOLDER]] [ZONE..] [--transfers ZONE..] [--signed ZONE..]`: answers the frames of messages on standard input
//! from zone files, up to the end of the input, on standard output. It opens no socket: another program connects one to its streams.
//!
//! A ZONE is `FILE`, whose origin is the owner of its first SOA, or `ORIGIN=FILE`; two of one origin are refused. With
//! `--limits` each query comes after the limit of its answer. The zones behind `--transfers` are sent whole to whoever
//! asks for them (AXFR, RFC 5936), those behind `--signed` to who signs with a key of the file of `--keys` (TSIG, RFC 8945), and the others to
//! nobody. With keys, what is answered to a signed message is signed. With `--check` the program ends once the zones are loaded, and writes their
//! origins.
//!
//! With `--update-rules` updates (RFC 2136) are taken of those who sign with a key and whom a rule of that file permits it. Each that changes a zone is
//! in its journal, a file of the folder of `--journals`, before it is served, and served before it is answered. What the journal has is replayed over the
//! zone when the program starts.
#![tactic(auto)]

ghost use Rattle.std.specs.Prelude.{◌≤◌};

mod journals;
mod keyed;
mod replaying;
mod reporting;
mod rules;
mod serving;
mod updating;
mod wanted;
mod zones;

use host_texts::{arguments, tell};
use keyed::serve_by_keys;
use serving::serve;
use std::alloc::Global;
use std::io;
use std::io::Write;
use std::process::ExitCode;
use updating::serve_with_updates;
use wanted::{Wanted, wanted_by};
use zone_database::Zone;
use zones::{load_zones, policies};

const USAGE: &[u8] =
    b"usage: zoned [--check] [--limits] [--keys FILE [--update-rules FILE --journals FOLDER]] [ZONE..] [--transfers ZONE..] [--signed ZONE..], a ZONE is FILE or ORIGIN=FILE\n";

fn main(rt: HostRuntime) -> ExitCode {
    let mut fault = rt.stderr();
    let Ok(args) = arguments(&rt) else {
        return ExitCode::from(tell(&mut fault, b"out of memory\n"));
    };
    let status = match wanted_by(rt.alloc(), args.as_slice()) {
        Ok(Some(wanted)) => run(&rt, rt.alloc(), &wanted),
        Ok(None) => tell(&mut fault, USAGE),
        Err(_) => tell(&mut fault, b"out of memory\n"),
    };
    ExitCode::from(status)
}

/// Loads the zones and serves them, and gives the status of the program: 0 at the end of the input, and 2 where the zones can't be
/// loaded, or a read or a write fails.
fn run(rt: &HostRuntime, alloc: Global, wanted: &Wanted<'_>) -> u8
    ensures { result ≤ 2 }
{
    let mut fault = rt.stderr();
    let Some(zones) = load_zones(rt, alloc, wanted.zones.as_slice(), &mut fault) else {
        return 2;
    };
    let Ok(policies) = policies(alloc, wanted.zones.as_slice()) else {
        return tell(&mut fault, b"out of memory\n");
    };
    let (mut input, mut output) = (rt.reader(), io::writer(rt));
    if wanted.is_check {
        return match write_origins(&mut output, zones.as_slice()) {
            Ok(()) => 0,
            Err(_) => tell(&mut fault, b"write failed\n"),
        };
    }
    match wanted.keys {
        Some(file) => match wanted.updates {
            Some(updates) => serve_with_updates(
                rt,
                alloc,
                file,
                updates,
                zones,
                policies.as_slice(),
                wanted.mode,
                &mut input,
                &mut output,
                &mut fault,
            ),
            None => serve_by_keys(
                rt,
                alloc,
                file,
                zones,
                policies.as_slice(),
                wanted.mode,
                &mut input,
                &mut output,
                &mut fault,
            ),
        },
        None => serve(
            alloc,
            zones.as_slice(),
            policies.as_slice(),
            wanted.mode,
            &mut input,
            &mut output,
            &mut fault,
        ),
    }
}

/// Writes the origins of zones, a line each.
fn write_origins<W: Write>(output: &mut W, zones: &[Zone]) -> io::Result<()> {
    for zone in zones {
        write!(output, "{}\n", zone.origin)?;
    }
    output.flush()
}
