//! `zone_sign MODE FILE [--origin NAME] --from N --until N [--jitter N] [--key-ttl N] [--cds] [--zonemd | --digest] [--nsec3 SALT ITERATIONS [--opt-out]]
//! [--old FILE --again N [--wrong FILE]] --key FILE..`: writes what has to be signed in a zone file, and puts the signatures into it, without reading a private key.
//!
//! MODE is `plan`, which writes a frame for each signature: the number of its key, from 0, in one octet, a length in four octets, and
//! so many octets, which are to be signed (RFC 4034 section 3.1.8.1); a frame without octets comes last. `sign` does the same, then
//! reads the signatures until the end of its input, each preceded by its length in two octets, and writes the signed zone. `ds` writes
//! the DS records of the keys. With `--old`, signatures of that earlier version of the signed zone stay if they are of the same records
//! and hold from the first moment on for `--again` seconds, except for those in the file of `--wrong`, each preceded by its length in
//! two octets; `standing` writes what stays: how many octets a signature is made of, in four octets, these octets, its length in two,
//! and the signature; four octets that are 0 come last. `signatures` writes the same of all signatures of a signed zone, for which
//! FILE alone is needed. Moments are in seconds since 1970. Signatures expire up to `--jitter` seconds before the last moment,
//! those at one name together; `--key-ttl` is the TTL of the records of keys, otherwise 3600; with `--cds` the zone has CDS and
//! CDNSKEY records (RFC 7344).
#![tactic(auto)]

ghost use Rattle.std.specs.Prelude.{◌≤◌};

mod digesting;
mod digests;
mod keeping;
mod keys;
mod reading;
mod signatures;
mod signing;
mod wanted;

use host_texts::{arguments, tell};
use std::process::ExitCode;
use wanted::{Mode, Wanted, wanted_by};

const USAGE: &[u8] =
    b"usage: zone_sign plan|sign|standing|signatures|ds FILE [--origin NAME] --from N --until N [--jitter N] [--key-ttl N] [--cds] [--zonemd | --digest] [--nsec3 SALT ITERATIONS [--opt-out]] [--old FILE --again N [--wrong FILE]] --key FILE..\n";

fn main(rt: HostRuntime) -> ExitCode {
    let mut fault = rt.stderr();
    let Ok(args) = arguments(&rt) else {
        return ExitCode::from(tell(&mut fault, b"out of memory\n"));
    };
    let status = match wanted_by(rt.alloc(), args.as_slice()) {
        Ok(Some(wanted)) => run(&rt, &wanted),
        Ok(None) => tell(&mut fault, USAGE),
        Err(_) => tell(&mut fault, b"out of memory\n"),
    };
    ExitCode::from(status)
}

/// Does what is wanted, and gives the exit status of the program: 0, or 1 if it fails.
fn run(rt: &HostRuntime, wanted: &Wanted<'_>) -> u8
    ensures { result ≤ 1 }
{
    let mut fault = rt.stderr();
    let done = match wanted.mode {
        Mode::Ds => digests::write_digests(rt, wanted, &mut fault),
        Mode::Signatures => signatures::write_signatures(rt, wanted, &mut fault),
        Mode::Plan | Mode::Sign | Mode::Standing => signing::sign(rt, wanted, &mut fault),
    };
    if done.is_some() { 0 } else { 1 }
}
