//! `zone_check [--all] [--print | --at MOMENT [--soon TIME] [--strict]] FILE [ORIGIN]`: reads a zone file and reports what is wrong with
//! it or its zone, or prints its records.
#![tactic(auto)]

mod checking;
mod denial;
mod digests;
mod publication;
mod reporting;
mod wanted;
mod zone;

use host_texts::{HostTexts, arguments, tell, tell_unread};
use std::alloc::Global;
use std::io::BufWriter;
use std::process::ExitCode;
use std::time::SystemTime;
use std::{fs, io};
use wanted::{Wanted, wanted_by};

const USAGE: &[u8] =
    b"usage: zone_check [--all] [--print | --at MOMENT|now [--soon TIME] [--strict]] FILE [ORIGIN]\n";

fn main(rt: HostRuntime) -> ExitCode {
    let mut fault = rt.stderr();
    let Ok(args) = arguments(&rt) else {
        return ExitCode::from(tell(&mut fault, b"out of memory\n"));
    };
    let Ok(now) = SystemTime::now(&rt) else {
        return ExitCode::from(tell(&mut fault, b"the clock can't be read\n"));
    };
    let status = match wanted_by(rt.alloc(), args.as_slice(), seconds_of(now)) {
        Some(wanted) => check_file(&rt, rt.alloc(), &wanted),
        None => tell(&mut fault, USAGE),
    };
    ExitCode::from(status)
}

/// Checks the file, and gives the status of the program.
fn check_file(rt: &HostRuntime, alloc: Global, wanted: &Wanted<'_>) -> u8 {
    let mut fault = rt.stderr();
    let mut input = match fs::open(rt, wanted.file) {
        Ok(input) => input,
        Err(e) => return tell_unread(&mut fault, wanted.file, e.kind()),
    };
    let Ok(mut output) = BufWriter::new(alloc, io::writer(rt)) else {
        return tell(&mut fault, b"out of memory\n");
    };
    let mut texts = HostTexts { rt };
    checking::check(
        alloc,
        wanted,
        &mut input,
        &mut texts,
        &mut output,
        &mut fault,
    )
}

/// A moment in seconds since 1970, modulo 2^32, as signatures have them (RFC 4034 section 3.1.5).
fn seconds_of(moment: SystemTime) -> u32 {
    match moment.duration_since(SystemTime::UNIX_EPOCH) {
        Ok(since) => (since.as_secs() % 4_294_967_296) as u32,
        Err(_) => 0,
    }
}
