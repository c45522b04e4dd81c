//! `zonectl ORIGIN`: keeps a zone in memory, and answers the commands on its standard input.
#![tactic(auto)]

use std::alloc::AllocError;
use std::io::Write;
use std::process::ExitCode;
use std::{env, io};

fn main(rt: HostRuntime) -> ExitCode {
    let alloc = rt.alloc();
    let args = match env::args(&rt) {
        Ok(words) => words.skip(1).collect::<Vec<String>>(alloc),
        // Words that are no text are wrong arguments, as no words are.
        Err(e) if e.kind() == io::ErrorKind::InvalidData => Ok(Vec::new(alloc)),
        Err(_) => Err(AllocError),
    };
    let Ok(args) = args else {
        let _ = rt.stderr().write_all(b"out of memory\n");
        return ExitCode::from(2);
    };
    let (mut input, mut output, mut fault) = (rt.reader(), io::writer(&rt), rt.stderr());
    ExitCode::from(zonectl_session::run(alloc, &args, &mut input, &mut output, &mut fault))
}
