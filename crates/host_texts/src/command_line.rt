//! The command line.

use std::alloc::AllocError;
use std::{env, io};

/// The words of the command line behind the name of the program; none where one of them isn't text, since such are wrong arguments, as no words
/// are. Fails only for lack of memory.
pub fn arguments(rt: &HostRuntime) -> Result<Vec<String>, AllocError> {
    let alloc = rt.alloc();
    match env::args(rt) {
        Ok(words) => words.skip(1).collect::<Vec<String>>(alloc),
        Err(e) if e.kind() == io::ErrorKind::InvalidData => Ok(Vec::new(alloc)),
        Err(_) => Err(AllocError),
    }
}
