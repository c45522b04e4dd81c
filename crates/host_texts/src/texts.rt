//! The texts of files.

use std::alloc::{AllocError, Global};
use std::fs;
use std::io::{ErrorKind, Read};
use zone_texts::{Texts, name_beside};

/// The files of the file system. Of those alone that are files the text is given: what comes through a pipe can't be read twice.
#[derive(Drop)]
pub struct HostTexts<'r> {
    pub rt: &'r HostRuntime,
}

impl Texts for HostTexts<'_> {
    fn name(&self, alloc: Global, file: &str, word: &str) -> Result<String, AllocError> {
        name_beside(alloc, file, word)
    }

    fn text(&mut self, alloc: Global, name: &str) -> Result<Vec<u8>, ErrorKind> {
        match fs::metadata(self.rt, name) {
            Ok(found) if found.is_file() => {}
            Ok(found) if found.is_dir() => return Err(ErrorKind::IsADirectory),
            Ok(_) => return Err(ErrorKind::NotSeekable),
            Err(e) => return Err(e.kind()),
        }
        let mut text = Vec::new(alloc);
        match fs::open(self.rt, name) {
            Ok(mut input) => match input.read_to_end(&mut text) {
                Ok(_) => Ok(text),
                Err(e) => Err(e.kind()),
            },
            Err(e) => Err(e.kind()),
        }
    }
}
