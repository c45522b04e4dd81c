//! The text of a file, and those of the files that it includes, as far as they are kept.
ghost use Rattle.std.specs.Prelude.{◌≡◌, Some, IfOk, OnOk, map, string_bytes};
ghost use Rattle.std.specs.List.{list_any};
ghost use Rattle.std.specs.Str.{bytes_eq};
ghost use Rattle.included_texts.specs.Kept.{files_of, kept_of, with_wanted};

use crate::kept::{KeptFile, KeptTexts};
use std::alloc::{AllocError, Global};
use std::io::ErrorKind;
use zone_texts::{Texts, name_beside};

/// How many names are wanted at most.
const MOST_WANTED: usize = 1_000;

/// A file with its text, beside those of which texts are kept. A file that is none of them isn't found, and its name is wanted.
#[derive(Drop)]
pub struct FileTexts<'t> {
    /// The name of the file.
    pub file: &'t str,
    /// Its text.
    pub text: &'t [u8],
    /// What is kept of other files.
    pub kept: &'t KeptTexts,
    /// The names of files of which nothing is kept, each once, at most 1,000 of them.
    pub wanted: Vec<String>,
}

impl Texts for FileTexts<'_> {
    ghost known = { λ t. Some (files_of t.file.now t.text.now (kept_of t.kept.now)) };

    fn name(&self, alloc: Global, file: &str, word: &str) -> Result<String, AllocError> {
        name_beside(alloc, file, word)
    }

    fn text(&mut self, alloc: Global, name: &str) -> Result<Vec<u8>, ErrorKind> {
        if name == self.file {
            return copied(alloc, self.text);
        }
        match self.kept.get(name) {
            Some(KeptFile::Text(text)) => copied(alloc, text.as_slice()),
            Some(KeptFile::Lacks(why)) => Err(why.kind()),
            None => match want(alloc, &mut self.wanted, name) {
                Ok(()) => Err(ErrorKind::NotFound),
                Err(_) => Err(ErrorKind::OutOfMemory),
            },
        }
    }
}

/// A copy of a text.
fn copied(alloc: Global, text: &[u8]) -> Result<Vec<u8>, ErrorKind>
    ensures { IfOk result (λ copy. copy.items ≡ text.now) }
{
    match Vec::from_slice(alloc, text) {
        Ok(copy) => Ok(copy),
        Err(_) => Err(ErrorKind::OutOfMemory),
    }
}

/// Puts a name behind those that are wanted, unless it is among them, or there are as many as may be.
#[tactic(auto, using(crate::proofs::Puts::wanted_same, crate::proofs::Puts::wanted_full, crate::proofs::Puts::wanted_more))]
fn want(alloc: Global, wanted: &mut Vec<String>, name: &str) -> Result<(), AllocError>
    ensures { OnOk result (map string_bytes wanted.new.items
        ≡ with_wanted name.now (map string_bytes wanted.old.items)) }
{
    if wanted.len() >= MOST_WANTED {
        return Ok(());
    }
    if has_name(wanted.as_slice(), name) {
        return Ok(());
    }
    let name = String::from_str(alloc, name)?;
    wanted.push(name)?;
    Ok(())
}

/// Whether a name is among others.
fn has_name(names: &[String], name: &str) -> bool
    ensures { result ≡ list_any (λ n. bytes_eq (string_bytes n) name.now) names.now }
{
    names.iter().any(|other| other.as_str() == name)
}
