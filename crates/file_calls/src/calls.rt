//! What a program that isn't written in Rattle asks of the texts of files that it keeps: the calls of `ningkraet`.
ghost use Rattle.std.specs.Prelude.{◌≡◌, ◌⊎◌, None, Some, IfErr, IfOk, IfSome, IsNone, Err, Ok, string_bytes};
ghost use Rattle.std.specs.Str.{IsUtf8};
ghost use Rattle.included_texts.specs.Kept.{content_of, IsSame, kept_of};
ghost use Rattle.included_texts.specs.Kept as kept;
ghost use Rattle.file_calls.specs.Calls.{GivesName, HoldSame, KeepsFile, kept_in, wanted_in};
ghost use Rattle.file_calls.specs.Outcomes.{lack_of};

use crate::handle::FilesHandle;
use crate::outcome::{FileOutcome, lack_of};
use call_handles::{Handle, write_front};
use included_texts::{KeptFile, KeptTexts};
use std::alloc::Global;
use std::{mem, str};

/// Keeps the text of the file of a name, in place of what is kept of it. Refused by `BadFileName` where the name isn't UTF-8, and by
/// `NoMemory`; then all is as it was.
pub fn put(alloc: Global, files: &mut FilesHandle, name: &[u8], text: &[u8]) -> FileOutcome
    ensures { KeepsFile name.now (Ok text.now) files.old.held result files.new.held }
{
    match Vec::from_slice(alloc, text) {
        Ok(text) => keep(alloc, files, name, KeptFile::Text(text)),
        Err(_) => FileOutcome::NoMemory,
    }
}

/// Keeps of the file of a name that it can't be read, and why, by its number, in place of what is kept of it. Refused as `put` is.
pub fn lack(alloc: Global, files: &mut FilesHandle, name: &[u8], why: u32) -> FileOutcome
    ensures { KeepsFile name.now (Err (lack_of why)) files.old.held result files.new.held }
{
    keep(alloc, files, name, KeptFile::Lacks(lack_of(why)))
}

/// Keeps this of the file of a name, in place of what is kept of it.
#[tactic(auto, using(crate::proofs::Texts::named, crate::proofs::Texts::refused))]
fn keep(alloc: Global, files: &mut FilesHandle, name: &[u8], file: KeptFile) -> FileOutcome
    ensures { KeepsFile name.now (content_of file) files.old.held result files.new.held }
{
    match name_of(alloc, name) {
        Ok(name) => keep_named(alloc, files, name, file),
        Err(outcome) => outcome,
    }
}

/// The name of a file. Refused by `BadFileName` where it isn't UTF-8, and by `NoMemory`.
fn name_of(alloc: Global, name: &[u8]) -> Result<String, FileOutcome>
    ensures name { IfOk result (λ n. string_bytes n ≡ name.now) }
    ensures refusal { IfErr result (λ o. (o ≡ FileOutcome.NoMemory)
        ⊎ ((o ≡ FileOutcome.BadFileName) × (IsUtf8 name.now → ⊥))) }
{
    match str::from_utf8(name) {
        Ok(name) => match String::from_str(alloc, name) {
            Ok(name) => Ok(name),
            Err(_) => Err(FileOutcome::NoMemory),
        },
        Err(_) => Err(FileOutcome::BadFileName),
    }
}

/// Keeps this of the file of a name, in place of what is kept of it.
#[tactic(auto, using(crate::proofs::Texts::kept_held))]
fn keep_named(alloc: Global, files: &mut FilesHandle, name: String, file: KeptFile) -> FileOutcome
    ensures { KeepsFile (string_bytes name) (content_of file) files.old.held result
        files.new.held }
{
    let Some(mut texts) = held(alloc, files) else {
        return FileOutcome::NoMemory;
    };
    let outcome = put_in(&mut texts, name, file);
    files.put(texts);
    outcome
}

/// The same in texts.
#[tactic(auto, using(crate::proofs::Texts::put_same))]
fn put_in(texts: &mut KeptTexts, name: String, file: KeptFile) -> FileOutcome
    ensures { KeepsFile (string_bytes name) (content_of file) (Some texts.old) result
        (Some texts.new) }
{
    match texts.put(name, file) {
        Ok(()) => FileOutcome::Done,
        Err(_) => FileOutcome::NoMemory,
    }
}

/// Takes the texts out that a handle holds, or has none, if it is empty. Where there isn't enough memory for that, it stays empty.
#[tactic(auto, using(crate::proofs::Texts::holds_taken, crate::proofs::Texts::holds_new, crate::proofs::Texts::holds_none))]
pub(crate) fn held(alloc: Global, files: &mut FilesHandle) -> Option<Box<KeptTexts>>
    ensures held { IfSome result (λ texts. HoldSame files.old.held (Some texts.value)) }
    ensures none { IsNone result → HoldSame files.old.held files.new.held }
{
    match files.take(alloc) {
        Some(texts) => Some(texts),
        None => match Box::new(alloc, KeptTexts::new(alloc)) {
            Ok(texts) => Some(texts),
            Err(_) => None,
        },
    }
}

/// Writes the first name of those that are wanted, and takes it off them. `NoFile` says that none is. Refused by `NoRoom` where the room is
/// too short for it: how many octets it has is told, and it is wanted still.
#[tactic(auto, using(crate::proofs::Texts::gives_held, crate::proofs::Texts::gives_empty, crate::proofs::Texts::same_held, crate::proofs::Texts::same_empty))]
pub fn next(
    alloc: Global,
    files: &mut FilesHandle,
    buffer: &mut [u8],
    written: &mut usize,
) -> FileOutcome
    ensures name { GivesName (wanted_in files.old.held) result written.new buffer.old buffer.new
        (wanted_in files.new.held) }
    ensures kept { IsSame (kept_in files.old.held) (kept_in files.new.held) }
{
    match files.take(alloc) {
        Some(mut texts) => {
            let outcome = hand_out(&mut texts, buffer, written);
            files.put(texts);
            outcome
        }
        None => {
            *written = 0;
            FileOutcome::NoFile
        }
    }
}

/// The same of texts.
#[tactic(auto, using(crate::proofs::Texts::gives_none, crate::proofs::Texts::gives_one, crate::proofs::Texts::lacks_room))]
fn hand_out(texts: &mut KeptTexts, buffer: &mut [u8], written: &mut usize) -> FileOutcome
    ensures name { GivesName (kept.wanted_in texts.old) result written.new buffer.old buffer.new
        (kept.wanted_in texts.new) }
    ensures kept { IsSame (kept_of texts.old) (kept_of texts.new) }
{
    let Some(name) = texts.first_wanted() else {
        *written = 0;
        return FileOutcome::NoFile;
    };
    let name = name.as_bytes();
    *written = name.len();
    if buffer.len() < name.len() {
        return FileOutcome::NoRoom;
    }
    write_front(name, buffer);
    texts.drop_wanted();
    FileOutcome::Done
}

/// Gives the memory of what a handle holds back. It holds nothing then.
pub fn free(alloc: Global, files: &mut FilesHandle)
    ensures { files.new.held ≡ None }
{
    drop(mem::replace(files, FilesHandle::empty(alloc)));
}
