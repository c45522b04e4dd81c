//! Texts that are asked for by the names of their files.
ghost use Rattle.std.specs.Prelude.{◌≡◌, Option, Some, None, IfOk, string_bytes};
ghost use Rattle.zone_texts.specs.Inclusions.{Files};

use std::alloc::{AllocError, Global};
use std::io::ErrorKind;

/// Gives the texts of files. Who reads zone files with their inclusions asks it, and opens no file.
pub trait Texts {
    // What is known of the files, where it is: nothing of those of a file system.
    ghost known: { Self → Option Files } = { λ _. None };

    /// The name of the file that a word names which stands in another file. Of one file it is always the same, so that a file is known
    /// that includes itself. Its only error is want of memory.
    fn name(&self, alloc: Global, file: &str, word: &str) -> Result<String, AllocError>
        ensures { (files : Files) → known self.now ≡ Some files →
            IfOk result (λ name. string_bytes name ≡ files.beside file.now word.now) };

    /// The whole text of the file of a name, or why it can't be read: `IsADirectory` where a folder has that name, `NotSeekable` where
    /// it is that of a pipe or a device.
    fn text(&mut self, alloc: Global, name: &str) -> Result<Vec<u8>, ErrorKind>
        ensures text { (files : Files) → known self.old ≡ Some files →
            IfOk result (λ text. text.items ≡ files.text name.now) }
        ensures known { known self.new ≡ known self.old };
}
