//! What is kept of files by their names, and the names of those that are wanted besides.

use std::alloc::{AllocError, Global};
use std::collections::BTreeMap;
use std::io::ErrorKind;

/// Why a file can't be read.
#[derive(Clone, Copy, PartialEq, Eq, Debug)]
pub enum Lack {
    /// There is none of this name.
    Absent,
    /// A folder has this name.
    Folder,
    /// It is the name of a pipe or a device.
    Stream,
    /// Whoever asks may not read it.
    Denied,
    /// Another reason.
    Unreadable,
}

impl Lack {
    ghost use Rattle.std.specs.Prelude.{◌≡◌};

    /// The same, as a read says it.
    pub fn kind(self) -> ErrorKind
        ensures absent { self ≡ Lack.Absent → result ≡ ErrorKind.NotFound }
        ensures folder { self ≡ Lack.Folder → result ≡ ErrorKind.IsADirectory }
        ensures stream { self ≡ Lack.Stream → result ≡ ErrorKind.NotSeekable }
        ensures denied { self ≡ Lack.Denied → result ≡ ErrorKind.PermissionDenied }
        ensures unreadable { self ≡ Lack.Unreadable → result ≡ ErrorKind.Other }
    {
        match self {
            Lack::Absent => ErrorKind::NotFound,
            Lack::Folder => ErrorKind::IsADirectory,
            Lack::Stream => ErrorKind::NotSeekable,
            Lack::Denied => ErrorKind::PermissionDenied,
            Lack::Unreadable => ErrorKind::Other,
        }
    }
}

/// What is kept of a file.
#[derive(Drop)]
pub enum KeptFile {
    /// Its text.
    Text(Vec<u8>),
    /// It can't be read, and why.
    Lacks(Lack),
}

/// What is kept of files by their names, and the names of those that are wanted besides.
#[derive(Drop)]
pub struct KeptTexts {
    pub(crate) files: BTreeMap<String, KeptFile>,
    pub(crate) wanted: Vec<String>,
}

impl KeptTexts {
    ghost use Rattle.std.specs.Prelude.{◌≡◌, ◌==◌, not, ℕ, List, [], drop, length, map, slice_get, string_bytes, None, IfOk, OnErr, OnOk, option_copied, option_map};
    ghost use Rattle.included_texts.specs.Kept.{content_of, IsPut, IsSame, kept_of, wanted_in};

    /// No texts. Doesn't allocate.
    pub fn new(alloc: Global) -> KeptTexts
        ensures kept { (name : List ℕ) → kept_of result name ≡ None }
        ensures wanted { wanted_in result ≡ [] }
    {
        KeptTexts {
            files: BTreeMap::new(alloc),
            wanted: Vec::new(alloc),
        }
    }

    /// Keeps this of the file of a name, in place of what is kept of it. Fails only for lack of memory, and all is as it was then.
    #[tactic(auto, using(crate::proofs::Puts::put_so, crate::proofs::Puts::same_so))]
    pub fn put(&mut self, name: String, file: KeptFile) -> Result<(), AllocError>
        ensures put { OnOk result
            (IsPut (string_bytes name) (content_of file) (kept_of self.old) (kept_of self.new)) }
        ensures refused { OnErr result (IsSame (kept_of self.old) (kept_of self.new)) }
        ensures wanted { wanted_in self.new ≡ wanted_in self.old }
    {
        match self.files.insert(name, file) {
            Ok(_) => Ok(()),
            Err(_) => Err(AllocError),
        }
    }

    /// What is kept of the file of a name. Doesn't allocate.
    pub fn get(&self, name: &str) -> Option<&KeptFile>
        ensures { option_map content_of (option_copied result) ≡ kept_of self.now name.now }
    {
        self.files.get(name)
    }

    /// Whether files are wanted. Doesn't allocate.
    pub fn wants(&self) -> bool
        ensures { result ≡ not (length (wanted_in self.now) == 0) }
    {
        !self.wanted.is_empty()
    }

    /// The first name of those that are wanted. Doesn't allocate.
    pub fn first_wanted(&self) -> Option<&str>
        ensures { option_map (λ name. name.now) result ≡ slice_get (wanted_in self.now) 0 }
    {
        match self.wanted.first() {
            Some(name) => Some(name.as_str()),
            None => None,
        }
    }

    /// Takes the first name off those that are wanted, if there is one. Doesn't allocate.
    pub fn drop_wanted(&mut self)
        ensures wanted { wanted_in self.new ≡ drop 1 (wanted_in self.old) }
        ensures kept { IsSame (kept_of self.old) (kept_of self.new) }
    {
        if !self.wanted.is_empty() {
            drop(self.wanted.remove(0));
        }
    }

    /// Has these names be those that are wanted, in place of those before. Doesn't allocate.
    pub fn want(&mut self, names: Vec<String>)
        ensures wanted { wanted_in self.new ≡ map string_bytes names.items }
        ensures kept { IsSame (kept_of self.old) (kept_of self.new) }
    {
        self.wanted = names;
    }
}
