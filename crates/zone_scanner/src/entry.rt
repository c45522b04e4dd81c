//! An entry of a text, and its words.
ghost use Rattle.std.specs.Prelude.{◌≡◌, IfOk};
ghost use Rattle.zone_scanner.specs.Steps.{word_at};

use crate::place::Place;
use smallvec::SmallVec;
use std::alloc::{AllocError, Global};
use std::marker::Model;

/// A word of an entry. Contracts see it as its place, its octets and how it stands (`WordText`).
#[derive(Debug, Drop)]
pub struct Word {
    place: Place,
    is_quoted: bool,
    is_joined: bool,
    octets: SmallVec<u8, 20>,
}

impl Model for Word {
    ghost use Rattle.zone_scanner.specs.Entries.{WordText};
    ghost use Rattle.zone_scanner.specs.Steps.{word_at};

    ghost Value = { WordText };

    ghost view = { λ w. word_at w.place w.is_quoted w.is_joined w.octets.items };
}

impl Word {
    /// A word of copies of these octets. Short ones take no memory.
    pub(crate) fn new(
        alloc: Global,
        place: Place,
        is_quoted: bool,
        is_joined: bool,
        octets: &[u8],
    ) -> Result<Word, AllocError>
        ensures { IfOk result (λ w. w ≡ word_at place is_quoted is_joined octets.now) }
    {
        let octets = SmallVec::from_slice(alloc, octets)?;
        Ok(Word {
            place,
            is_quoted,
            is_joined,
            octets,
        })
    }

    /// Where it begins: the place of its first octet, or of the quote before it.
    pub fn place(&self) -> Place
        ensures { result ≡ self.now.place }
    {
        self.place
    }

    /// Whether it is in quotes.
    pub fn is_quoted(&self) -> bool
        ensures { result ≡ self.now.quoted }
    {
        self.is_quoted
    }

    /// Whether no blank stands between it and the word before, as with `"b"` in `a="b"`.
    pub fn is_joined(&self) -> bool
        ensures { result ≡ self.now.joined }
    {
        self.is_joined
    }

    /// Its octets as they are in the text, with its escapes and without its quotes.
    pub fn octets(&self) -> &[u8]
        ensures { result.now ≡ self.now.octets }
    {
        self.octets.as_slice()
    }
}

/// An entry of a text: the words of a line, one or more. Contracts see it as its words (`EntryWords`).
#[derive(Debug, Drop)]
pub struct Entry {
    is_indented: bool,
    words: Vec<Word>,
}

impl Model for Entry {
    ghost use Rattle.zone_scanner.specs.Entries.{EntryWords};

    ghost Value = { EntryWords };

    ghost view = { λ e. record { indented = e.is_indented; words = e.words.items } };
}

impl Entry {
    /// An entry of these words.
    pub(crate) fn new(is_indented: bool, words: Vec<Word>) -> Entry
        ensures { result ≡ record { indented = is_indented; words = words.items } }
    {
        Entry { is_indented, words }
    }

    /// Whether a blank is at the beginning of its line: then its first word isn't an owner name, and the owner is that
    /// of the record before (RFC 1035 section 5.1).
    pub fn is_indented(&self) -> bool
        ensures { result ≡ self.now.indented }
    {
        self.is_indented
    }

    /// Its words in order. There is a first.
    pub fn words(&self) -> &[Word]
        ensures { result.now ≡ self.now.words }
    {
        self.words.as_slice()
    }
}
