//! The words of an entry that are still to be read.
ghost use Rattle.std.specs.Prelude.{◌≡◌, [], IfOk};
ghost use Rattle.record_fields.specs.Readings.{Gives};
ghost use Rattle.record_fields.specs.Fields.{Left, if_none_left, left_at, next_any_word, next_word, unquoted};

use crate::fault::{Fault, ReadError, Reason};
use std::marker::Model;
use zone_scanner::{Place, Word};

/// The words that are left of an entry. Contracts see it as `Left`.
#[derive(Drop)]
pub struct Words<'e> {
    place: Place,
    words: &'e [Word],
}

impl<'e> Model for Words<'e> {
    ghost use Rattle.record_fields.specs.Fields.{Left, left_at};

    ghost Value = { Left };

    ghost view = { λ w. left_at w.place w.words.now };
}

impl<'e> Words<'e> {
    /// The words behind a word at this place.
    pub fn new(place: Place, words: &'e [Word]) -> Words<'e>
        ensures { result ≡ left_at place words.now }
    {
        Words { place, words }
    }

    /// Takes the next word, in quotes or not. A fault if there is none.
    pub fn take_any(&mut self) -> Result<&'e Word, ReadError>
        ensures value { Gives (λ w. (w.now, self.new)) result (next_any_word self.old) }
        ensures place { IfOk result (λ w. self.new.place ≡ w.now.place) }
    {
        match self.words.split_first() {
            None => Err(self.fault(Reason::Missing)),
            Some((word, words)) => {
                self.place = word.place();
                self.words = words;
                Ok(word)
            }
        }
    }

    /// Takes the next word, which may not be in quotes. A fault if there is none.
    pub fn take(&mut self) -> Result<&'e Word, ReadError>
        ensures { Gives (λ w. (w.now, self.new)) result (next_word self.old) }
    {
        let word = self.take_any()?;
        if word.is_quoted() {
            return Err(self.fault(Reason::Quoted));
        }
        Ok(word)
    }

    /// A fault at the place of the word that was taken last.
    pub fn fault(&self, reason: Reason) -> ReadError
        ensures { result ≡ ReadError.Fault (record { place = self.now.place; reason = reason }) }
    {
        ReadError::Fault(Fault {
            place: self.place,
            reason,
        })
    }

    /// The place of the word that was taken last.
    pub fn place(&self) -> Place
        ensures { result ≡ self.now.place }
    {
        self.place
    }

    /// Takes all words that are left.
    pub fn take_rest(&mut self) -> &'e [Word]
        ensures words { result.now ≡ self.old.words }
        ensures none_left { self.new ≡ left_at self.old.place [] }
    {
        let words = self.words;
        self.words = &[];
        words
    }

    /// The words that are left.
    pub fn rest(&self) -> &'e [Word]
        ensures { result.now ≡ self.now.words }
    {
        self.words
    }

    /// Refuses an entry with words that weren't taken, by the first of them.
    pub fn end(&self) -> Result<(), ReadError>
        ensures { Gives (λ _. self.now.place) result (if_none_left self.now.place self.now.words) }
    {
        match self.words.first() {
            None => Ok(()),
            Some(word) => Err(ReadError::Fault(Fault {
                place: word.place(),
                reason: Reason::Surplus,
            })),
        }
    }
}
