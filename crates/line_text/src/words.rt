//! The words of a line that are still to be read, and the next of them read as a number or as a flag.
ghost use Rattle.std.specs.Prelude.{◌≡◌, ◌≢◌, ◌∷◌, [], IfSome, IfNone, IfOk, IfErr, OnOk, not};
ghost use Rattle.std.specs.List.{position_or_len};
ghost use Rattle.line_text.specs.Reading.{next_flag, next_timer, next_u16, next_u32, next_u64};
ghost use Rattle.line_text.specs.Words.{is_blank, words};

use crate::error::TextError;
use crate::numbers::{read_timer, read_u16, read_u32, read_u64};
use std::marker::Model;

/// The words of a line that are still to be read. Spaces and tabs separate words.
#[derive(Drop)]
pub struct Words<'l> {
    rest: &'l [u8],
}

impl<'l> Model for Words<'l> {
    ghost use Rattle.std.specs.Prelude.{List, ℕ};
    ghost use Rattle.line_text.specs.Words.{words};

    ghost Value = { List (List ℕ) };

    ghost view = { λ w. words w.rest.now };
}

impl<'l> Words<'l> {
    /// The words of a line, none of them read.
    pub fn new(line: &'l [u8]) -> Words<'l>
        ensures { result ≡ words line.now }
    {
        Words { rest: line }
    }

    /// Takes the next word, or None at the end of the line.
    #[tactic(auto, using(crate::proofs::WordFacts::taking))]
    pub fn take(&mut self) -> Option<&'l [u8]>
        ensures word { IfSome result (λ word. self.old ≡ word.now ∷ self.new) }
        ensures end { IfNone result ((self.old ≡ []) × (self.new ≡ [])) }
    {
        let (_, from) = self.rest.split_at(blank_count(self.rest));
        let (word, rest) = from.split_at(word_length(from));
        if word.is_empty() {
            return None;
        }
        self.rest = rest;
        Some(word)
    }

    /// Takes the next word of a line that must have one. `BadText` if there is none.
    pub fn take_needed(&mut self) -> Result<&'l [u8], TextError>
        ensures ok { IfOk result (λ word. self.old ≡ word.now ∷ self.new) }
        ensures err { IfErr result (λ e. (e ≡ TextError.BadText) × (self.old ≡ [])) }
    {
        self.take().ok_or(TextError::BadText)
    }

    /// Takes the next word as a number, as [`read_u16`] reads it. `BadText` where there is no further word or it isn't
    /// that. Doesn't allocate.
    #[tactic(auto, using(crate::proofs::ReadingFacts::reading))]
    pub fn take_u16(&mut self) -> Result<u16, TextError>
        ensures ok { IfOk result (λ n. next_u16 self.old ≡ Some (n, self.new)) }
        ensures err { IfErr result (λ e. (e ≡ TextError.BadText) × (next_u16 self.old ≡ None)) }
    {
        let word = self.take_needed()?;
        read_u16(word).ok_or(TextError::BadText)
    }

    /// Takes the next word as `take_u16` does, as [`read_u32`] reads it.
    #[tactic(auto, using(crate::proofs::ReadingFacts::reading))]
    pub fn take_u32(&mut self) -> Result<u32, TextError>
        ensures ok { IfOk result (λ n. next_u32 self.old ≡ Some (n, self.new)) }
        ensures err { IfErr result (λ e. (e ≡ TextError.BadText) × (next_u32 self.old ≡ None)) }
    {
        let word = self.take_needed()?;
        read_u32(word).ok_or(TextError::BadText)
    }

    /// Takes the next word as `take_u16` does, as a number from 0 to 18446744073709551615.
    #[tactic(auto, using(crate::proofs::ReadingFacts::reading))]
    pub fn take_u64(&mut self) -> Result<u64, TextError>
        ensures ok { IfOk result (λ n. next_u64 self.old ≡ Some (n, self.new)) }
        ensures err { IfErr result (λ e. (e ≡ TextError.BadText) × (next_u64 self.old ≡ None)) }
    {
        let word = self.take_needed()?;
        read_u64(word).ok_or(TextError::BadText)
    }

    /// Takes the next word as `take_u16` does, as a number of seconds from 0 to 2147483647, as the timers of an SOA are (RFC
    /// 1035 section 3.3.13).
    #[tactic(auto, using(crate::proofs::ReadingFacts::reading))]
    pub fn take_timer(&mut self) -> Result<i32, TextError>
        ensures ok { IfOk result (λ n. next_timer self.old ≡ Some (n, self.new)) }
        ensures err { IfErr result (λ e. (e ≡ TextError.BadText) × (next_timer self.old ≡ None)) }
    {
        let word = self.take_needed()?;
        read_timer(word).ok_or(TextError::BadText)
    }

    /// Takes a word that may be left out, and says whether it was there: a line without it is at its end. `BadText`
    /// where another word is in its place.
    pub fn take_flag(&mut self, flag: &[u8]) -> Result<bool, TextError>
        ensures ok { IfOk result (λ given. next_flag flag.now self.old ≡ Some (given, self.new)) }
        ensures err { IfErr result
            (λ e. (e ≡ TextError.BadText) × (next_flag flag.now self.old ≡ None)) }
    {
        match self.take() {
            None => Ok(false),
            Some(word) if word == flag => Ok(true),
            Some(_) => Err(TextError::BadText),
        }
    }

    /// Refuses a line with words that weren't taken, by `BadText`.
    pub fn end(&mut self) -> Result<(), TextError>
        ensures ok { OnOk result (self.old ≡ []) }
        ensures err { IfErr result (λ e. (e ≡ TextError.BadText) × (self.old ≢ [])) }
    {
        match self.take() {
            None => Ok(()),
            Some(_) => Err(TextError::BadText),
        }
    }
}

/// How many octets of a text come before its first that is no blank.
#[tactic(auto, using(crate::proofs::WordFacts::place))]
fn blank_count(text: &[u8]) -> usize
    ensures { result ≡ position_or_len (λ octet. not (is_blank octet)) text.now }
{
    text.iter()
        .position(|octet| !is_blank(*octet))
        .unwrap_or(text.len())
}

/// How many octets of a text come before its first blank.
#[tactic(auto, using(crate::proofs::WordFacts::place))]
fn word_length(text: &[u8]) -> usize
    ensures { result ≡ position_or_len is_blank text.now }
{
    text.iter()
        .position(|octet| is_blank(*octet))
        .unwrap_or(text.len())
}

/// Whether an octet separates words.
fn is_blank(octet: u8) -> bool
    ensures { result ≡ is_blank octet }
{
    octet == b' ' || octet == b'\t'
}
