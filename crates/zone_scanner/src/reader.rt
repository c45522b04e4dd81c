//! The entries of a text that comes in pieces: its octets are read one after the other.
ghost use Rattle.std.specs.Prelude.{◌≡◌, ◌+◌, ◌++◌, ◌≤◌, ◌<◌, [], ◌∷◌, List, ℕ, length, drop, Ok, Some, None, IfOk, IfErr, IsNone, OnOk, IsOkUnless};
ghost use Rattle.zone_scanner.specs.Entries.{Event, Broken, with_entry, events_of, entry_of};
ghost use Rattle.zone_scanner.specs.Steps.{Between, Fails, apart, begun, settled, with_blank, with_octet, with_octets, line_behind, entry_at, line_end, entry_in, step, end_of, events_from};

use crate::entry::{Entry, Word};
use crate::fault::{EntryError, EntryFault, EntryReason};
use crate::place::Place;
use crate::rules::{fault_at, open_after, room_for, size_after};
use crate::signs::{Mode, Sign};
use std::alloc::Global;
use std::marker::Model;
use std::mem;

/// Where in a line the reader stands.
#[derive(Clone, Copy, PartialEq, Eq, Debug)]
pub(crate) enum Hand {
    /// At its beginning.
    Start,
    /// Where no word goes on.
    Between,
    /// Where a word goes on.
    InWord,
}

/// Reads the entries of a text, piece by piece, and keeps the words of the entry in hand alone. Contracts say what it makes of
/// the rest of the text, whatever that is (`events_from`): the entries that are left, and the first fault if there is one.
#[derive(Drop)]
pub struct EntryReader {
    mode: Mode,
    place: Place,
    is_joined: bool,
    /// Where the open parenthesis stands, if one is open.
    group: Option<Place>,
    size: u32,
    is_indented: bool,
    words: Vec<Word>,
    hand: Hand,
    /// The word that goes on: where it begins, whether it is quoted and joined, and its octets so far.
    begin: Place,
    is_word_quoted: bool,
    is_word_joined: bool,
    text: Vec<u8>,
}

impl Model for EntryReader {
    ghost use Rattle.zone_scanner.specs.Steps.{Reader, hand_of, line_of};

    ghost Value = { Reader };

    ghost view = { λ t. record {
      mode = t.mode;
      place = t.place;
      joined = t.is_joined;
      group = t.group;
      size = t.size;
      line = line_of t.is_indented t.words.items
          (hand_of t.hand t.begin t.is_word_quoted t.is_word_joined t.text.items);
    } };
}

impl EntryReader {
    ghost use Rattle.zone_scanner.specs.Steps.{start_of_text};

    /// At the beginning of a text. Doesn't allocate.
    #[tactic(auto, using(crate::proofs::EntryLaw::reads_text))]
    pub fn new(alloc: Global) -> EntryReader
        ensures { (text : List ℕ) → events_from text result ≡ events_of text }
    {
        EntryReader {
            mode: Mode::Plain,
            place: Place::first(),
            is_joined: false,
            group: None,
            size: 0,
            is_indented: false,
            words: Vec::new(alloc),
            hand: Hand::Start,
            begin: Place::first(),
            is_word_quoted: false,
            is_word_joined: false,
            text: Vec::new(alloc),
        }
    }

    /// Takes octets from the front of the next piece of the text, up to the end of the first entry that ends in it, and gives
    /// how many these are, and the entry; or takes the whole piece, where none ends.
    ///
    /// # Errors
    ///
    /// The first fault of the text, if it is in this piece before the end of an entry; `Memory` where there isn't
    /// enough memory for the words. The reader is of no use then: nothing is said of what it makes of further pieces.
    pub fn take_entry(
        &mut self,
        alloc: Global,
        piece: &[u8],
    ) -> Result<(usize, Option<Entry>), EntryError>
        // Whatever follows the piece, the entries of the text are this one and those that are left.
        ensures ok { IfOk result (λ t. (more : List ℕ) →
            events_from (piece.now ++ more) self.old
            ≡ with_entry t.1 (events_from (drop t.0 piece.now ++ more) self.new)) }
        ensures within { IfOk result (λ t. t.0 ≤ length piece.now) }
        ensures progress { IfOk result (λ t. 0 < length piece.now → 0 < t.0) }
        ensures whole { IfOk result (λ t. IsNone t.1 → t.0 ≡ length piece.now) }
        ensures fault { IfErr result (λ e. (f : EntryFault) → e ≡ EntryError.Fault f →
            (more : List ℕ) → events_from (piece.now ++ more) self.old ≡ Broken f ∷ []) }
    {
        let mut count = 0;
        while count < piece.len() {
            let run = self.take_run(alloc, &piece[count..])?;
            if run > 0 {
                count += run;
                continue;
            }
            let entry = self.step(alloc, piece[count])?;
            count += 1;
            if entry.is_some() {
                return Ok((count, entry));
            }
        }
        Ok((count, None))
    }

    /// Ends the text: gives the entry of its last line, if that has words and no line end.
    ///
    /// # Errors
    ///
    /// A fault where the text may not end here; `Memory` where there isn't enough memory for a word.
    pub fn finish(mut self, alloc: Global) -> Result<Option<Entry>, EntryError>
        ensures ok { IfOk result (λ entry. events_from [] self ≡ with_entry entry []) }
        ensures fault { IfErr result (λ e. (f : EntryFault) → e ≡ EntryError.Fault f →
            events_from [] self ≡ Broken f ∷ []) }
    {
        if let Some(fault) = self.mode.fault_at_end(self.place) {
            return Err(EntryError::Fault(fault));
        }
        if let Some(place) = self.group {
            return Err(EntryError::Fault(EntryFault {
                place,
                reason: EntryReason::Unclosed,
            }));
        }
        self.take_words(alloc)
    }

    /// Takes the next octet of the text, and gives the entry that ends there, if one does.
    pub(crate) fn step(&mut self, alloc: Global, octet: u8) -> Result<Option<Entry>, EntryError>
        ensures ok { IfOk result (λ entry. step self.old octet ≡ Ok (entry, self.new)) }
        ensures fault { IfErr result (λ e. Fails e (step self.old octet)) }
    {
        let sign = self.mode.sign_of(self.place, octet);
        if let Some(fault) = fault_at(sign, self.place, self.group, self.size) {
            return Err(EntryError::Fault(fault));
        }
        let entry = self.take_line(alloc, sign)?;
        self.size = size_after(sign, self.group, self.size);
        self.group = open_after(sign, self.place, self.group);
        self.mode = self.mode.after(self.place, octet);
        self.place = self.place.behind(octet);
        self.is_joined = sign.joins();
        Ok(entry)
    }

    /// Takes the octets at the start of what follows that are octets of one word and nothing else, in one piece, and
    /// gives how many these are. Its only error is `Memory`.
    fn take_run(&mut self, alloc: Global, rest: &[u8]) -> Result<usize, EntryError>
        ensures ok { IfOk result (λ n. (more : List ℕ) →
            events_from (rest.now ++ more) self.old
            ≡ events_from (drop n rest.now ++ more) self.new) }
        ensures within { IfOk result (λ n. n ≤ length rest.now) }
        ensures err { IsOkUnless result EntryError.Memory }
    {
        let count = self.mode.run_length(rest, room_for(self.size));
        if count == 0 {
            return Ok(0);
        }
        self.take_octets(alloc, &rest[..count])?;
        self.size += count as u32;
        self.place = self.place.along(count);
        self.is_joined = true;
        Ok(count)
    }

    /// Takes what a sign makes of the line in hand.
    fn take_line(&mut self, alloc: Global, sign: Sign) -> Result<Option<Entry>, EntryError>
        ensures entry { IfOk result (λ entry. entry ≡ entry_at sign self.old.group self.old.line) }
        ensures line { OnOk result
            (self.new
            ≡ record self.old {
              line = line_behind sign self.old.place self.old.joined
                  self.old.group self.old.line;
            }) }
        ensures err { IsOkUnless result EntryError.Memory }
    {
        match sign {
            Sign::Blank => {
                self.take_blank(alloc)?;
                Ok(None)
            }
            Sign::LineEnd => self.take_line_end(alloc),
            Sign::Opens | Sign::Closes | Sign::Unquote | Sign::Wrong(_) => {
                self.part(alloc)?;
                Ok(None)
            }
            Sign::Quote => {
                self.begin(alloc, true)?;
                Ok(None)
            }
            Sign::Octet(octet) => {
                self.take_octet(alloc, octet)?;
                Ok(None)
            }
        }
    }

    /// Ends the word that goes on, if one does.
    fn part(&mut self, alloc: Global) -> Result<(), EntryError>
        ensures ok { OnOk result (self.new ≡ record self.old { line = apart self.old.line }) }
        ensures err { IsOkUnless result EntryError.Memory }
    {
        if self.hand == Hand::InWord {
            let word = Word::new(
                alloc,
                self.begin,
                self.is_word_quoted,
                self.is_word_joined,
                self.text.as_slice(),
            )?;
            self.words.push(word)?;
        }
        self.hand = Hand::Between;
        Ok(())
    }

    /// Takes a blank: at the beginning of a line the line is indented.
    fn take_blank(&mut self, alloc: Global) -> Result<(), EntryError>
        ensures ok { OnOk result (self.new ≡ record self.old { line = with_blank self.old.line }) }
        ensures err { IsOkUnless result EntryError.Memory }
    {
        if self.hand == Hand::Start {
            self.is_indented = true;
        }
        self.part(alloc)
    }

    /// Begins a word without octets.
    fn begin(&mut self, alloc: Global, is_quoted: bool) -> Result<(), EntryError>
        ensures ok { OnOk result
            (self.new
            ≡ record self.old {
              line = begun is_quoted self.old.place self.old.joined
                  self.old.line;
            }) }
        ensures err { IsOkUnless result EntryError.Memory }
    {
        self.part(alloc)?;
        self.begin = self.place;
        self.is_word_quoted = is_quoted;
        self.is_word_joined = self.is_joined;
        self.text.clear();
        self.hand = Hand::InWord;
        Ok(())
    }

    /// Takes an octet of a word.
    fn take_octet(&mut self, alloc: Global, octet: u8) -> Result<(), EntryError>
        ensures ok { OnOk result
            (self.new
            ≡ record self.old {
              line = with_octet self.old.place self.old.joined octet
                  self.old.line;
            }) }
        ensures err { IsOkUnless result EntryError.Memory }
    {
        if self.hand != Hand::InWord {
            self.begin(alloc, false)?;
        }
        self.text.push(octet)?;
        Ok(())
    }

    /// Takes octets of a word, one or more.
    fn take_octets(&mut self, alloc: Global, octets: &[u8]) -> Result<(), EntryError>
        ensures ok { OnOk result
            (self.new
            ≡ record self.old {
              line = with_octets self.old.place self.old.joined octets.now
                  self.old.line;
            }) }
        ensures err { IsOkUnless result EntryError.Memory }
    {
        if self.hand != Hand::InWord {
            self.begin(alloc, false)?;
        }
        self.text.extend_from_slice(octets)?;
        Ok(())
    }

    /// Takes the end of a line, which between parentheses is a blank.
    fn take_line_end(&mut self, alloc: Global) -> Result<Option<Entry>, EntryError>
        ensures entry { IfOk result (λ entry. entry ≡ entry_in self.old.group self.old.line) }
        ensures line { OnOk result
            (self.new ≡ record self.old { line = line_end self.old.group self.old.line }) }
        ensures err { IsOkUnless result EntryError.Memory }
    {
        match self.group {
            Some(_) => {
                self.take_blank(alloc)?;
                Ok(None)
            }
            None => {
                let entry = self.take_words(alloc)?;
                self.is_indented = false;
                self.hand = Hand::Start;
                Ok(entry)
            }
        }
    }

    /// Takes the words of the line, which are its entry if there are any.
    fn take_words(&mut self, alloc: Global) -> Result<Option<Entry>, EntryError>
        ensures entry { IfOk result
            (λ entry. entry ≡ entry_of self.old.line.indented (settled self.old.line)) }
        ensures line { OnOk result
            (self.new
            ≡ record self.old {
              line = record {
                indented = self.old.line.indented;
                words = [];
                hand = Between;
              };
            }) }
        ensures err { IsOkUnless result EntryError.Memory }
    {
        self.part(alloc)?;
        if self.words.is_empty() {
            return Ok(None);
        }
        // Most entries have no more words than the one before.
        let room = Vec::with_capacity(alloc, self.words.len())?;
        let words = mem::replace(&mut self.words, room);
        Ok(Some(Entry::new(self.is_indented, words)))
    }
}
