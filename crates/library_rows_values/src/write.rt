//! Writes answers. What is written is of any type, so that a proof has nothing to take apart.

use line_text::HexText;
use std::alloc::{AllocError, Global};
use std::cmp::Ordering;
use std::fmt::{Debug, Display};
use zone_proto::ProtoError;

/// The answer to a call: a text in room that is there from the start. Where it has no more room, it is cut, which is told once
/// the call is made: so to write is no early exit.
#[derive(Drop)]
pub struct Answer {
    text: String,
    is_cut: bool,
}

impl Answer {
    /// No text, and room for so many octets.
    pub fn new(alloc: Global, room: usize) -> Result<Answer, AllocError> {
        let text = String::with_capacity(alloc, room)?;
        Ok(Answer {
            text,
            is_cut: false,
        })
    }

    /// Takes the text away; the room stays.
    pub fn clear(&mut self) {
        self.text.clear();
        self.is_cut = false;
    }

    pub fn text(&self) -> &str {
        self.text.as_str()
    }

    /// Tells whether all had room that was written.
    pub fn end(&self) -> Result<(), AllocError> {
        if self.is_cut { Err(AllocError) } else { Ok(()) }
    }

    /// Writes a text.
    pub fn say(&mut self, text: &str) {
        if self.text.push_str(text).is_err() {
            self.is_cut = true;
        }
    }

    /// Writes a value.
    pub fn put<T: Display>(&mut self, value: &T) {
        if write!(self.text, "{value}").is_err() {
            self.is_cut = true;
        }
    }

    /// Writes a value that is handed over.
    pub fn value<T: Display + Drop>(&mut self, value: T) {
        self.put(&value);
    }

    /// Writes a value as the program has it.
    pub fn show<T: Debug>(&mut self, value: &T) {
        if write!(self.text, "{value:?}").is_err() {
            self.is_cut = true;
        }
    }

    /// Writes an error.
    pub fn put_error<E: Display>(&mut self, error: &E) {
        self.say("error: ");
        self.put(error);
    }

    /// Writes the error of a call, which is handed over.
    pub fn fail<E: Display + Drop>(&mut self, error: E) {
        self.put_error(&error);
    }

    /// Writes what a call gave, or its error.
    pub fn give<T: Display + Drop, E: Display + Drop>(&mut self, given: Result<T, E>) {
        match given {
            Ok(value) => self.put(&value),
            Err(error) => self.fail(error),
        }
    }

    /// Writes that a call is done, or its error.
    pub fn done<T: Drop, E: Display + Drop>(&mut self, given: Result<T, E>) {
        match given {
            Ok(_) => self.say("done"),
            Err(error) => self.fail(error),
        }
    }

    /// Writes `yes` or `no`, or the error of a call.
    pub fn tell<E: Display + Drop>(&mut self, given: Result<bool, E>) {
        match given {
            Ok(holds) => self.hold(holds),
            Err(error) => self.fail(error),
        }
    }

    /// Writes `yes` or `no`.
    pub fn hold(&mut self, holds: bool) {
        self.say(if holds { "yes" } else { "no" });
    }

    /// Writes whether a copy is equal to what was copied, or the error of the call that makes it.
    pub fn compare<T: PartialEq + Drop>(&mut self, value: &T, copy: Result<T, ProtoError>) {
        match copy {
            Ok(copy) => self.hold(copy == *value),
            Err(error) => self.fail(error),
        }
    }

    /// Writes `before`, `same` or `after`.
    pub fn order(&mut self, order: Ordering) {
        self.say(match order {
            Ordering::Less => "before",
            Ordering::Equal => "same",
            Ordering::Greater => "after",
        });
    }

    /// Writes octets in hex, or the error of a call.
    pub fn octets(&mut self, given: Result<Vec<u8>, ProtoError>) {
        match given {
            Ok(octets) => self.put(&HexText(octets.as_slice())),
            Err(error) => self.fail(error),
        }
    }
}
