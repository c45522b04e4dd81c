//! Why a text can't be cut into entries.
ghost use Rattle.std.specs.Prelude.{◌≡◌};

use crate::place::Place;
use std::alloc::{AllocError, AllocFailed};
use thiserror::Error;

/// What is wrong at a place of a text.
#[derive(Clone, Copy, PartialEq, Eq, Debug, Error)]
pub enum EntryReason {
    /// A parenthesis opens where one is open.
    #[error("a parenthesis opens within parentheses")]
    Nested,
    /// A parenthesis closes where none is open.
    #[error("a parenthesis closes that wasn't opened")]
    Unopened,
    /// A parenthesis that opens here is open at the end of the text.
    #[error("a parenthesis opens here that isn't closed")]
    Unclosed,
    /// A quote that opens here is open at the end of its line.
    #[error("a quote opens here that isn't closed in its line")]
    OpenQuote,
    /// A line or the text ends behind a backslash.
    #[error("nothing stands behind a backslash")]
    OpenEscape,
    /// The entry has more octets than one may have.
    #[error("an entry of more than 1048576 octets")]
    TooLong,
}

/// A fault and its place.
#[derive(Clone, Copy, PartialEq, Eq, Debug)]
pub struct EntryFault {
    pub place: Place,
    pub reason: EntryReason,
}

/// Why the entries of a text aren't read.
#[derive(Clone, Copy, PartialEq, Eq, Debug)]
pub enum EntryError {
    /// A growth that the allocator refused.
    Memory,
    /// The first fault of the text.
    Fault(EntryFault),
}

/// Want of memory is `Memory`.
impl From<AllocError> for EntryError {
    ghost use Rattle.zone_scanner.specs.declared.fault.EntryError.TheVariants.{Memory};

    ghost from_gives = { λ _ e. e ≡ Memory };

    fn from(_: AllocError) -> EntryError {
        EntryError::Memory
    }
}

/// Want of memory is `Memory`; the value that found no room is dropped.
impl<T: Drop> From<AllocFailed<T>> for EntryError {
    ghost use Rattle.zone_scanner.specs.declared.fault.EntryError.TheVariants.{Memory};

    ghost from_gives = { λ _ e. e ≡ Memory };

    fn from(_: AllocFailed<T>) -> EntryError {
        EntryError::Memory
    }
}
