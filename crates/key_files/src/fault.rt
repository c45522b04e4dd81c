//! Why keys aren't read.
ghost use Rattle.std.specs.Prelude.{◌≡◌};

use std::alloc::{AllocError, AllocFailed};
use std::fmt;
use thiserror::Error;
use zone_scanner::Place;

/// What is wrong with a word of a file of keys.
#[derive(Clone, Copy, PartialEq, Eq, Debug, Error)]
pub enum KeyFileReason {
    /// A key begins with another word than `key`, `name:` and `id:`.
    #[error("`key`, `name:` or `id:` is wanted here")]
    NameWanted,
    /// The text ends before a key has its name, its algorithm and its secret.
    #[error("this key has no name, no algorithm or no secret")]
    Incomplete,
    /// Neither an algorithm nor a secret follows the name of a key.
    #[error("`algorithm` or `secret` is wanted here")]
    FieldWanted,
    /// A key has a secret, and no algorithm follows.
    #[error("`algorithm` is wanted here")]
    AlgorithmWanted,
    /// A key has an algorithm, and no secret follows.
    #[error("`secret` is wanted here")]
    SecretWanted,
    /// It is no name (RFC 1035 section 5.1).
    #[error("this is no name")]
    BadName,
    /// It is the name of no algorithm that is known, in lower case (RFC 8945 section 6).
    #[error("this algorithm isn't known")]
    UnknownAlgorithm,
    /// It isn't base64 with its padding (RFC 4648 section 4).
    #[error("this isn't base64")]
    BadSecret,
}

/// The first fault of a file of keys, and where the word begins that is at fault.
#[derive(Clone, Copy, PartialEq, Eq, Debug)]
pub struct KeyFileFault {
    /// Where the word begins.
    pub place: Place,
    /// What is wrong with it.
    pub reason: KeyFileReason,
}

impl fmt::Display for KeyFileFault {
    fn fmt<W: fmt::Write>(&self, f: &mut fmt::Formatter<W>) -> fmt::Result {
        write!(
            f,
            "{}:{}: {}",
            self.place.line, self.place.column, self.reason
        )
    }
}

/// Why keys aren't read.
#[derive(Clone, Copy, PartialEq, Eq, Debug, Error)]
pub enum KeyFileError {
    /// The text isn't of the form of such files.
    #[error("{0}")]
    Fault(KeyFileFault),
    /// A growth that the allocator refused.
    #[error("out of memory")]
    Memory,
}

/// Want of memory is `Memory`.
impl From<AllocError> for KeyFileError {
    ghost use Rattle.key_files.specs.declared.fault.KeyFileError.TheVariants.{Memory};

    ghost from_gives = { λ _ e. e ≡ Memory };

    fn from(_: AllocError) -> KeyFileError {
        KeyFileError::Memory
    }
}

/// Want of memory is `Memory`; the value that found no room is dropped.
impl<T: Drop> From<AllocFailed<T>> for KeyFileError {
    ghost use Rattle.key_files.specs.declared.fault.KeyFileError.TheVariants.{Memory};

    ghost from_gives = { λ _ e. e ≡ Memory };

    fn from(_: AllocFailed<T>) -> KeyFileError {
        KeyFileError::Memory
    }
}

/// A word at fault, by where it begins among the octets of the text; or want of memory.
#[derive(Clone, Copy, PartialEq, Eq, Debug)]
pub(crate) enum WordError {
    /// The word that begins at this offset is at fault.
    Wrong(usize, KeyFileReason),
    /// A growth that the allocator refused.
    Memory,
}

/// Want of memory is `Memory`.
impl From<AllocError> for WordError {
    ghost use Rattle.key_files.specs.declared.fault.WordError.TheVariants.{Memory};

    ghost from_gives = { λ _ e. e ≡ Memory };

    fn from(_: AllocError) -> WordError {
        WordError::Memory
    }
}

/// Want of memory is `Memory`; the value that found no room is dropped.
impl<T: Drop> From<AllocFailed<T>> for WordError {
    ghost use Rattle.key_files.specs.declared.fault.WordError.TheVariants.{Memory};

    ghost from_gives = { λ _ e. e ≡ Memory };

    fn from(_: AllocFailed<T>) -> WordError {
        WordError::Memory
    }
}
