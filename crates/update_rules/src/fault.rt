//! Why rules aren't read.
ghost use Rattle.std.specs.Prelude.{◌≡◌};

use std::alloc::{AllocError, AllocFailed};
use std::fmt;
use thiserror::Error;
use zone_scanner::Place;

/// What is wrong with a word of a line.
#[derive(Clone, Copy, PartialEq, Eq, Debug, Error)]
pub enum RuleReason {
    /// A line begins with another word than `update`.
    #[error("`update` is wanted here")]
    DirectiveWanted,
    /// The line ends before the rule has all that it needs.
    #[error("this rule ends too early")]
    Incomplete,
    /// It is neither `grant` nor `deny`.
    #[error("`grant` or `deny` is wanted here")]
    VerbWanted,
    /// It is none of `name`, `subdomain`, `self` and `selfsub`.
    #[error("`name`, `subdomain`, `self` or `selfsub` is wanted here")]
    ScopeWanted,
    /// It is no name (RFC 1035 section 5.1).
    #[error("this is no name")]
    BadName,
    /// No journal can be named after it: it has an octet that is no letter, digit, hyphen, underscore or dot.
    #[error("no journal can be named after this origin")]
    BadOrigin,
    /// It names no type (RFC 3597 section 5).
    #[error("this isn't a type of records")]
    UnknownType,
    /// The quote that a word begins with isn't closed in its line.
    #[error("this quote isn't closed")]
    OpenQuote,
}

/// The first fault of a text of rules, and where the word begins that is at fault.
#[derive(Clone, Copy, PartialEq, Eq, Debug)]
pub struct RuleFault {
    /// Where the word begins.
    pub place: Place,
    /// What is wrong with it.
    pub reason: RuleReason,
}

impl fmt::Display for RuleFault {
    fn fmt<W: fmt::Write>(&self, f: &mut fmt::Formatter<W>) -> fmt::Result {
        write!(
            f,
            "{}:{}: {}",
            self.place.line, self.place.column, self.reason
        )
    }
}

/// Why rules aren't read.
#[derive(Clone, Copy, PartialEq, Eq, Debug, Error)]
pub enum RulesError {
    /// The text isn't of the form of rules.
    #[error("{0}")]
    Fault(RuleFault),
    /// A growth that the allocator refused.
    #[error("out of memory")]
    Memory,
}

/// Want of memory is `Memory`; the value that found no room is dropped.
impl<T: Drop> From<AllocFailed<T>> for RulesError {
    ghost use Rattle.update_rules.specs.declared.fault.RulesError.TheVariants.{Memory};

    ghost from_gives = { λ _ e. e ≡ Memory };

    fn from(_: AllocFailed<T>) -> RulesError {
        RulesError::Memory
    }
}

/// A word at fault, by where it begins among the octets of its line; or want of memory.
#[derive(Clone, Copy, PartialEq, Eq, Debug)]
pub(crate) enum WordError {
    /// The word that begins at this offset is at fault.
    Wrong(usize, RuleReason),
    /// A growth that the allocator refused.
    Memory,
}

/// Want of memory is `Memory`.
impl From<AllocError> for WordError {
    ghost use Rattle.update_rules.specs.declared.fault.WordError.TheVariants.{Memory};

    ghost from_gives = { λ _ e. e ≡ Memory };

    fn from(_: AllocError) -> WordError {
        WordError::Memory
    }
}

/// Want of memory is `Memory`; the value that found no room is dropped.
impl<T: Drop> From<AllocFailed<T>> for WordError {
    ghost use Rattle.update_rules.specs.declared.fault.WordError.TheVariants.{Memory};

    ghost from_gives = { λ _ e. e ≡ Memory };

    fn from(_: AllocFailed<T>) -> WordError {
        WordError::Memory
    }
}
