//! Why a difference isn't applied.
ghost use Rattle.std.specs.Prelude.{◌≡◌};

use std::alloc::{AllocError, AllocFailed};
use zone_proto::ProtoError;

/// Why a difference isn't applied to a zone.
#[derive(Clone, Copy, PartialEq, Eq, Debug)]
pub enum DifferenceError {
    /// A set that is to be taken out isn't there, or another one is.
    NotThere,
    /// Under the owner and type of a set that is given a set is there already.
    AlreadyThere,
    /// A set that is given has no records.
    Empty,
    /// A growth that the allocator refused.
    Memory,
}

/// Want of memory is `Memory`.
impl From<ProtoError> for DifferenceError {
    ghost use Rattle.zone_difference.specs.declared.error.DifferenceError.TheVariants.{Memory};

    ghost from_gives = { λ _ e. e ≡ Memory };

    fn from(_: ProtoError) -> DifferenceError {
        DifferenceError::Memory
    }
}

/// Want of memory is `Memory`.
impl From<AllocError> for DifferenceError {
    ghost use Rattle.zone_difference.specs.declared.error.DifferenceError.TheVariants.{Memory};

    ghost from_gives = { λ _ e. e ≡ Memory };

    fn from(_: AllocError) -> DifferenceError {
        DifferenceError::Memory
    }
}

/// Want of memory is `Memory`; the value that found no room is dropped.
impl<T: Drop> From<AllocFailed<T>> for DifferenceError {
    ghost use Rattle.zone_difference.specs.declared.error.DifferenceError.TheVariants.{Memory};

    ghost from_gives = { λ _ e. e ≡ Memory };

    fn from(_: AllocFailed<T>) -> DifferenceError {
        DifferenceError::Memory
    }
}
