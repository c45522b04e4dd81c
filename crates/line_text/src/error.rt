//! Why words aren't read.
ghost use Rattle.std.specs.Prelude.{◌≡◌};

use std::alloc::{AllocError, AllocFailed};
use thiserror::Error;
use zone_proto::ProtoError;

/// Why words aren't read.
#[derive(Clone, Copy, PartialEq, Eq, Debug, Error)]
pub enum TextError {
    /// The words aren't of the form that is read, or there are too few or too many of them.
    #[error("bad text")]
    BadText,
    /// A growth that the allocator refused.
    #[error("out of memory")]
    Memory,
}

/// Want of memory is `Memory`.
impl From<AllocError> for TextError {
    ghost use Rattle.line_text.specs.declared.error.TextError.TheVariants.{Memory};

    ghost from_gives = { λ _ e. e ≡ Memory };

    fn from(_: AllocError) -> TextError {
        TextError::Memory
    }
}

/// Want of memory is `Memory`; the value that found no room is dropped.
impl<T: Drop> From<AllocFailed<T>> for TextError {
    ghost use Rattle.line_text.specs.declared.error.TextError.TheVariants.{Memory};

    ghost from_gives = { λ _ e. e ≡ Memory };

    fn from(_: AllocFailed<T>) -> TextError {
        TextError::Memory
    }
}

/// Want of memory is `Memory`, and a text that isn't a name is a bad one.
impl From<ProtoError> for TextError {
    ghost use Rattle.std.specs.Prelude.{◌↔◌};
    ghost use Rattle.zone_proto.specs.declared.error.ProtoError.TheVariants as proto;
    ghost use Rattle.line_text.specs.declared.error.TextError.TheVariants.{Memory};

    ghost from_gives = { λ error e. (e ≡ Memory) ↔ (error ≡ proto.Memory) };

    fn from(error: ProtoError) -> TextError {
        match error {
            ProtoError::Memory => TextError::Memory,
            _ => TextError::BadText,
        }
    }
}
