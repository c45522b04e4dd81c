//! Why a response is not written.
ghost use Rattle.std.specs.Prelude.{◌≡◌};

use std::alloc::AllocError;
use zone_proto::ProtoError;

/// Why a response was not written.
#[derive(Clone, Copy, PartialEq, Eq, Debug)]
pub enum WriteError {
    /// A record has data that no octets are: types of a denial that don't ascend, a salt of more than 255 octets, octets that are
    /// not of the form of their type, or more than 65,535 octets. Or it is an OPT record: a response has its own.
    Unwritable,
    /// The header, the question and the OPT record have more octets than the limit.
    NoRoom,
    /// The response code isn't of twelve bits, so that it is none (RFC 6891 section 6.1.3).
    BadCode,
    /// A growth that the allocator refused.
    Memory,
}

/// Want of memory is `Memory`.
impl From<AllocError> for WriteError {
    ghost use Rattle.message_writing.specs.declared.error.WriteError.TheVariants.{Memory};

    ghost from_gives = { λ _ e. e ≡ Memory };

    fn from(_: AllocError) -> WriteError {
        WriteError::Memory
    }
}

/// Want of memory is `Memory`.
impl From<ProtoError> for WriteError {
    ghost use Rattle.message_writing.specs.declared.error.WriteError.TheVariants.{Memory};

    ghost from_gives = { λ _ e. e ≡ Memory };

    fn from(_: ProtoError) -> WriteError {
        WriteError::Memory
    }
}
