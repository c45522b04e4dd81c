//! Why a name, data or a set was refused.
ghost use Rattle.std.specs.Prelude.{◌≡◌};

use std::alloc::{AllocError, AllocFailed};
use thiserror::Error;

/// Why a call on names, texts, data or digests was refused.
#[derive(Clone, Copy, PartialEq, Eq, Debug, Error)]
pub enum ProtoError {
    /// A label without octets, which only the root has (RFC 1034 section 3.1).
    #[error("empty label")]
    EmptyLabel,
    /// A label of more than 63 octets (RFC 1035 section 2.3.4).
    #[error("label too long")]
    LabelTooLong,
    /// A name of more than 255 octets in wire form (RFC 1035 section 2.3.4).
    #[error("name too long")]
    NameTooLong,
    /// A text that is not the text form of a name (RFC 1035 section 5.1), or octets that are the wire form of no labels (section
    /// 3.1).
    #[error("bad text")]
    BadText,
    /// A digest that the hash does not give, as for an unknown algorithm.
    #[error("hash refused")]
    Hash,
    /// A growth that the allocator refused.
    #[error("out of memory")]
    Memory,
}

/// Want of memory is `Memory`.
impl From<AllocError> for ProtoError {
    ghost use Rattle.zone_proto.specs.declared.error.ProtoError.TheVariants.{Memory};

    ghost from_gives = { λ _ e. e ≡ Memory };

    fn from(_: AllocError) -> ProtoError {
        ProtoError::Memory
    }
}

/// Want of memory is `Memory`; the value that found no room is dropped.
impl<T: Drop> From<AllocFailed<T>> for ProtoError {
    ghost use Rattle.zone_proto.specs.declared.error.ProtoError.TheVariants.{Memory};

    ghost from_gives = { λ _ e. e ≡ Memory };

    fn from(_: AllocFailed<T>) -> ProtoError {
        ProtoError::Memory
    }
}
