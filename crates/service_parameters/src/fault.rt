//! What is wrong with service parameters.
ghost use Rattle.std.specs.Prelude.{◌≡◌};

use std::alloc::{AllocError, AllocFailed};
use thiserror::Error;

/// What is wrong with service parameters.
#[derive(Clone, Copy, PartialEq, Eq, Debug, Error)]
pub enum ParameterFault {
    /// A word that begins with no key.
    #[error("a service parameter is needed here, which begins with a key by name, or key and a number up to 65534")]
    Key,
    /// A value that isn't of the form of its key.
    #[error("this value isn't one of its key")]
    Value,
    /// A key that stands twice.
    #[error("a service parameter of this key is there already")]
    Repeated,
    /// `no-default-alpn` without `alpn` (RFC 9460 section 7.1.1).
    #[error("no-default-alpn takes alpn beside it")]
    NoAlpn,
    /// A key that `mandatory` names isn't there (RFC 9460 section 8).
    #[error("a key that is mandatory isn't there")]
    NotThere,
    /// A value of more octets than 16 bits count.
    #[error("a service parameter of more than 65535 octets")]
    TooLong,
}

/// Why service parameters aren't read.
#[derive(Clone, Copy, PartialEq, Eq, Debug)]
pub enum ParameterError {
    /// A growth that the allocator refused.
    Memory,
    /// What is wrong with them.
    Fault(ParameterFault),
}

/// Want of memory is `Memory`.
impl From<AllocError> for ParameterError {
    ghost use Rattle.service_parameters.specs.declared.fault.ParameterError.TheVariants.{Memory};

    ghost from_gives = { λ _ e. e ≡ Memory };

    fn from(_: AllocError) -> ParameterError {
        ParameterError::Memory
    }
}

/// Want of memory is `Memory`; the value that found no room is dropped.
impl<T: Drop> From<AllocFailed<T>> for ParameterError {
    ghost use Rattle.service_parameters.specs.declared.fault.ParameterError.TheVariants.{Memory};

    ghost from_gives = { λ _ e. e ≡ Memory };

    fn from(_: AllocFailed<T>) -> ParameterError {
        ParameterError::Memory
    }
}
