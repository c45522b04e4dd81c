//! Why a series of messages isn't written.
ghost use Rattle.std.specs.Prelude.{◌≡◌};

use std::alloc::AllocError;
use zone_proto::ProtoError;

/// Why a series of messages isn't written.
#[derive(Clone, Copy, PartialEq, Eq, Debug)]
pub enum SeriesFault {
    /// A record has data that no octets are, no message has room for a record, or the records take more than 65,534 messages.
    Unwritable,
    /// A growth that the allocator refused.
    Memory,
}

/// Want of memory is `Memory`.
impl From<AllocError> for SeriesFault {
    ghost use Rattle.message_series.specs.declared.fault.SeriesFault.TheVariants.{Memory};

    ghost from_gives = { λ _ e. e ≡ Memory };

    fn from(_: AllocError) -> SeriesFault {
        SeriesFault::Memory
    }
}

/// Want of memory is `Memory`.
impl From<ProtoError> for SeriesFault {
    ghost use Rattle.message_series.specs.declared.fault.SeriesFault.TheVariants.{Memory};

    ghost from_gives = { λ _ e. e ≡ Memory };

    fn from(_: ProtoError) -> SeriesFault {
        SeriesFault::Memory
    }
}
