//! Why octets are not read.
ghost use Rattle.std.specs.Prelude.{◌≡◌};

use crate::header::Header;
use crate::query::Query;
use zone_proto::ProtoError;

/// Why a query was not read, and what an answer to it needs.
#[derive(Debug, Drop)]
pub enum ReadError {
    /// Fewer octets than a header has: no answer can be given.
    NoHeader,
    /// A response: it gets no answer.
    NoQuery,
    /// Another opcode than that of a standard query: NOTIMP (RFC 1035 section 4.1.1).
    NotImplemented(Header),
    /// Not of the form of a query: FORMERR (RFC 1035 section 4.1.1).
    Malformed(Header),
    /// A query with another version of EDNS than 0: BADVERS (RFC 6891 section 6.1.3).
    BadVersion(Query),
    /// A growth that the allocator refused.
    Memory,
}

/// Want of memory is `Memory`.
impl From<ProtoError> for ReadError {
    ghost use Rattle.message_reading.specs.declared.error.ReadError.TheVariants.{Memory};

    ghost from_gives = { λ _ e. e ≡ Memory };

    fn from(_: ProtoError) -> ReadError {
        ReadError::Memory
    }
}

/// Why a message was not read.
#[derive(Clone, Copy, PartialEq, Eq, Debug)]
pub enum MessageError {
    /// The octets are no message.
    Malformed,
    /// A growth that the allocator refused.
    Memory,
}

/// Want of memory is `Memory`.
impl From<ProtoError> for MessageError {
    ghost use Rattle.message_reading.specs.declared.error.MessageError.TheVariants.{Memory};

    ghost from_gives = { λ _ e. e ≡ Memory };

    fn from(_: ProtoError) -> MessageError {
        MessageError::Memory
    }
}
