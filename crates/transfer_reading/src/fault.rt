//! Why an answer isn't taken, and why it says nothing.
ghost use Rattle.std.specs.Prelude.{◌≡◌};

use std::alloc::{AllocError, AllocFailed};
use thiserror::Error;
use zone_proto::ProtoError;

/// Why a message isn't taken as one of an answer.
#[derive(Clone, Copy, PartialEq, Eq, Debug, Error)]
pub enum AnswerFault {
    /// The octets are no message.
    #[error("the octets are no message")]
    Malformed,
    /// It has another identifier than the query, is no response, or one of another opcode.
    #[error("the message is no response to the query")]
    NotTheAnswer,
    /// The primary refused the query with this response code.
    #[error("the primary refused the query with the response code {0}")]
    Code(u8),
    /// It answers another question, or the first message has none.
    #[error("the message has another question")]
    OtherQuestion,
    /// The SOA record was asked for, and the primary isn't an authority for the zone: AA is clear.
    #[error("the primary isn't an authority for the zone")]
    NotAuthoritative,
    /// It is cut: TC is set.
    #[error("the message is cut")]
    Truncated,
    /// A record is of another class than IN.
    #[error("a record is of another class than IN")]
    OtherClass,
    /// The owner of a record isn't at or below the origin.
    #[error("a record is outside the zone")]
    Outside,
    /// A record comes before the SOA record of the zone.
    #[error("a record comes before the SOA record")]
    NoSoa,
    /// An SOA record has another serial than is to come there: the zone changed meanwhile, or one difference doesn't follow another.
    #[error("an SOA record has another serial than is to come")]
    OtherSerial,
    /// A record comes behind the end of the answer.
    #[error("a record comes behind the end")]
    BehindEnd,
    /// A growth that the allocator refused.
    #[error("out of memory")]
    Memory,
}

/// Want of memory is `Memory`.
impl From<ProtoError> for AnswerFault {
    ghost use Rattle.transfer_reading.specs.declared.fault.AnswerFault.TheVariants.{Memory};

    ghost from_gives = { λ _ e. e ≡ Memory };

    fn from(_: ProtoError) -> AnswerFault {
        AnswerFault::Memory
    }
}

/// Want of memory is `Memory`.
impl From<AllocError> for AnswerFault {
    ghost use Rattle.transfer_reading.specs.declared.fault.AnswerFault.TheVariants.{Memory};

    ghost from_gives = { λ _ e. e ≡ Memory };

    fn from(_: AllocError) -> AnswerFault {
        AnswerFault::Memory
    }
}

/// Why an answer says nothing.
#[derive(Clone, Copy, PartialEq, Eq, Debug, Error)]
pub enum OutcomeFault {
    /// The answer isn't at its end.
    #[error("the answer isn't at its end")]
    Incomplete,
    /// A difference takes out a record that isn't there.
    #[error("a record that a difference takes out isn't there")]
    NotThere,
    /// A difference gives a record that is there already.
    #[error("a record that a difference gives is there already")]
    AlreadyThere,
    /// A growth that the allocator refused.
    #[error("out of memory")]
    Memory,
}

/// Want of memory is `Memory`.
impl From<ProtoError> for OutcomeFault {
    ghost use Rattle.transfer_reading.specs.declared.fault.OutcomeFault.TheVariants.{Memory};

    ghost from_gives = { λ _ e. e ≡ Memory };

    fn from(_: ProtoError) -> OutcomeFault {
        OutcomeFault::Memory
    }
}

/// Want of memory is `Memory`.
impl From<AllocError> for OutcomeFault {
    ghost use Rattle.transfer_reading.specs.declared.fault.OutcomeFault.TheVariants.{Memory};

    ghost from_gives = { λ _ e. e ≡ Memory };

    fn from(_: AllocError) -> OutcomeFault {
        OutcomeFault::Memory
    }
}

/// Want of memory is `Memory`; the value that found no room is dropped.
impl<T: Drop> From<AllocFailed<T>> for OutcomeFault {
    ghost use Rattle.transfer_reading.specs.declared.fault.OutcomeFault.TheVariants.{Memory};

    ghost from_gives = { λ _ e. e ≡ Memory };

    fn from(_: AllocFailed<T>) -> OutcomeFault {
        OutcomeFault::Memory
    }
}
