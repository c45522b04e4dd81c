//! Why an answer to a signed question isn't taken.
ghost use Rattle.std.specs.Prelude.{◌≡◌};

use message_tsig::ResponseFault;
use thiserror::Error;
use transfer_reading::AnswerFault;
use zone_proto::ProtoError;

/// Why a message isn't taken as one of the answer to a signed question.
#[derive(Clone, Copy, PartialEq, Eq, Debug, Error)]
pub enum SignedFault {
    /// It isn't signed as it is to be.
    #[error("the message isn't signed as it is to be: {0:?}")]
    Wrong(ResponseFault),
    /// The primary refused the question, by a TSIG with this error.
    #[error("the primary refused the signature of the query with the error {0}")]
    Refused(u16),
    /// It is no message of the answer.
    #[error("{0}")]
    Answer(AnswerFault),
    /// A growth that the allocator refused.
    #[error("out of memory")]
    Memory,
}

/// Want of memory is `Memory`.
impl From<ProtoError> for SignedFault {
    ghost use Rattle.signed_transfers.specs.declared.fault.SignedFault.TheVariants.{Memory};

    ghost from_gives = { λ _ e. e ≡ Memory };

    fn from(_: ProtoError) -> SignedFault {
        SignedFault::Memory
    }
}
