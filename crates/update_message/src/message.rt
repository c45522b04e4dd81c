//! Updates as they were read.
ghost use Rattle.std.specs.Prelude.{◌≡◌};

use message_reading::Header;
use zone_proto::{Name, ProtoError};
use zone_update::Update;

/// An update of a zone, as its message has it.
#[derive(Debug, Drop)]
pub struct UpdateMessage {
    /// The header.
    pub header: Header,
    /// The zone that is to be updated, of class IN.
    pub zone: Name,
    /// What is wanted of it.
    pub update: Update,
    /// Whether there is an OPT record (RFC 6891), so that the response is to have one.
    pub has_extension: bool,
}

/// Why a message isn't read as an update.
#[derive(Clone, Copy, PartialEq, Eq, Debug)]
pub enum UpdateError {
    /// Fewer octets than a header has, a response, or another opcode: it is no update.
    NoUpdate,
    /// Not of the form of an update, with its header: FORMERR (RFC 2136 section 3.1.1).
    Malformed(Header),
    /// An update of a zone of another class than IN, with its header: NOTAUTH (section 3.1.2).
    OtherClass(Header),
    /// A growth that the allocator refused.
    Memory,
}

/// Want of memory is `Memory`.
impl From<ProtoError> for UpdateError {
    ghost use Rattle.update_message.specs.declared.message.UpdateError.TheVariants.{Memory};

    ghost from_gives = { λ _ e. e ≡ Memory };

    fn from(_: ProtoError) -> UpdateError {
        UpdateError::Memory
    }
}
