//! Messages of dynamic updates (RFC 2136): read from their octets (section 2), and the octets of their responses (section 3.8).
//!
//! What octets say is defined once, by reading them (`specs/`); the call is proved to give exactly that.
#![tactic(auto)]

mod message;
mod reader;
mod response;

pub use message::{UpdateError, UpdateMessage};
pub use reader::{OPCODE, read_update};
pub use response::write_response;
