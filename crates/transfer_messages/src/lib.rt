//! Zones that are sent message by message (RFC 5936), to those who may have them, signed as the request was (TSIG, RFC 8945).
//!
//! Each message is made when it is asked for: nothing of the zone is copied, and between two messages no more is kept than the place where
//! the next one begins, and how far the response is signed. `open` checks the TSIG of a message and reads it, `begin` finds out what is
//! answered to a request for a zone, which the caller has looked up, and `next` of an `OpenTransfer` makes one message after the other, from
//! the zone that the caller keeps meanwhile.
#![tactic(auto)]

mod advancing;
mod ahead;
mod beginning;
mod coming;
mod grants;
pub mod laws;
mod open_transfer;
mod opening;
mod place;
mod sealing;
mod transfer;

pub use beginning::{Begun, begin};
pub use grants::is_granted;
pub use open_transfer::{OpenTransfer, ROOM};
pub use opening::{Opened, Request, open};
pub use place::Place;
pub use sealing::{Sealing, seal};
pub use transfer::{Transfer, TransferFault, write_message};
