//! Messages answered from a database of zones by a server with keys (TSIG, RFC 8945), and the zones of the database sent to those who may have
//! them (RFC 5936). A zone that is being sent is the one of the beginning, whatever the database has in its place meanwhile.
#![tactic(auto)]

mod access;
mod answering;
mod held_transfer;
pub mod laws;

pub use access::{Grant, TransferAccess};
pub use answering::{KeyedAnswer, answer_with_keys};
pub use held_transfer::HeldTransfer;
