//! Answers to the signed questions of a secondary (RFC 8945 sections 5.3.1 and 5.4): each message is checked by `message_tsig` and taken by
//! `transfer_reading`.
#![tactic(auto)]

mod fault;
mod signed_transfer;

pub use fault::SignedFault;
pub use signed_transfer::SignedTransfer;
