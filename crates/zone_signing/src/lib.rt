//! The signatures of record sets (RFC 4034 section 3), and a zone's sets after the zone is secured: with the next serial and
//! signed anew. `zone_store` is built on it; its users need nothing of it.
//!
//! Contracts see a signer as a function of what it signs and of the moment. A call that is refused changes nothing.
#![tactic(auto)]

pub mod keeping;
pub mod securing;
pub mod signatures;
