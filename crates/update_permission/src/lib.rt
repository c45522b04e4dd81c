//! Updates of a zone by those who may make them (RFC 2136 section 3.3): an update is carried out where a table of rules permits each of
//! its changes to who asks for it, and is refused otherwise.
#![tactic(auto)]

pub mod laws;
mod permission;
mod updating;

pub use permission::is_permitted;
pub use updating::updated_if_permitted;
