//! What a secondary makes of the messages of a zone that a primary sends (RFC 5936), each by its own definitions: it takes them, and has the zone
//! then.
#![tactic(auto)]

pub mod laws;
