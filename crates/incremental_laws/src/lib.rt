//! What a secondary makes of a zone that a transfer sends, whole (RFC 5936) or by its steps (RFC 1995 section 4): it takes it, and has the newest
//! version then.
#![tactic(auto)]

pub mod laws;
