//! Responses that were written once, and go out again to queries that ask the same (RFC 1035 section 4.1).
#![tactic(auto)]

mod again;

pub use again::put_again;
