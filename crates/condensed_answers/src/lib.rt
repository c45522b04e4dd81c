//! What answers a secondary that is several versions behind (IXFR, RFC 1995 section 5): `condensed_messages` writes all messages of the steps that it lacks,
//! condensed into one where there are two or more.
//!
//! By the law of this crate it takes them, and has the newest version then.
#![tactic(auto)]

mod answers;
pub mod laws;

pub use answers::condensed_messages;
