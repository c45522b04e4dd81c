//! The parameters of SVCB and HTTPS records as zone files write them (RFC 9460 section 2.1): words of a key and a value, read one
//! after the other, and the octets that they are in data.
//!
//! Keys are read by the names that have been given to them up to `ohttp`, and by their numbers. Nothing is kept of how a word
//! was written.
#![tactic(auto)]

mod fault;
mod items;
mod keys;
mod parameter;
mod parameters;
mod values;

pub use fault::{ParameterError, ParameterFault};
pub use parameters::Parameters;
