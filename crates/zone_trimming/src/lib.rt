//! The NSEC and NSEC3 sets of a zone that goes to other servers and to validators, as the standards require them where those
//! made for a zone of this library have more: the type lists at delegations (RFC 4035 section 2.3, RFC 5155 section 7.1), and
//! NSEC3PARAM, which has no flags (RFC 5155 section 4.1.2).
#![tactic(auto)]

pub mod laws;
mod trimming;

pub use trimming::trimmed;
