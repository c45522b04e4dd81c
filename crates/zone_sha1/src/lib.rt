//! SHA-1 as a hash of names for NSEC3 records (RFC 5155 section 5).
#![tactic(auto)]

mod sha1_hash;

pub use sha1_hash::Sha1Hash;
