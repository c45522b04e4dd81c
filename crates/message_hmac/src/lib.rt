//! Codes that authenticate messages (MACs): HMAC (RFC 2104) by the hash functions of FIPS 180-4 that TSIG has names for (RFC 8945
//! section 6), the comparison of codes, and secrets, which are wiped where they are let go.
#![tactic(auto)]

mod algorithm;
mod hmac;
mod same;
mod secret;

pub use algorithm::Algorithm;
pub use hmac::mac;
pub use same::same_octets;
pub use secret::Secret;
