//! The digest of a zone (RFC 8976): what it is made of, and the zone's ZONEMD record.
#![tactic(auto)]

mod digests;
mod owners;
mod putting;
mod signatures;
mod verifying;
mod zone_text;

pub use digests::{DigestAlgorithm, zone_digest, zonemd_data};
pub use putting::put_digest;
pub use verifying::{DigestFault, digest_fault};
pub use zone_text::{ZONEMD, push_zone};
