//! The NSEC3 sets of a zone that a change of it makes others (RFC 5155 section 7.1): those of the names that the change affects, and of the nearest
//! owner before each of these in the order of the digests. Each other owner keeps its set.
#![tactic(auto)]

mod affected;
mod affecting;
mod around;
mod authority;
mod entries;
mod hashes;
pub mod laws;
mod named;
mod nearest;
mod places;
mod renew_fault;
mod renewals;
pub mod types;

pub use affected::affected_names;
pub use hashes::{RenewedHashes, renewed_hashes};
pub use named::gets_set;
pub use renew_fault::RenewFault;
