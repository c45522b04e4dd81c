//! Whether the NSEC or NSEC3 sets of a zone form a chain: one through all names that the zone is authoritative for, with the
//! right next names and the right type lists (RFC 4035 section 2.3, RFC 5155 section 7.1), as signers write it.
//!
//! [`verify_nsec`] and [`verify_nsec3`] say that they are, by the definition that the laws of denials take, or tell a fault.
#![tactic(auto)]

mod authoritative_keys;
mod chain_sets;
mod delegations;
mod fault;
mod lists;
mod nsec;
mod nsec3;
mod nsec3_links;
mod nsec3_name;
mod nsec3_names;

pub use fault::ChainFault;
pub use nsec::verify_nsec;
pub use nsec3::verify_nsec3;
