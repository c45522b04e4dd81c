//! What is found among the record sets of a zone: what a search finds, lent or made, chains of aliases (RFC 1034 section 3.6.2),
//! additional records (section 3.7), and ANAME; and the sets and signers themselves, with what changes them. A server answers
//! from it, and so does `zone_store`, which re-exports what its users need. The module `laws` has laws of the definitions.
//!
//! Contracts see it as the list of its sets by name and type, and its signers. An insertion that answers false, and any call
//! that is refused, changes nothing.
#![tactic(auto)]

mod additionals;
mod chain;
mod flattening;
mod found;
mod inner_in_memory;
pub mod laws;
mod listed_sets;
mod no_signer;
mod seen_names;
pub mod start_of_authority;
mod zone_error;

#[doc(hidden)]
pub use additionals::{next_name, run_target};
#[doc(hidden)]
pub use chain::{MAX_CHAIN, cname_target, into_sets};
#[doc(hidden)]
pub use flattening::{flattened, stands_for_addresses};
pub use found::{Found, Outcome};
pub use inner_in_memory::InnerInMemory;
pub use no_signer::NoSigner;
pub use zone_error::ZoneError;
pub use zone_map::Searches;
