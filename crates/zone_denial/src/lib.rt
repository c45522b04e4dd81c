//! How a zone denies what it doesn't have: the names that it is authoritative for (RFC 4035 section 2.3), the NSEC sets that
//! link them in a chain (RFC 4034 section 4), or the NSEC3 sets that link their digests (RFC 5155), and the sets that answer a
//! query for a denial. `zone_store` is built on it; its users need nothing of it.
//!
//! Contracts see a zone as the list of its sets by name and type. A call that is refused changes nothing.
#![tactic(auto)]

pub mod authoritative_keys;
pub mod chain_sets;
pub mod closest;
pub mod denial;
mod hashed_names;
mod key_runs;
pub mod laws;
mod listed_types;
pub mod nsec3_denial;
mod nsec3_keys;
mod nsec3_names;
pub mod nsec3_sets;
mod nsec3_standing;
pub mod nsec_sets;
mod nsec_standing;
mod only_data;
pub mod owner_order;
mod type_list;
pub mod type_word;
