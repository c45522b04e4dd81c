//! The record sets of a zone in one ordered map: how records are inserted, and what a search finds: the referral at a zone cut
//! (RFC 1034 section 4.2.1), the set of a name, that of a wildcard (RFC 4592), and the type that is chosen for ANY (RFC 8482).
//! `zone_store` is built on it; its users need nothing of it.
//!
//! Contracts see the map as the list of its sets by name and type, in the order of names. An insertion that answers false
//! or is refused leaves it as it was.
#![tactic(auto)]

mod at_name;
mod copies;
mod counter;
mod denial_index;
mod denial_owners;
pub mod direct;
mod keys_ahead;
mod new_sets;
mod owner_index;
mod record_map;
pub mod wildcard;

pub use copies::put_copy;
pub use counter::{Counter, Reads, Searches};
pub use denial_owners::{DenialOwners, LastOwners};
pub use keys_ahead::KeysAhead;
pub use new_sets::NewSets;
pub use record_map::{RecordMap, Replaced, is_denial_type};
pub use zone_frozen::{SetMap, SetRange};
