//! The store of an authoritative zone: its record sets in one ordered map, what makes and changes it, what a search finds
//! (referrals at zone cuts, RFC 1034 section 4.2.1, the sets of a name, and those of wildcards, RFC 4592), chains of aliases
//! (RFC 1034 section 3.6.2), additional records (section 3.7), ANAME, what a lookup answers, transfers (RFC 5936), the signing
//! of a zone (RFC 4035 section 2), and denial by NSEC (RFC 4034 section 4) and by NSEC3 (RFC 5155). The module `laws` has laws
//! of the definitions. How a search is done and how a found set is answered is in `zone_lookup`, whose items are re-exported
//! here.
//!
//! Contracts see a zone as its origin, class, kind and policy, the list of its sets by name and type, and its signers. An
//! insertion that answers false, and any call that is refused, leaves the zone as it was.
#![tactic(auto)]

mod answering;
mod construction;
mod in_memory_zone_handler;
pub mod laws;
mod put_refused;
mod transfer;

pub use in_memory_zone_handler::InMemoryZoneHandler;
pub use put_refused::PutRefused;
pub use zone_lookup::{Found, InnerInMemory, Searches, ZoneError};
