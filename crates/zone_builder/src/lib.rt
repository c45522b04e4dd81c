//! Zones made from the records of zone files (RFC 1035 section 5.2): each set with its signatures, checked for what makes a
//! zone.
//!
//! [`load`] makes a zone of records, or says why none can be made; what it takes otherwise than it is in the file is
//! told as warnings. A signed file keeps its signatures and its denials.
#![tactic(auto)]

mod apex;
mod checks;
mod denials;
mod fault;
mod filling;
mod given;
mod grouping;
mod groups;
mod loading;
mod nsec3_data;
mod repeats;
mod sets;
mod warning;

pub use denials::denial_kind;
pub use fault::{LoadFault, MOST_ITERATIONS};
pub use given::{GivenRecord, RecordAt};
pub use loading::{Loaded, load};
pub use warning::LoadWarning;
