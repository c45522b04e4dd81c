//! The NSEC sets of a zone that a change of it makes others (RFC 4035 section 2.3): those of the names that the change is about, of the names below a
//! zone cut that comes or goes, and of the nearest name before the owner of each set that comes or goes. Each other name keeps its set.
#![tactic(auto)]

mod authority;
mod changed;
mod entries;
pub mod laws;
mod renewing;
mod touched;

pub use authority::{is_below_cut, is_cut};
pub use changed::changed_chain;
pub use renewing::{RenewedSets, renewed_sets};
