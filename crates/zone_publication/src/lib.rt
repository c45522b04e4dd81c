//! What an operator has to know of a zone before it is published: delegations that aren't whole, hosts without addresses, data that
//! are never answered, requests to the parent without a key, and signatures that are missing or don't hold at a moment. Nothing is asked of the network, and no
//! signature is verified.
//!
//! Each rule is a definition of its own over the sets of the zone, and what is found is exactly what these say.
#![tactic(auto)]

mod checking;
mod dates;
mod delegations;
mod finding;
mod names;
mod requests;
mod signatures;
mod targets;

pub use checking::check;
pub use dates::Period;
pub use finding::{Finding, What};
