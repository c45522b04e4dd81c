//! Zones signed again: signatures of an earlier version of a zone that still hold, and that are made of the octets that would be signed,
//! stay, so that only the others have to be made.
//!
//! A plan of `zone_planning` has blank signatures. [`keep`] puts standing ones in their places, where they fit; what is left blank is
//! asked for and put in as before. [`push_standing`] hands over what stands, so that it can be verified.
#![tactic(auto)]

mod fitting;
mod keeping;
pub mod laws;
mod span;
mod standing;
mod usable;

pub use keeping::keep;
pub use span::Span;
pub use standing::{push_standing, push_standing_end};
