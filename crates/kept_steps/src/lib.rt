//! The newest steps of a zone, as many as have so many records at most: what a server keeps to answer secondaries that hold an older version
//! (IXFR, RFC 1995).
//!
//! With each new version of the zone its step is put behind the others (`KeptSteps::push`), and where the zone is loaded anew, all are forgotten.
//! `KeptSteps::steps_from` gives the steps that a secondary lacks, for `difference_groups` of `difference_messages`; where there are none,
//! the zone goes out whole (section 4). By the laws of this crate and of `incremental_laws` a secondary takes them, and has the newest version then.
//! `held_steps` keeps them for the zones of a server.
#![tactic(auto)]

mod counting;
mod giving;
mod keeping;
pub mod laws;

pub use keeping::KeptSteps;
