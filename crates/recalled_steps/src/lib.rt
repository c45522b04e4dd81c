//! The steps that a server keeps of a zone (IXFR, RFC 1995), recalled from the zone's journal once it is started again: so a secondary that holds an older
//! version still gets what changed. `held_steps` keeps them for the zones of a server.
#![tactic(auto)]

pub mod laws;
mod recalling;

pub use recalling::{Recalled, recall_steps};
