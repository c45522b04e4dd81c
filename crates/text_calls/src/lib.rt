//! Zones written as zone files, for a program that isn't written in Rattle: what updates made of a zone is kept as a file, so that its journal can
//! begin anew.
#![tactic(auto)]

mod calls;

pub use calls::write_zone;
