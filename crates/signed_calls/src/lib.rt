//! Updates of signed zones for a program that isn't written in Rattle: the zone after an update is planned, the program has its keys sign what is
//! new there, and gets what the zone's journal is to have. The update is committed as any other. With NSEC it is made in the version of the zone that is
//! to take its place, at the cost of its names, where it changes no more than those (`signed_versions`).
#![tactic(auto)]

mod asking;
pub mod laws;
mod outcome;
mod preparing;
mod signed_zone;
mod signing;
mod telling;
mod versions;

pub use outcome::PrepareOutcome;
pub use preparing::prepare;
pub use signed_zone::SignedZone;
pub use signing::sign;
