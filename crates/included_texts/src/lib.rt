//! The texts of files that a zone file includes, kept by their names for a program that isn't written in Rattle: it is told which are
//! wanted, and gives them.
#![tactic(auto)]

mod kept;
mod texts;

pub use kept::{KeptFile, KeptTexts, Lack};
pub use texts::FileTexts;
