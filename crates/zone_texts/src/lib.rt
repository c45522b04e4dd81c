//! Zone files of several texts (RFC 1035 section 5): those that `$INCLUDE` names, the records that `$GENERATE` stands for, and all
//! faults of them, for programs that tell more than the first.
//!
//! No file is opened here: a program gives the texts of files by their names (`Texts`).
#![tactic(auto)]

mod cuts;
mod directives;
mod fault;
mod files;
mod generate;
mod lines;
mod names;
mod numbers;
mod pattern;
mod reading;
mod sources;
mod state;
mod texts;

pub use fault::{FaultLine, FaultLines, FileFault, What};
pub use files::{FilesError, MOST_TOLD, read_files};
pub use names::name_beside;
pub use sources::{Chain, FilePlace, Sources, ToldLine};
pub use state::Reading;
pub use texts::Texts;
