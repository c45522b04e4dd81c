//! What programs of rows share: the calls of files of rows are made, and those are reported that have another answer than the one that is
//! wanted.
#![tactic(auto)]

mod octets;
mod rows;

pub use octets::{octets_of, read_octets};
pub use rows::{Caller, report_files, unless_refused};
