//! Zone files with those that they include, for a program that isn't written in Rattle: it gives texts by the names of files, and is told
//! which others it is to give.
#![tactic(auto)]

mod calls;
mod handle;
mod loading;
mod outcome;
mod reading;
mod reporting;

pub use calls::{free, lack, next, put};
pub use handle::FilesHandle;
pub use loading::load;
pub use outcome::FileOutcome;
