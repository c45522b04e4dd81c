//! Journals in files: frames are put behind those that are there, and outlast whatever happens from then on.
//!
//! What a failed write left of a frame is taken back, and where that fails too no more frames are taken: so what is read of the file once it is opened
//! again is whole frames, up to a last one that may be torn, which is cut off then.
#![tactic(auto)]

mod file;
mod journal;

pub use file::JournalFile;
pub use journal::{AppendFault, Journal};
