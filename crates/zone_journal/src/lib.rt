//! The journal of a zone: its steps from version to version, each as the records of an incremental transfer (RFC 1995 section 4) in DNS messages,
//! and the zone that a journal leads to.
//!
//! An entry is a series of messages, as `message_series` writes them. Their answers are the older SOA, the sets that are deleted, the newer SOA and the
//! sets that are added: of each set the records, and then its signatures. Entries stand in the frames of `journal_frames`, one in each. The
//! README of this crate says what a program has to do with the file.
#![tactic(auto)]

mod entry_reader;
mod entry_writer;
mod fault;
mod grouping;
mod groups;
pub mod laws;
mod parting;
mod pushing;
mod replaying;
mod shortening;
mod writable;

pub use entry_reader::read_entry;
pub use entry_writer::write_entry;
pub use fault::EntryFault;
pub use pushing::push_step;
pub use replaying::{ReplayFault, replayed, steps_of};
pub use shortening::journal_from;
