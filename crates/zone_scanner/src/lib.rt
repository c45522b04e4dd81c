//! Zone files (RFC 1035 section 5) as text: octets are split into entries, and an entry into words, each with its place in the
//! text. What the words mean is up to the crates above.
//!
//! The octets may come in pieces of any length: `EntryReader` gives the entries of the whole text, and keeps the words of one
//! entry alone. A text that can't be cut is refused for its first fault, with the place where that is.
#![tactic(auto)]

mod entry;
mod fault;
mod place;
mod reader;
mod rules;
mod signs;

pub use entry::{Entry, Word};
pub use fault::{EntryError, EntryFault, EntryReason};
pub use place::Place;
pub use reader::EntryReader;
