//! Ready answers: the responses of a zone to what is asked most, kept as the octets that go out, each beside its question.
//!
//! What is kept is what `zone_server` itself answers from the zone, so nothing here knows how a zone answers. It goes out again to a
//! query of the same question, in the case of its letters, that says the same by EDNS and may get as many octets.
#![tactic(auto)]

mod asking;
mod filling;
mod limits;
mod questions;
mod table;

pub use filling::ready_table;
pub use table::ReadyTable;
