//! Makes the calls of rows that don't need a zone of their own: on names, records, answers, refusals and words, and those of a
//! handler through its trait. What they answer is written as text into memory that is allocated at the start.
#![tactic(auto)]

mod answers;
mod handlers;
mod hashes;
mod iterators;
mod names;
mod records;
mod refusals;
mod steps;
mod texts;
mod values;
mod words;
mod write;

pub use handlers::make_handler_call;
pub use iterators::write_records;
pub use texts::{write_made_set, write_set, write_set_handed_out, write_set_if_any};
pub use values::make_value_call;
pub use write::Answer;
