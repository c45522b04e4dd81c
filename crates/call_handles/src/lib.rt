//! What the crates share whose calls a program makes that isn't written in Rattle: values whose pointers it keeps, and octets that are
//! written into a room of its own.
#![tactic(auto)]

mod handle;
mod nullable_box;
mod raw_box;
mod room;

pub use handle::Handle;
pub use nullable_box::NullableBox;
pub use raw_box::RawBox;
pub use room::{write_cut, write_front};
