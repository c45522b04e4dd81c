//! What a server does with the steps that it keeps of a zone (IXFR, RFC 1995): `note_version` puts the step to a new version behind them, and
//! `step_messages` writes all messages of the answer by which a secondary has that version, before the first of them goes out.
//!
//! The laws of this crate say that the steps lead to the version that was noted last, and what a secondary makes of the messages.
#![tactic(auto)]

mod answers;
pub mod laws;
mod noting;

pub use answers::step_messages;
pub use noting::{note_step, note_version};
