//! Messages answered with options of EDNS, and what their answers were, for a program that isn't written in Rattle and keeps zones behind a
//! handle of `zone_database`.
#![tactic(auto)]

mod answering;
mod client;
mod responding;
mod secrets;
mod summary_numbers;

pub use client::{ClientMessage, ServerSettings, answer_client};
pub use summary_numbers::SummaryNumbers;
