//! The steps that a server keeps of its zones, and zones that are sent by them (IXFR, RFC 1995 section 4) to those who may have them whole.
//!
//! `HeldSteps::note` is told of each version of a zone that is put in place of another. Where `answer_with_keys` of `held_transfers` lets a zone be sent,
//! `HeldAnswer::shorten` has the steps go out in its place that the one who asks lacks, if they are kept, condensed into one (section 5): with the same
//! TSIG, message by message. Who may have what is decided before, for the whole zone.
#![tactic(auto)]

mod held_answer;
mod histories;
mod history;
mod lacking;
pub mod laws;
mod sealing;
mod serial;

pub use held_answer::HeldAnswer;
pub use histories::HeldSteps;
pub use history::ZoneHistory;
