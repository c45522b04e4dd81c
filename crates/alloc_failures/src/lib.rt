//! Takes all memory that the process can get, and leaves a stated amount, so that a test can see what a call answers when an
//! allocation is refused. Each test is a separate process, so no other is disturbed.
#![tactic(auto)]

mod calls;
mod scarcity;

pub use calls::{scarce_answer, until_given};
pub use scarcity::Scarcity;
