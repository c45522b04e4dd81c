//! Plans of zones that are held while their signatures are made, by keys that never enter the program: what is to be signed is handed
//! out, the signatures come in, and the signed zone is made.
#![tactic(auto)]

mod asking;
mod copies;
mod held_plan;
mod keys;
pub mod laws;

pub use asking::AskedSignature;
pub use held_plan::{HeldPlan, serial_under};
pub use keys::read_keys;
