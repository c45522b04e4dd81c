//! Zones signed with keys that never enter the program: it writes what has to be signed, and puts the signatures in.
//!
//! `make_plan` of `zone_planner` secures a zone by signers whose signatures are blank ([`PlanSigner`]). For each of these, in order,
//! [`push_frames`] gives the octets that its signature is to be made of. [`finish`] puts signatures in the places of the blank
//! ones, one after the other.
#![tactic(auto)]

mod blank;
mod canonical;
mod fault;
mod finishing;
mod frames;
pub mod laws;
mod octet_data;
mod ordering;
mod plans;
mod signed_data;
mod signer;

pub use blank::blank_number;
pub use fault::{FinishFault, PlanFault};
pub use finishing::{Unfinished, finish, read_signatures};
pub use frames::{push_end, push_frames};
pub use octet_data::other_data;
pub use ordering::in_order;
pub use plans::Plan;
pub use signed_data::{push_records, push_set, push_signed_data};
pub use signer::PlanSigner;
