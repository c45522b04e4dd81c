//! Keys, who may have zones, zones that are sent message by message, and the steps from version to version that go out in their place, for a
//! program that isn't written in Rattle and keeps zones behind a handle of `zone_database`.
#![tactic(auto)]

mod access;
mod access_handle;
mod beginning;
mod grants;
mod outcome;
mod sending;
mod steps;
mod steps_handle;
mod transfer_handle;

pub use access::{allow, free_access, read_access};
pub use access_handle::AccessHandle;
pub use beginning::begin;
pub use outcome::TransferOutcome;
pub use sending::{free, next};
pub use steps::{free_steps, new_steps, note_zone, shorten};
pub use steps_handle::StepsHandle;
pub use transfer_handle::TransferHandle;
