//! Updates of signed zones of a database (RFC 2136) at the cost of the names that they touch: each is made in the version of the zone that is to take its
//! place, beside the one that is served.
//!
//! [`begin_version`] makes an update in that version and closes its chain of NSEC sets again. Its [`plan`](WaitingVersion::plan) has the sets whose
//! signatures are to be made, of which `push_frames` of `zone_planning` gives the octets; [`finish`](WaitingVersion::finish) puts signatures in, and
//! `commit_update` of `held_updates` has the zone take its place. [`begin_asked_version`] begins so what a message asks for that is signed under a key.
#![tactic(auto)]

mod asking;
mod beginning;
mod finishing;
mod waiting;

pub use asking::begin_asked_version;
pub use beginning::{BegunVersion, begin_version};
pub use finishing::VersionFault;
pub use waiting::WaitingVersion;
