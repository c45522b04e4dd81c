//! An update of a signed zone with NSEC (RFC 2136, RFC 4035 section 2.3) that makes nothing anew but what it touches: the version of the zone that takes
//! its place is changed in place, beside the one that is served.
//!
//! [`begin_update`] plans an update where it is permitted, and [`begin_change`] changes that version and plans its signatures, blank ones of the sets that
//! get others. `push_frames` of `zone_planning` gives the octets that they are made of, and [`finish_change`] puts signatures in and gives all that changed,
//! for a journal and for the version after the next.
#![tactic(auto)]

mod beginning;
mod denials;
mod dnames;
mod finishing;
mod keys;
pub mod laws;
mod locality;
mod names;
mod updating;

pub use beginning::{Begun, PreparedChange, begin_change};
pub use denials::ttl_and_serial;
pub use dnames::meet_dname;
pub use finishing::finish_change;
pub use keys::{has_keys, keeps_keys, keeps_records};
pub use locality::{keeps_denial_ttl, owns};
pub use names::{push_once, push_owners};
pub use updating::{UpdateFault, are_of_their_types, begin_update};
