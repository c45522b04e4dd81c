//! A signed zone changed in place, with NSEC: its chain is closed again (RFC 4035 section 2.3), and nothing is made anew or signed of what the change
//! doesn't touch.
//!
//! Once what an update changes is carried out in the zone (`update_in_place`), [`renew_chain`] puts the NSEC sets that this makes others in the place of
//! those that stand. Then [`plan_change`] gives the sets that are to be signed, with blank signatures, so that `push_frames` and `finish` of `zone_planning`
//! serve on these alone, and [`put_signed`] puts them in. Each set is put in by its key.
#![tactic(auto)]

pub mod laws;
mod planning;
mod renewing;
mod signing;

pub use planning::{plan_change, put_signed};
pub use renewing::{put_renewed, renew_chain};
pub use signing::due_sets;
