//! Which of many zones is the nearest at or above a name (RFC 1034 section 4.3.2 step 2), by an ordered map of their origins.
#![tactic(auto)]

mod origins;

pub use origins::nearest;
