//! What zones have that are signed as they were planned with NSEC3: a chain of NSEC3 sets, as everything that is proved about
//! negative answers takes for granted.
#![tactic(auto)]

pub mod laws;
