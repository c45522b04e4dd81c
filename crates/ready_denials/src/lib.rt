//! Name errors of a zone (RFC 2308 section 2.1) by what is kept of it: of a name one label below the origin that doesn't exist, the SOA set as the octets that
//! go out, and what of the proof is the same for each of these names (RFC 4035 section 3.1.3.2, RFC 5155 section 7.2.2), so that one set alone is looked
//! for.
#![tactic(auto)]

mod denying;
mod kept_denials;

pub use denying::put_denial;
pub use kept_denials::{ReadyDenial, ready_denial};
