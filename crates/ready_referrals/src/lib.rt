//! Referrals (RFC 1034 section 4.3.2 step 3b) by what is kept of a zone: each name at or below a zone cut is referred alike, so the sets of that response
//! are kept for each cut as the octets that go out, the glue too (RFC 9471), and with DNSSEC the DS set or what proves that there is none (RFC 4035
//! section 3.1.4, RFC 5155 section 7.2.7).
#![tactic(auto)]

mod additional;
mod hints;
mod keeping;
mod kept_cuts;
mod kept_sets;
pub mod laws;
mod referring;

pub use keeping::ReadyReferral;
pub use kept_cuts::{ReadyReferrals, ready_referrals};
pub use referring::put_referral;
