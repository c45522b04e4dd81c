//! What a validator concludes from the records of a denial: the judgement of RFC 4035 section 5.4 and RFC 5155 section 8, by
//! these records alone.
//!
//! Signatures are not looked at: the records are taken as validated, with the apex as the name that signed them.
#![tactic(auto)]

mod asked_name;
mod hashed_owner;
pub mod nsec;
pub mod nsec3;
mod nsec3_encloser;
mod nsec3_judgement;
mod nsec3_parameters;
mod nsec3_record;
mod nsec3_records;
mod nsec3_referral;
mod nsec3_response;
mod nsec3_wildcard;
mod nsec_record;
mod nsec_records;
mod proof;

pub use proof::Proof;
