//! The whole response of an authoritative server, section by section (RFC 1034 section 4.3.2): code, AA, the answer section
//! with chains of aliases and what a DNAME does to a name below it (RFC 6672), referrals with their DS sets and glue, the SOA
//! of a negative response, the NSEC or NSEC3 sets that prove what is said, and the additional section.
//!
//! Zones without DNSSEC are answered whole, and so are zones that deny by NSEC, and by NSEC3 with and without opt-out. The addresses
//! for which an ANAME stands in are signed for each response, by the zone's signers.
//!
//! Contracts see a response as its code and its sections, each a list of record sets as they are sent.
#![tactic(auto)]

mod additional;
mod aname;
mod answering;
mod apex_denials;
mod cursor;
mod denials;
mod descent;
mod dname;
mod dname_repeats;
mod hashed_denials;
mod hashed_sets;
pub mod laws;
mod lists;
mod names;
mod neighbours;
mod node_sets;
mod nodes;
mod paths;
mod query_types;
mod question;
mod response;
mod sections;
mod steps;
mod wildcards;

pub use answering::{respond, respond_counted};
pub use apex_denials::{is_missing_child, plain_apex};
pub use denials::hashed_query;
pub use hashed_sets::{covering, matching, matching_or_covering};
pub use query_types::is_no_data;
pub use question::{Question, ServedZone};
pub use response::{Part, Response, Sent};
pub use sections::negative_ttl;
