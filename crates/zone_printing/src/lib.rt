//! Zones printed as zone files (RFC 1035 section 5): the SOA first, and each set followed by its signatures.
#![tactic(auto)]

mod zone_text;

pub use zone_text::MasterZoneText;
