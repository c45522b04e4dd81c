//! Records printed in the form of zone files (RFC 1035 section 5.1), so that `zone_file` reads them back as the same records.
#![tactic(auto)]

mod addresses;
mod bare_words;
mod data;
mod denial;
mod fields;
mod fronts;
mod hosts;
mod labels;
pub mod laws;
mod locations;
mod moments;
mod octets;
mod other;
mod pairs;
mod parameters;
mod prefixes;
mod record;
mod rows;
mod sets;
mod signing;
mod start_of_authority;
mod strings;
mod type_lists;
mod types;

pub use record::MasterText;
pub use sets::MasterSetText;
