//! Zone files (RFC 1035 section 5, RFC 2308 section 4): the records of a text that comes in pieces.
//!
//! `ZoneReader` reads the entries of a text (`zone_scanner`), and each as a record or a control entry by what the
//! entries before it left (`Context`). A text that isn't a zone file is refused for its first fault, with its line and
//! column and the word that is there; `FaultText` tells it as a line of text.
#![tactic(auto)]

mod context;
mod data;
mod denials;
mod error;
mod fault_text;
mod input;
mod keys;
mod placed;
mod quoted_word;
mod records;
mod whole;
mod zone_reader;

pub use context::Context;
pub use error::{InputError, ZoneError, ZoneFault};
pub use fault_text::FaultText;
pub use input::read_zone;
pub use placed::PlacedRecord;
pub use record_fields::Reason;
pub use records::read_entry;
pub use whole::read_zone_text;
pub use zone_reader::ZoneReader;
