//! Responses written as DNS messages (RFC 1035 section 4.1), with compression, within a limit of octets; and the wire form of a
//! record's data alone.
//!
//! What octets say is defined by reading, in message_reading. What is written is said by reading alone: it reads back as what it was
//! written of, whatever follows it. A call that takes memory answers a `Result`, and where a growth is refused it answers `Memory`.
#![tactic(auto)]

mod data_writer;
mod denial_writer;
mod error;
mod fingerprints;
mod front_writer;
mod group_writer;
mod hints;
mod kept_records;
mod known_names;
mod message_parts;
mod name_writer;
mod numbers;
mod plain_data;
mod record_writer;
mod response;
mod response_writer;
mod singles;
mod type_map;
mod whole_response;
mod writable;

pub use error::WriteError;
pub use front_writer::write_front;
pub use kept_records::{KeptRecords, keep_records};
pub use numbers::{push_long, push_short};
pub use plain_data::push_plain_data;
pub use response::{Group, Response, ResponseHead, Section};
pub use response_writer::ResponseWriter;
pub use singles::push_records;
pub use type_map::push_types;
pub use whole_response::write_response;
