//! DNS messages read from their octets (RFC 1035 section 4.1): whole messages, queries as a server takes them, and the data of
//! records of every type.
//!
//! What octets say is defined once, by reading them (`specs/`); each call is proved to give exactly that. A call that takes
//! memory answers a `Result`, and where a growth is refused it answers `Memory`.
#![tactic(auto)]

mod data;
mod denial_data;
mod error;
mod extension;
mod fields;
mod header;
mod header_reader;
mod message;
mod message_reader;
mod name_octets;
mod names;
mod octets;
mod options;
mod other_data;
mod query;
mod query_reader;
mod question;
mod record_frame;
mod service_data;
mod signing_data;
mod start_of_authority;
mod type_map;
mod unread;

pub use data::{data_of, plain_data_of};
pub use error::{MessageError, ReadError};
pub use fields::{Fields, fields_of};
pub use header::{HEADER_OCTETS, Header};
pub use header_reader::read_header;
pub use message::Message;
pub use message_reader::{read_first_authority, read_message};
pub use name_octets::lead;
pub use names::{name_of, plain_name_of};
pub use octets::{long_of, octet_of, octets_of, offset_of, short_of};
pub use query::{Extension, Query};
pub use query_reader::read_query;
pub use question::{Question, question_of};
pub use record_frame::{RecordFrame, record_frame_of};
pub use type_map::types_of;
pub use unread::{behind_owner, behind_questions};
