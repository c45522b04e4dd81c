//! A name server without its sockets: from the octets of a query to those of the response (RFC 1035 section 4), and frames of
//! messages answered over any reader and writer.
//!
//! What a message says is defined in `message_reading`, what a zone answers in `zone_response`, and what is written in `message_writing`;
//! here these meet.
#![tactic(auto)]

mod answering;
mod bare_header;
mod frames;
mod groups;
mod listed_zones;
mod sending;
mod server;
mod serving;
mod transfer_policy;
pub mod transfer_records;
mod transfer_reply;
mod transfer_writer;
mod transfers;
mod transport;
mod waiting;
mod zones;

pub use answering::{Answered, answer, answer_from, answer_read_from, asks_for_dnssec};
pub use bare_header::{MALFORMED, write_bare_header};
pub use frames::{Frame, Mode, frame_of};
pub use groups::{keep_set, put_set};
pub use listed_zones::ListedZones;
pub use sending::{send_code, send_soa};
pub use server::Server;
pub use serving::{READ_OCTETS, serve_frames};
pub use transfer_policy::TransferPolicy;
pub use transfer_reply::{TransferReply, asks_for_transfer, client_serial, reply_to, soa_key};
pub use transport::{DATAGRAM_SIZE, Transport, limit_for, limit_without_opt};
pub use waiting::Stop;
pub use zones::ServedZones;
