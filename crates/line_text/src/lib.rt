//! Records as text: the words of a line, what is read from them (numbers, octets in hex, addresses, names, types, data,
//! records), and how records are printed.
//!
//! A line is a list of octets, its words are separated by spaces and tabs, and a reader takes the words that it needs. Words
//! that aren't of the form that is read are refused with `BadText`, and a growth that the allocator refused with `Memory`.
#![tactic(auto)]

mod addresses;
mod data;
mod error;
mod hex;
pub mod laws;
mod names;
mod numbers;
mod parts;
mod record;
mod words;

pub use addresses::{read_ipv4, read_ipv6};
pub use data::{DataText, read_data};
pub use error::TextError;
pub use hex::{HexText, read_hex};
pub use names::{read_key, read_name, read_type};
pub use numbers::{read_u8, read_u16, read_u32};
pub use record::{RecordText, read_record};
pub use words::Words;
