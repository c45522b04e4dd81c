//! The data of records as zone files write them (RFC 1035 section 5.1): the words of an entry, the fields that are read of them
//! one after the other, and a table of the fields that the data of each type are made of.
//!
//! A type that has a row in the table needs no code of its own: its data are the octets of its fields, in the order of the wire
//! form, each read from its words. A word that isn't of the form of its field is a fault with its place.
#![tactic(auto)]

mod fault;
mod field;
mod fields;
mod hosts;
mod lines;
mod locations;
mod names;
mod parameters;
mod parts;
mod prefixes;
mod rows;
mod signs;
mod table;
mod texts;
mod type_lists;
mod words;

pub use fault::{Fault, ReadError, Reason};
pub use field::{Ending, Field, Fields};
pub use fields::{
    is_of_messages, read_record_type, take_algorithm, take_ipv4, take_ipv6, take_moment,
    take_timer, take_ttl, take_type, take_u8, take_u16, take_u32,
};
pub use locations::{Axis, LATITUDE, LONGITUDE, read_location};
pub use names::take_name;
pub use parts::is_tag;
pub use prefixes::read_prefix;
pub use rows::take_row;
pub use table::{ROWS, Row, row_of};
pub use texts::{take_base64, take_generic};
pub use type_lists::take_types;
pub use words::Words;
