//! The words of zone files (RFC 1035 section 5.1), each read by itself: names relative to an origin, TTLs with units, types,
//! classes and algorithms by word or number, addresses, times, strings with escapes, hex, base64 and base32hex.
//!
//! A word is its octets as they are in the text, with its escapes. A call answers None if the word isn't what it reads,
//! and an error where there isn't enough memory. What stands where in an entry is for the crate above.
#![tactic(auto)]

mod addresses;
mod base32;
mod digests;
mod moments;
mod names;
mod registry;
mod strings;
mod ttls;
mod types;

pub use addresses::{read_ipv4_word, read_ipv6_word};
pub use base32::read_base32;
pub use digests::{read_base64, read_hex_digits, read_salt};
pub use moments::read_moment;
pub use names::read_name_under;
pub use strings::{read_octets, read_string};
pub use ttls::{read_timer, read_ttl};
pub use types::{
    read_algorithm, read_certificate_type, read_class, read_digest_type, read_type_word, to_upper,
};
