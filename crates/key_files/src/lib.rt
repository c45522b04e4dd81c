//! Files of keys, as the programs of other servers print them: `tsig-keygen` of BIND, `keymgr -t` of Knot DNS, and the `key:` blocks of NSD.
//!
//! [`read_keys`] reads the keys of a text: of each its name, its algorithm and its secret. A text that isn't of this form is refused for
//! its first fault, with the line and the column of the word that is at fault; its words are in no message, since one may be a secret.
//!
//! A word is a run of octets other than spaces, tabs, line breaks, quotes, braces and semicolons, which only separate words. What follows `#`
//! on a line is a comment. The word `key:` and a hyphen that stands alone say nothing. Each key is written by six words: `key`, `name:` or
//! `id:` and its name; and in either order `algorithm` or `algorithm:` and the name of that (RFC 8945 section 6), and `secret` or `secret:`
//! and the octets in base64 (RFC 4648 section 4).
#![tactic(auto)]

mod entry;
mod fault;
mod place;
mod reading;
mod words;

pub use entry::KeyEntry;
pub use fault::{KeyFileError, KeyFileFault, KeyFileReason};
pub use message_hmac::{Algorithm, Secret};
pub use reading::read_keys;
pub use zone_scanner::Place;
