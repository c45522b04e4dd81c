//! Options of EDNS (RFC 6891 section 6.1.2): those of a query, found in its OPT record, and those that a response gets, put into the OPT
//! record with which it ends.
#![tactic(auto)]

mod finding;
mod putting;

pub use finding::{opt_of, option_value};
pub use putting::{ends_with_opt, push_option, put_options};

/// COOKIE (RFC 7873 section 4).
pub const COOKIE: u16 = 10;

/// Extended DNS error (RFC 8914 section 2).
pub const EXTENDED_ERROR: u16 = 15;

/// NSID, the name server identifier (RFC 5001 section 2.3).
pub const NSID: u16 = 3;
