//! The plain values of a lookup: what a client asks for beside the records, why a lookup has none, why a zone isn't secured, and
//! the query that NSEC3 records are to deny (RFC 5155 section 7.2).
//!
//! No call of this crate takes memory but those that hash a name.
#![tactic(auto)]

mod lookup_error;
mod lookup_options;
mod net_error;
mod nsec3_query_info;
mod secure_error;

pub use lookup_error::LookupError;
pub use lookup_options::LookupOptions;
pub use net_error::{NetError, NoRecords};
pub use nsec3_query_info::Nsec3QueryInfo;
pub use secure_error::SecureError;
