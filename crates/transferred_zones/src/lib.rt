//! The zone of a secondary (RFC 1034 section 4.3.5), as transfers bring it: what an answer says of it, whole (RFC 5936) or by differences (RFC
//! 1995), is a zone from then on, or nothing of it is and the reason is told.
//!
//! [`take_zone`] makes the zone of an answer that has come to its end, beside the zone that is held, which is only read. [`zone_of`] makes the
//! zone of records, and [`records_of`] tells those of a zone.
#![tactic(auto)]

mod fault;
mod held;
pub mod laws;
mod taking;
mod zone;

pub use fault::TakeFault;
pub use held::records_of;
pub use taking::{Taken, take_zone};
pub use zone::zone_of;
