//! NOTIFY messages (RFC 1996), by which a primary server tells the secondaries of a zone that it has changed: written and read, with their
//! responses.
//!
//! A NOTIFY changes nothing by itself: whoever gets one asks the primary for the SOA record of the zone, as when its refresh timer runs out
//! (section 4.3). When one is sent again that has no response, and from whom one is taken, is up to those who have the sockets and the clock.
#![tactic(auto)]

pub mod laws;
mod notify;
mod reading;
mod writing;

pub use notify::{Notify, NotifyOutcome, NotifyResponse};
pub use reading::{read_notify, read_notify_response};
pub use writing::{write_notify, write_notify_response};
