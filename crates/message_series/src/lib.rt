//! Records as octets: a series of DNS messages with the records as answers, which read back as these.
//!
//! A series is the number of its messages in two octets, and then the messages, each behind its length in two octets as over TCP (RFC 1035
//! section 4.2.2). They answer the question for what changed of a zone (RFC 1995 section 4), so that an entry of a journal may be a
//! series.
#![tactic(auto)]

mod fault;
mod reading;
mod singles;
mod writing;

pub use fault::SeriesFault;
pub use reading::read_series;
pub use writing::write_series;
