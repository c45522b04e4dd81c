//! What a secondary asks a primary, and the answers, message by message: AXFR (RFC 5936), IXFR (RFC 1995), and the SOA record.
//!
//! [`write_query`] writes a question. A [`Transfer`] is told what was asked and takes the messages of the answer, one after the other; its
//! [`Stage`] says how far the answer has come. At its end it says the records of the zone, or the serial that the primary has. Nothing here has a
//! socket or a clock, and the records that are held are only read: whatever is refused leaves them as they were.
#![tactic(auto)]

mod answers;
mod asked;
mod differences;
mod fault;
pub mod laws;
mod outcome;
mod query;
mod stage;
mod transfer;

pub use asked::Asked;
pub use fault::{AnswerFault, OutcomeFault};
pub use outcome::Outcome;
pub use query::write_query;
pub use stage::Stage;
pub use transfer::Transfer;
pub use zone_secondary::Question;
