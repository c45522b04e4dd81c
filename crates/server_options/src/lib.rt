//! What a server answers by options of EDNS, on top of the responses of `zone_server`: cookies (RFC 7873), its identifier (NSID, RFC 5001)
//! and extended errors (RFC 8914); and a summary of each answer, for logs, statistics and limits.
#![tactic(auto)]

mod answering;
mod arrival;
mod asking;
mod bad_cookies;
mod completing;
mod responder;
mod summary;

pub use answering::answer_arrival;
pub use arrival::{Arrival, ServerOptions};
pub use asking::CookieState;
pub use responder::{FromZones, Responder};
pub use summary::{ResponseKind, Summary, summary_of};
