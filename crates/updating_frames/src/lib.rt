//! Frames answered by a server that takes updates of its zones (RFC 2136) from those who have a key and whom the rules permit it: an update is in the
//! journal of its zone before it is served, and served before it is answered (section 3.5); the next message is answered from the zone after it.
#![tactic(auto)]

mod journals;
mod server;

pub use journals::Journals;
pub use server::UpdatingServer;
