//! The zones that a server has: read from the text of zone files, kept side by side, and queried with the octets of messages;
//! and a handle with which a program that isn't written in Rattle keeps them.
#![tactic(auto)]

mod buffer;
pub mod calls;
mod chain;
mod changing;
mod database;
mod handle;
pub mod laws;
mod loads;
mod nearest_zone;
mod next_zone;
mod outcome;
mod reading;
mod reporting;
mod serials;
mod stored_zone;
mod version;
mod zone;

pub use buffer::{give, tell};
pub use database::ZoneDatabase;
pub use handle::DatabaseHandle;
pub use loads::origin_of;
pub use next_zone::NextZone;
pub use outcome::Outcome;
pub use reading::{ReadZone, TextFault, load_records, read_zone};
pub use zone::{Zone, served, zone_of};
pub use zone_lookup::NoSigner;
