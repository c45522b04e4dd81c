//! Where the records of a zone come from.
use serde::{Deserialize, Serialize};

/// What the server is to the zone (RFC 9499 section 6).
#[derive(Clone, Copy, PartialEq, Eq, Hash, Debug, Serialize, Deserialize)]
pub enum ZoneType {
    /// The zone's source of changes.
    Primary,
    /// A copy of the zone, transferred from a primary.
    Secondary,
    /// A zone whose records come from elsewhere.
    External,
}
