//! Why a zone refused a change.
use thiserror::Error;
use zone_proto::{Name, RecordType};

/// Why a zone isn't made, or a record isn't taken.
#[derive(Debug, Drop, Error)]
pub enum ZoneError {
    /// The zone of this origin has no SOA.
    #[error("SOA record must be present: {0}")]
    MissingSoa(Name),
    /// A set is under a key that isn't its own name and type.
    #[error("key doesn't match its set")]
    KeyMismatch,
    /// A record of the set of this name and type isn't taken into the zone of this origin.
    #[error("Failed to insert {0} {1} to zone: {2}")]
    Refused(Name, RecordType, Name),
    /// No memory was found.
    #[error("out of memory")]
    Memory,
}
