//! Why a set was not stored.
use zone_proto::RecordSet;

/// Why a set isn't stored. The set is handed back.
#[derive(Debug, Drop)]
pub enum PutRefused {
    /// The set has no records.
    Empty(RecordSet),
    /// No memory was found.
    Memory(RecordSet),
}
