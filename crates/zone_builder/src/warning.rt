//! What of the records that a zone is made of isn't taken as it is.

use crate::given::RecordAt;
use thiserror::Error;
use zone_scanner::Place;

/// What of the records that a zone is made of isn't taken as it is.
#[derive(Debug, Drop, Error)]
pub enum LoadWarning {
    /// A record stands outside of the zone.
    #[error("{0} stands outside of the zone, and is left out")]
    Outside(RecordAt),
    /// A record or a signature appears twice, its TTL aside (RFC 2181 section 5).
    #[error("{0} has these data already, and is left out")]
    Repeated(RecordAt),
    /// The records of a set have different TTLs, or one of its signatures has another than they. All get this one, in seconds:
    /// the least of the records (RFC 2181 section 5.2, RFC 4034 section 3).
    #[error("the TTLs of {0} differ, and all become {1}")]
    TtlsDiffer(RecordAt, u32),
    /// A signature is of no set of the zone.
    #[error("{0} signs no set of the zone, and is left out")]
    SignsNothing(RecordAt),
}

impl LoadWarning {
    /// Where the record stands that is warned of, if that is known.
    pub fn place(&self) -> Option<Place> {
        match self {
            LoadWarning::Outside(at)
            | LoadWarning::Repeated(at)
            | LoadWarning::TtlsDiffer(at, _)
            | LoadWarning::SignsNothing(at) => at.place,
        }
    }
}
