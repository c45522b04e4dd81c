//! A record and where it stands.

use zone_proto::Record;
use zone_scanner::Place;

/// A record of a zone file, and the place where its entry begins.
#[derive(Debug, Drop)]
pub struct PlacedRecord {
    pub place: Place,
    pub given: Record,
}
