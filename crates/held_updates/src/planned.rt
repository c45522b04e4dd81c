//! What is to come of an update, before anything changes.

use zone_database::NextZone;

/// A zone after an update, beside the one before it.
#[derive(Drop)]
pub struct UpdatedZone {
    /// The zone. It is to take the place of the one of its origin.
    pub zone: NextZone,
    /// The serial of the zone that was updated.
    pub replaces: Option<u32>,
    /// Where journals are kept, the frame that the journal of the zone gets first (`zone_journal`), and else no octets.
    pub frame: Vec<u8>,
}

/// What is to come of a message.
#[derive(Drop)]
pub enum PlannedUpdate {
    /// Nothing. It is no update: fewer octets than a header has, a response, or another opcode; others answer it.
    Other,
    /// The response, and nothing else: the update is refused, or its TSIG.
    Refused,
    /// The response, and nothing else: the update is carried out, and changes nothing.
    Unchanged,
    /// The response, once this zone stands in its place.
    Updated(UpdatedZone),
}
