//! Where a transfer stands.
ghost use Rattle.std.specs.Prelude.{◌≡◌};

use zone_proto::RrKey;

/// Where a transfer stands: behind which of the records that it sends, in their order, the next message begins. A set may be long, so
/// that a message ends within it.
#[derive(Drop)]
pub enum Place {
    /// So many records of the SOA set with which a transfer begins are sent.
    Opening(usize),
    /// All records before the set of this key, and so many of the records behind these, are sent.
    Set(RrKey, usize),
    /// So many records of the SOA set with which a transfer ends are sent.
    Closing(usize),
}

impl Place {
    /// The beginning of a transfer.
    pub fn start() -> Place
        ensures { result ≡ Place.Opening 0 }
    {
        Place::Opening(0)
    }
}
