//! What an entry takes from the entries before it.

use zone_proto::Name;

/// What an entry takes from the entries before it.
#[derive(Debug, Drop)]
pub struct Context {
    /// The origin, which comes after names that aren't absolute.
    pub origin: Name,
    /// The owner of the record before.
    pub owner: Option<Name>,
    /// The seconds of the last `$TTL`.
    pub ttl: Option<u32>,
    /// The seconds of the last TTL that a record was given, or of an SOA's minimum in its place.
    pub last_ttl: Option<u32>,
}
