//! Has a zone expire: what a program that isn't written in Rattle asks of the zones that it keeps, a call of `ningkraet`.
ghost use Rattle.zone_database.specs.Databases.{zones_in};
ghost use Rattle.zone_database.specs.Calls.{ChangesHeld, PutsZone};
ghost use Rattle.expiry_calls.specs.Expiry.{Expires, ExpiresAt, expired_zone};

use call_handles::Handle;
use std::alloc::Global;
use zone_database::{DatabaseHandle, Outcome, ZoneDatabase, origin_of, zone_of};
use zone_map::RecordMap;
use zone_proto::LowerName;

/// Has the zone of an origin expire: a zone without sets comes in its place, whose answers are refusals and SERVFAIL, and of which nothing is
/// sent (RFC 1034 section 4.3.5, RFC 1035 section 3.3.13). What was kept of its answers goes with it. Refused by `NoZone`, `BadName`, `NoMemory`
/// and `Closed`, and then nothing changes.
#[tactic(auto, using(zone_database::proofs::CallFacts::changed))]
pub fn expire(alloc: Global, zones: &mut DatabaseHandle, origin: &[u8]) -> Outcome
    ensures { ChangesHeld (Expires origin.now) zones.old.held result zones.new.held }
{
    match zones.take(alloc) {
        Some(mut database) => {
            let outcome = expire_zone(alloc, &mut database, origin);
            zones.put(database);
            outcome
        }
        None => Outcome::Closed,
    }
}

/// Has the zone of an origin expire that is given as text.
#[tactic(auto, using(zone_database::proofs::CallFacts::unread, zone_database::proofs::CallFacts::read_on))]
fn expire_zone(alloc: Global, database: &mut ZoneDatabase, origin: &[u8]) -> Outcome
    ensures { Expires origin.now (zones_in database.old) result (zones_in database.new) }
{
    match origin_of(alloc, origin) {
        Ok(name) => expire_at(alloc, database, LowerName::from(name)),
        Err(outcome) => outcome,
    }
}

/// Has the zone of an origin expire, if there is one.
#[tactic(auto, using(crate::proofs::ExpiryFacts::expires))]
fn expire_at(alloc: Global, database: &mut ZoneDatabase, origin: LowerName) -> Outcome
    ensures { ExpiresAt origin (zones_in database.old) result (zones_in database.new) }
{
    if database.contains(&origin) {
        put_expired(alloc, database, origin)
    } else {
        Outcome::NoZone
    }
}

/// Puts a zone without sets in place of the one of its origin.
#[tactic(auto, using(crate::proofs::ExpiryFacts::no_sets))]
fn put_expired(alloc: Global, database: &mut ZoneDatabase, origin: LowerName) -> Outcome
    ensures { PutsZone (expired_zone origin) (zones_in database.old) result
        (zones_in database.new) }
{
    let Ok(zone) = zone_of(alloc, origin, RecordMap::new(alloc)) else {
        return Outcome::NoMemory;
    };
    match database.put(alloc, zone) {
        Ok(()) => Outcome::Done,
        Err(_) => Outcome::NoMemory,
    }
}
