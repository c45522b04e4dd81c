//! Writes zones and what is found in them.

use crate::signers::RowSigner;
use library_rows_arguments::RowHash;
use library_rows_values::{Answer, write_set};
use zone_handler::ZoneHandler;
use zone_proto::RrKey;
use zone_store::{Found, InMemoryZoneHandler};

/// The zone of rows.
pub type Zone = InMemoryZoneHandler<RowSigner, RowHash>;

/// Writes how many names were searched, and the sets that were found.
pub fn write_chain(out: &mut Answer, searched: u64, sets: &[Found<'_>]) {
    out.put(&searched);
    out.say(" searched");
    for found in sets {
        out.say(" | ");
        write_set(out, found.set());
    }
}

/// Writes what the zone says of itself.
pub fn write_about(out: &mut Answer, zone: &Zone) {
    out.put(zone.origin());
    out.say(" ");
    out.put(&zone.class());
    out.say(" ");
    out.show(&zone.zone_type());
    out.say(" ");
    out.show(&zone.axfr_policy());
    out.say(", serial ");
    out.put(&zone.serial());
    out.say(", minimum ");
    out.put(&zone.minimum_ttl());
}

/// Writes the sets of the zone.
pub fn write_zone(out: &mut Answer, zone: &Zone) {
    let sets = zone.records();
    out.put(&sets.len());
    out.say(" sets");
    for (key, set) in sets.iter() {
        write_key(out, key);
        write_set(out, set);
    }
}

/// Writes the name and the type of a key.
fn write_key(out: &mut Answer, key: &RrKey) {
    out.say(" | ");
    out.put(&key.name);
    out.say(" ");
    out.put(&key.record_type);
    out.say(": ");
}
