//! Laws of zones and of their steps beside the definitions of a secondary. Each is an empty function whose contract is the law, so a program has no need to call
//! one.
ghost use Rattle.incremental_laws.specs.IncrementalLaws.{StepsAreTaken, StepsMakeTheNewest};
ghost use Rattle.incremental_laws.specs.WholeZones.{ZonesAreTaken, ZonesMakeTheVersion};

use transfer_reading::laws::{differences_are_taken, zones_are_taken_whole};

/// The steps of a zone from the version that a secondary holds to a newer one, between two SOA records of that one, are an answer that the
/// secondary takes.
pub fn steps_are_taken()
    ensures { StepsAreTaken }
{
    differences_are_taken();
}

/// Applied to the records that it holds, they make those of the newest version: under each key the records and signatures that answers
/// show, with their TTLs.
pub fn steps_make_the_newest()
    ensures { StepsMakeTheNewest }
{}

/// A version of a zone that is sent whole is an answer that the secondary takes, to a question for the zone (RFC 5936 section 2.2) or for what changed
/// since an older version (RFC 1995 section 4): the SOA record, all sets with their signatures in the order of their keys, and the SOA record
/// again. Whatever it held, it has that version then: under each key the records and signatures that answers show, with their TTLs.
pub fn zones_are_taken()
    ensures taken { ZonesAreTaken }
    ensures made { ZonesMakeTheVersion }
{
    zones_are_taken_whole();
}
