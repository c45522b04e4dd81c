//! What an answer says, taken.
ghost use Rattle.std.specs.Prelude.{IfErr, IfOk};
ghost use Rattle.transfer_reading.specs.Outcomes.{said};
ghost use Rattle.zone_proto.specs.Names.{lower};
ghost use Rattle.transferred_zones.specs.HeldRecords.{records_in};
ghost use Rattle.transferred_zones.specs.Taking.{IsTaken, IsTakeFault};

use crate::fault::TakeFault;
use crate::held::records_of;
use crate::zone::zone_of;
use std::alloc::Global;
use transfer_reading::{Outcome, OutcomeFault, Transfer};
use zone_map::RecordMap;
use zone_proto::Name;

/// What an answer says.
#[derive(Drop)]
pub enum Taken {
    /// The zone, as sets.
    Zone(RecordMap),
    /// The serial of the version that the primary has: that was asked for, or the version that is held isn't older.
    Serial(u32),
}

/// What an answer says of the zone of an origin, once it has come to its end. Differences are applied to the records of the zone that is held,
/// which stays as it is.
///
/// # Errors
///
/// `Answer` with the fault of [`Transfer::finish`], if the answer says nothing; and else that of [`zone_of`] for the records that it says.
/// `Memory` may come in place of any.
pub fn take_zone(
    alloc: Global,
    origin: Name,
    transfer: Transfer,
    held: &RecordMap,
) -> Result<Taken, TakeFault>
    ensures ok { IfOk result (IsTaken (lower origin) (said transfer (records_in held.now))) }
    ensures err { IfErr result (IsTakeFault (lower origin) (said transfer (records_in held.now))) }
{
    let held = records_of(alloc, held)?;
    match transfer.finish(alloc, held.as_slice()) {
        Ok(Outcome::Zone(records)) => match zone_of(alloc, origin, records) {
            Ok(zone) => Ok(Taken::Zone(zone)),
            Err(fault) => Err(fault),
        },
        Ok(Outcome::Serial(serial)) => Ok(Taken::Serial(serial)),
        Err(OutcomeFault::Memory) => Err(TakeFault::Memory),
        Err(fault) => Err(TakeFault::Answer(fault)),
    }
}
