//! What an answer says.
ghost use Rattle.std.specs.Prelude.{◌≡◌, drop, true};
ghost use Rattle.transfer_reading.specs.Differences.{changed, held_of};
ghost use Rattle.transfer_reading.specs.Outcomes.{said_by, without_last, GivesRecords, Says};

use crate::differences::{all_records, change, held_of};
use crate::fault::OutcomeFault;
use crate::stage::Stage;
use std::alloc::Global;
use zone_proto::{Name, Record};

/// What an answer says.
#[derive(Drop)]
pub enum Outcome {
    /// The records of a version of the zone with the signatures, without the SOA record that ends it. Where the zone came whole they are as the
    /// primary sent them, so one that it sent twice is there twice.
    Zone(Vec<Record>),
    /// The serial of the version that the primary has: that was asked for, or the version that is held isn't older.
    Serial(u32),
}

/// What an answer says that has come so far, of the zone of an origin, beside the records that are held of it.
pub(crate) fn outcome_of(
    alloc: Global,
    origin: &Name,
    stage: Stage,
    records: Vec<Record>,
    held: &[Record],
) -> Result<Outcome, OutcomeFault>
    ensures { Says result (said_by stage origin.now records.items held.now) }
{
    match stage {
        Stage::SerialAlone(serial) => Ok(Outcome::Serial(serial)),
        Stage::WholeZone => Ok(Outcome::Zone(without_last(records))),
        Stage::AllDifferences => {
            let differences = behind_first(without_last(records));
            match changed(alloc, origin, held, differences) {
                Ok(all) => Ok(Outcome::Zone(all)),
                Err(fault) => Err(fault),
            }
        }
        Stage::Before
        | Stage::Begun(_)
        | Stage::InZone(_)
        | Stage::TakingOut(_)
        | Stage::Giving(_, _) => Err(OutcomeFault::Incomplete),
    }
}

/// The records without the last one.
fn without_last(mut records: Vec<Record>) -> Vec<Record>
    ensures { result.items ≡ without_last records.items }
{
    let _ = records.pop();
    records
}

/// The records behind the first one.
fn behind_first(mut records: Vec<Record>) -> Vec<Record>
    ensures { result.items ≡ drop 1 records.items }
{
    if records.is_empty() {
        return records;
    }
    let _ = records.remove(0);
    records
}

/// The records that are held, once those of differences are taken out and given.
fn changed(
    alloc: Global,
    origin: &Name,
    held: &[Record],
    records: Vec<Record>,
) -> Result<Vec<Record>, OutcomeFault>
    ensures { GivesRecords result (changed origin.now true (held_of held.now) records.items) }
{
    let mut changing = held_of(alloc, held)?;
    match change(alloc, origin, &mut changing, records) {
        Ok(()) => Ok(all_records(alloc, changing)?),
        Err(fault) => Err(fault),
    }
}
