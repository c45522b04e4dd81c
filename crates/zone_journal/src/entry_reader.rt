//! Entries read.
ghost use Rattle.std.specs.Prelude.{◌≡◌, IfOk};
ghost use Rattle.zone_journal.specs.Entries.{as_step, entry_of};

use crate::grouping::sets_in;
use crate::parting::step_in;
use message_series::read_series;
use shown_zones::ZoneStep;
use std::alloc::Global;
use zone_proto::ProtoError;

/// The step that the octets of an entry are; none where they are no entry. Refused by `Memory` alone.
pub fn read_entry(alloc: Global, octets: &[u8]) -> Result<Option<ZoneStep>, ProtoError>
    ensures { IfOk result (λ step. as_step step ≡ entry_of octets.now) }
{
    let Some(records) = read_series(alloc, octets)? else {
        return Ok(None);
    };
    let Some(sets) = sets_in(alloc, records)? else {
        return Ok(None);
    };
    Ok(step_in(sets)?)
}
