//! Signatures put into an update that was prepared.
ghost use Rattle.std.specs.Prelude.{◌≡◌, IfOk, IfErr, OnOk};
ghost use Rattle.zone_lookup.specs.StartOfAuthority.{serial as serial_at};
ghost use Rattle.zone_map.specs.Renewals.{with_signatures};
ghost use Rattle.zone_map.specs.Zones.{IsZone};
ghost use Rattle.zone_planning.specs.Filling.{filled, finish_fault};
ghost use Rattle.update_denials.specs.Committed.{IsUncommitted};

use crate::preparing::Prepared;
use crate::serial::serial_of;
use std::alloc::Global;
use zone_map::RecordMap;
use zone_planning::{FinishFault, finish};
use zone_proto::{LowerName, Seq};

/// Why an update isn't committed.
#[derive(Clone, Copy, PartialEq, Eq, Debug)]
pub enum CommitFault {
    /// The zone has another serial than the one that was updated: another update came in between.
    Overtaken,
    /// The signatures don't fit.
    Signatures(FinishFault),
    /// No memory was found.
    Memory,
}

/// An update that isn't committed, as it was, and why.
#[derive(Drop)]
pub struct Uncommitted {
    /// The update.
    pub prepared: Prepared,
    /// Why.
    pub fault: CommitFault,
}

/// The zone of an origin after an update that was prepared, with these signatures in the places of the blank ones, in order. The zone that
/// is served is only read: the one that is given is to take its place.
///
/// # Errors
///
/// `Overtaken` where the zone that is served has another serial than the one that was updated; then `Signatures` for signatures that don't fit,
/// as `finish` of `zone_planning` says. `Memory` in place of any of these. What was prepared is handed back.
pub fn commit(
    alloc: Global,
    origin: &LowerName,
    zone: &RecordMap,
    prepared: Prepared,
    signatures: &[Seq<u8>],
) -> Result<RecordMap, Uncommitted>
    ensures serial { OnOk result (serial_at zone.now origin.now ≡ prepared.serial) }
    ensures filled { IfOk result (λ after. after
        ≡ with_signatures prepared.plan.records
        (filled prepared.plan.records signatures.now)) }
    ensures zone { IfOk result IsZone }
    ensures fault { IfErr result (λ e.
        IsUncommitted origin.now zone.now prepared signatures.now e.fault) }
    ensures same { IfErr result (λ e. e.prepared ≡ prepared) }
{
    let Ok(serial) = serial_of(zone, origin) else {
        return Err(Uncommitted {
            prepared,
            fault: CommitFault::Memory,
        });
    };
    if serial != prepared.serial {
        return Err(Uncommitted {
            prepared,
            fault: CommitFault::Overtaken,
        });
    }
    let Prepared { plan, serial } = prepared;
    match finish(alloc, plan, signatures) {
        Ok(after) => Ok(after),
        Err(unfinished) => Err(Uncommitted {
            prepared: Prepared {
                plan: unfinished.plan,
                serial,
            },
            fault: CommitFault::Signatures(unfinished.fault),
        }),
    }
}
