//! Signatures put into the version of a signed zone that is to take its place.
ghost use Rattle.std.specs.Prelude.{◌≡◌, true, List, IfOk, IfErr, None, OnOk, Some};
ghost use Rattle.std.specs.Arc.{arc_value};
ghost use Rattle.zone_proto.specs.Names.{Name};
ghost use Rattle.zone_planning.specs.Filling.{finish_fault};
ghost use Rattle.update_in_place.specs.Parts.{is_among, AreChanged};
ghost use Rattle.zone_database.specs.Zones.{zone_of_records};
ghost use Rattle.held_updates.specs.Journaling.{IsJournaled};
ghost use Rattle.signed_versions.specs.Versions.{IsSigned, IsUnfinished};

use crate::waiting::WaitingVersion;
use held_updates::{UpdatedZone, frame_if_kept, serial_of};
use signed_in_place::finish_change;
use std::alloc::Global;
use std::sync::Arc;
use update_in_place::Changed;
use zone_database::{NextZone, Zone};
use zone_journal::EntryFault;
use zone_map::RecordMap;
use zone_planning::FinishFault;
use zone_proto::{LowerName, Seq};

/// Why a version of a signed zone isn't finished.
#[derive(Drop)]
pub enum VersionFault {
    /// The signatures don't fit, or no memory was found.
    Signatures(FinishFault),
    /// A journal can't take the change, or no memory was found for it.
    Unjournaled(EntryFault),
}

impl WaitingVersion {
    /// The zone after the update, with these signatures in the places of the blank ones of its plan, in order. `commit_update` of `held_updates` has it take the
    /// place of the zone that was updated, if that is still there.
    ///
    /// Where journals are kept, `is_kept`, it comes with the frame that the journal of the zone gets before: of the whole step, with signatures and denials.
    /// It costs what the sets cost that the update changes, whatever else the zone has, unless that has NSEC3 sets besides its chain of NSEC sets: then each set is
    /// looked at.
    ///
    /// # Errors
    ///
    /// `Signatures` for signatures that don't fit, as `finish` of `zone_planning` says; then `Unjournaled` where a journal can't take the change, as
    /// `write_entry` of `zone_journal` refuses it. Each may come of a want of memory. The version is given up then.
    pub fn finish(
        self,
        alloc: Global,
        signatures: &[Seq<u8>],
        is_kept: bool,
    ) -> Result<UpdatedZone, VersionFault>
        ensures zone { IfOk result (λ updated. IsSigned self signatures.now updated.zone) }
        ensures journaled { IfOk result (IsJournaled is_kept (Some self.before)) }
        ensures faultless { OnOk result (finish_fault self.change.plan.keys.items
            self.change.plan.records signatures.now ≡ None) }
        ensures fault { IfErr result (IsUnfinished self signatures.now) }
    {
        let WaitingVersion {
            origin,
            before,
            mut next,
            change,
        } = self;
        let zone = before.inner.record_map();
        let changed = match finish_change(alloc, zone, &mut next, change, signatures) {
            Ok(changed) => changed,
            Err(fault) => return Err(VersionFault::Signatures(fault)),
        };
        match updated_zone(alloc, is_kept, origin, before, changed, next) {
            Ok(updated) => Ok(updated),
            Err(fault) => Err(VersionFault::Unjournaled(fault)),
        }
    }
}

/// The zone of an origin with these sets, which a change makes of those of the zone before it, with the serial of that one and what its journal gets if one
/// is kept.
fn updated_zone(
    alloc: Global,
    is_kept: bool,
    origin: LowerName,
    before: Arc<Zone>,
    changed: Changed,
    records: RecordMap,
) -> Result<UpdatedZone, EntryFault>
    requires { (names : List Name) × (is_among names origin ≡ true)
        × AreChanged names (arc_value before).inner.records records
        changed.before changed.after }
    ensures zone { IfOk result (λ updated. updated.zone ≡ zone_of_records origin records) }
    ensures journaled { IfOk result (IsJournaled is_kept (Some (arc_value before))) }
{
    // That the sets are those of a zone is told where they are lent.
    let _had = before.inner.as_map();
    let _has = records.as_map();
    let Ok(replaces) = serial_of(Some(&before)) else {
        return Err(EntryFault::Memory);
    };
    let frame = frame_if_kept(alloc, is_kept, &origin, &changed)?;
    match NextZone::made_of(alloc, &origin, before, changed, records) {
        Ok(zone) => Ok(UpdatedZone {
            zone,
            replaces,
            frame,
        }),
        Err(_) => Err(EntryFault::Memory),
    }
}
