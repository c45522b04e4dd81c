//! An update of a zone of a database carried out beside it, and the response to it.
ghost use Rattle.std.specs.Prelude.{◌≡◌, ◌<◌, Ok, IfOk, OnOk, option_copied};
ghost use Rattle.std.specs.List.{find};
ghost use Rattle.update_answers.specs.Replies.{reply_text};
ghost use Rattle.update_message.specs.Updates.{parts_of, update_of};
ghost use Rattle.update_in_place.specs.Parts.{names_about};
ghost use Rattle.update_in_place.specs.Plans.{GivesPlan};
ghost use Rattle.zone_database.specs.Databases.{begins_at, zones_in};
ghost use Rattle.zone_database.specs.Zones.{zone_of_records};
ghost use Rattle.zone_update.specs.Entries.{code_of};
ghost use Rattle.held_updates.specs.Changing.{records_in, IsChangeAbout, IsChangeIfAny, RepliesBy, RepliesChanged};
ghost use Rattle.held_updates.specs.Journaling.{IfUpdated, IsJournaled, IsPlanJournaled};
ghost use Rattle.held_updates.specs.Planning.{outcome_among, updated_in, Plans};

use crate::access::UpdateAccess;
use crate::fixed_zones::{has_expired, is_signed};
use crate::journaling::changed_zone;
use crate::planned::{PlannedUpdate, UpdatedZone};
use message_reading::Header;
use std::alloc::{AllocError, Global};
use update_in_place::{Changed, planned_if_permitted};
use update_message::{OPCODE, UpdateError, UpdateMessage, read_update, write_response};
use update_policy::Rule;
use zone_database::{Zone, ZoneDatabase, zone_of};
use zone_journal::EntryFault;
use zone_map::RecordMap;
use zone_proto::LowerName;
use zone_update::{Refusal, Update};

/// Carries out an update beside its zone, one among those of a database, for the owner of a key, and writes the response in place of the octets
/// of `out`, without a TSIG, as [`plan_update`](crate::plan_update) does for a message whose TSIG it found right and took off. Fails only for lack
/// of memory.
pub fn plan_for(
    alloc: Global,
    zones: &mut ZoneDatabase,
    access: &UpdateAccess,
    key: Option<&LowerName>,
    is_kept: bool,
    message: &[u8],
    out: &mut Vec<u8>,
) -> Result<PlannedUpdate, AllocError>
    ensures plan { IfOk result (λ planned. Plans
        (outcome_among access.now (option_copied key.entry) (zones_in zones.old))
        (update_of message.now) planned out.new.items) }
    ensures journaled { IfOk result (IsPlanJournaled is_kept (zones_in zones.old)) }
    ensures same { zones_in zones.new ≡ zones_in zones.old }
{
    match read_update(alloc, message) {
        Ok(asked) => plan_asked(alloc, zones, access, key, is_kept, asked, out),
        Err(UpdateError::Malformed(header)) => {
            refuse(out, header, Refusal::FormErr, false)?;
            Ok(PlannedUpdate::Refused)
        }
        Err(UpdateError::OtherClass(header)) => {
            refuse(out, header, Refusal::NotAuth, false)?;
            Ok(PlannedUpdate::Refused)
        }
        Err(UpdateError::NoUpdate) => Ok(PlannedUpdate::Other),
        Err(UpdateError::Memory) => Err(AllocError),
    }
}

/// The same for an update that was read.
pub fn plan_asked(
    alloc: Global,
    zones: &mut ZoneDatabase,
    access: &UpdateAccess,
    key: Option<&LowerName>,
    is_kept: bool,
    asked: UpdateMessage,
    out: &mut Vec<u8>,
) -> Result<PlannedUpdate, AllocError>
    ensures plan { IfOk result (λ planned. Plans
        (outcome_among access.now (option_copied key.entry) (zones_in zones.old))
        (Ok (parts_of asked)) planned out.new.items) }
    ensures journaled { IfOk result (IsPlanJournaled is_kept (zones_in zones.old)) }
    ensures same { zones_in zones.new ≡ zones_in zones.old }
{
    let UpdateMessage {
        header,
        zone: name,
        update,
        has_extension,
    } = asked;
    let Ok(origin) = LowerName::new(&name) else {
        return Err(AllocError);
    };
    let (zone, rules) = (zones.get(&origin), access.rules_for(&origin));
    let change = change_in(alloc, rules, key, &origin, zone, update);
    let planned = reply(
        alloc,
        zones,
        &origin,
        change,
        is_kept,
        header,
        has_extension,
        out,
    )?;
    Ok(planned)
}

/// Writes the response to an update that changes the zone of an origin so.
#[tactic(auto, using(crate::proofs::Changes::asks_change, crate::proofs::Changes::replied_changed))]
fn reply(
    alloc: Global,
    zones: &mut ZoneDatabase,
    origin: &LowerName,
    change: Result<Option<Changed>, Refusal>,
    is_kept: bool,
    header: Header,
    has_extension: bool,
    out: &mut Vec<u8>,
) -> Result<PlannedUpdate, AllocError>
    requires { IsChangeIfAny origin.now
        (find (begins_at origin.now) (zones_in zones.old)) change }
    ensures reply { IfOk result (λ planned. RepliesBy
        (find (begins_at origin.now) (zones_in zones.old)) origin.now change header
        has_extension planned out.new.items) }
    ensures journaled { IfOk result (IfUpdated (IsJournaled is_kept
        (find (begins_at origin.now) (zones_in zones.old)))) }
    ensures same { zones_in zones.new ≡ zones_in zones.old }
{
    match change {
        Ok(Some(changed)) => {
            let planned = reply_changed(
                alloc,
                zones,
                origin,
                changed,
                is_kept,
                header,
                has_extension,
                out,
            )?;
            Ok(planned)
        }
        Ok(None) => {
            respond(out, header, 0, has_extension)?;
            Ok(PlannedUpdate::Unchanged)
        }
        Err(refusal) => {
            refuse(out, header, refusal, has_extension)?;
            Ok(PlannedUpdate::Refused)
        }
    }
}

/// The same where this changes. SERVFAIL goes out where a journal can't take it.
fn reply_changed(
    alloc: Global,
    zones: &mut ZoneDatabase,
    origin: &LowerName,
    changed: Changed,
    is_kept: bool,
    header: Header,
    has_extension: bool,
    out: &mut Vec<u8>,
) -> Result<PlannedUpdate, AllocError>
    requires { IsChangeAbout origin.now
        (find (begins_at origin.now) (zones_in zones.old)) changed }
    ensures reply { IfOk result (λ planned. RepliesChanged
        (find (begins_at origin.now) (zones_in zones.old)) origin.now changed header
        has_extension planned out.new.items) }
    ensures journaled { IfOk result (IfUpdated (IsJournaled is_kept
        (find (begins_at origin.now) (zones_in zones.old)))) }
    ensures same { zones_in zones.new ≡ zones_in zones.old }
{
    match changed_zone(alloc, zones, is_kept, origin, changed) {
        Ok(updated) => accept(out, header, has_extension, updated),
        Err(EntryFault::Memory) => Err(AllocError),
        Err(EntryFault::Unreadable | EntryFault::Unwritable) => {
            refuse(out, header, Refusal::Memory, has_extension)?;
            Ok(PlannedUpdate::Refused)
        }
    }
}

/// Writes the response to an update that was carried out so.
fn accept(
    out: &mut Vec<u8>,
    header: Header,
    has_extension: bool,
    updated: UpdatedZone,
) -> Result<PlannedUpdate, AllocError>
    ensures reply { OnOk result (out.new.items ≡ reply_text header 0 has_extension) }
    ensures updated { IfOk result (λ planned. planned ≡ PlannedUpdate.Updated updated) }
{
    match respond(out, header, 0, has_extension) {
        Ok(()) => Ok(PlannedUpdate::Updated(updated)),
        Err(_) => {
            drop(updated);
            Err(AllocError)
        }
    }
}

/// What an update changes in the zone of an origin, or nothing, if there is such a zone, which has neither expired nor is signed.
fn change_in(
    alloc: Global,
    rules: &[Rule],
    key: Option<&LowerName>,
    origin: &LowerName,
    zone: Option<&Zone>,
    update: Update,
) -> Result<Option<Changed>, Refusal>
    ensures { GivesPlan (names_about origin.now update.changes.items)
        (records_in (option_copied zone.entry))
        (updated_in rules.now (option_copied key.entry) origin.now (option_copied zone.entry)
        update.prerequisites.items update.changes.items) result }
{
    let Some(zone) = zone else {
        return Err(Refusal::NotAuth);
    };
    match (has_expired(zone), is_signed(zone)) {
        (Ok(false), Ok(false)) => {
            planned_if_permitted(alloc, rules, key, origin, zone.inner.record_map(), update)
        }
        (Ok(false), Ok(true)) => Err(Refusal::Refused),
        _ => Err(Refusal::Memory),
    }
}

/// The zone of an origin with these sets. Fails only for lack of memory.
pub fn zone_after(alloc: Global, origin: LowerName, after: RecordMap) -> Result<Zone, AllocError>
    ensures { IfOk result (λ z. z ≡ zone_of_records origin after) }
{
    // That they are those of a zone is told where they are lent.
    let _sets = after.as_map();
    match zone_of(alloc, origin, after) {
        Ok(zone) => Ok(zone),
        Err(_) => Err(AllocError),
    }
}

/// Writes the response of a refusal.
pub(crate) fn refuse(
    out: &mut Vec<u8>,
    header: Header,
    refusal: Refusal,
    has_extension: bool,
) -> Result<(), AllocError>
    ensures { OnOk result (out.new.items ≡ reply_text header (code_of refusal) has_extension) }
{
    respond(out, header, refusal.code(), has_extension)
}

/// Writes a response with a code of four bits.
fn respond(
    out: &mut Vec<u8>,
    header: Header,
    code: u8,
    has_extension: bool,
) -> Result<(), AllocError>
    requires { code < 16 }
    ensures { OnOk result (out.new.items ≡ reply_text header code has_extension) }
{
    let header = Header {
        opcode: OPCODE,
        ..header
    };
    write_response(out, header, code, has_extension)
}
