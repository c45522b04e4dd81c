//! What is planned of a message that may be an update of a signed zone.
ghost use Rattle.std.specs.Prelude.{◌≡◌, Ok, IfOk, Some, option_copied};
ghost use Rattle.message_tsig.specs.Checking.{checked_kept, checked_of, IsAuthenticIfSigned};
ghost use Rattle.update_message.specs.Updates.{parts_of, update_of};
ghost use Rattle.zone_database.specs.Databases.{zones_in};
ghost use Rattle.held_updates.specs.Journaling.{IsPlanJournaled};
ghost use Rattle.held_updates.specs.Planning.{outcome_among, Plans, PlansUpdate};
ghost use Rattle.signed_updates.specs.Beginning.{own_zone, Begins, BeginsAs, BeginsBy, BeginsSigned, IfPlanned, IsPlanned, PlansRead};

use held_updates::{
    PlannedUpdate, UpdateAccess, has_expired, is_signed, is_update, plan_asked, plan_for,
    plan_update, sign_response,
};
use message_reading::{Header, read_header};
use message_tsig::{Checked, Key, Tsig, check_request};
use std::alloc::{AllocError, Global};
use update_denials::Signing;
use update_message::{UpdateError, UpdateMessage, read_update};
use update_signing::{SignedReply, answer_signed_update};
use zone_database::{Zone, ZoneDatabase};
use zone_proto::LowerName;

/// What is to come of a message.
#[derive(Drop)]
pub enum SignedPlan {
    /// It isn't an update of the signed zone, found signed under a key: what is to come of it as of any other.
    Planned(PlannedUpdate),
    /// It is, and this came of it. Where the zone after it is prepared, the response goes out once that zone is signed and stands in its place.
    Signed(SignedReply),
}

/// Carries out an update beside its zone, as `plan_update` of `held_updates` plans it for those who have a key of a server and whom its rules permit
/// it, and writes the response in place of the octets of `out`; but where it is one of the zone of this origin, and that is signed, the zone after it
/// is prepared to be signed so, as `answer_signed_update` of `update_signing` says. No zone changes.
///
/// The TSIG is checked first, and an update of another zone that is signed is refused, as there. Of the signed zone the code of the
/// response is NOERROR, or that of the refusal in the standard's order (RFC 2136 sections 3.2 to 3.4), and SERVFAIL where the zone after it
/// can't be signed. `is_kept` says whether journals are kept: then what is planned of a zone that isn't signed has its frame.
///
/// # Errors
///
/// `AllocError` for want of memory; what `out` has is no response then.
pub fn begin_signed_update(
    alloc: Global,
    zones: &mut ZoneDatabase,
    access: &UpdateAccess,
    origin: &LowerName,
    signing: Signing,
    now: u64,
    is_kept: bool,
    message: &[u8],
    out: &mut Vec<u8>,
) -> Result<SignedPlan, AllocError>
    ensures plan { IfOk result (λ plan. Begins access.now origin.now signing now message.now
        (zones_in zones.old) plan out.new.items) }
    ensures journaled { IfOk result
        (IfPlanned (IsPlanJournaled is_kept (zones_in zones.old))) }
    ensures same { zones_in zones.new ≡ zones_in zones.old }
{
    match read_header(message) {
        Some((header, _)) => begin_header(
            alloc, zones, access, origin, signing, now, is_kept, message, header, out,
        ),
        None => Ok(SignedPlan::Planned(PlannedUpdate::Other)),
    }
}

/// The same for a message whose header is this.
#[tactic(auto, using(crate::proofs::Beginnings::as_update, crate::proofs::Beginnings::as_other))]
fn begin_header(
    alloc: Global,
    zones: &mut ZoneDatabase,
    access: &UpdateAccess,
    origin: &LowerName,
    signing: Signing,
    now: u64,
    is_kept: bool,
    message: &[u8],
    header: Header,
    out: &mut Vec<u8>,
) -> Result<SignedPlan, AllocError>
    ensures plan { IfOk result (λ plan. BeginsAs access.now origin.now signing now message.now
        header (zones_in zones.old) plan out.new.items) }
    ensures journaled { IfOk result
        (IfPlanned (IsPlanJournaled is_kept (zones_in zones.old))) }
    ensures same { zones_in zones.new ≡ zones_in zones.old }
{
    if is_update(header) {
        let plan = begin_checked(
            alloc, zones, access, origin, signing, now, is_kept, message, out,
        )?;
        Ok(plan)
    } else {
        Ok(SignedPlan::Planned(PlannedUpdate::Other))
    }
}

/// The same for an update, by its TSIG.
fn begin_checked(
    alloc: Global,
    zones: &mut ZoneDatabase,
    access: &UpdateAccess,
    origin: &LowerName,
    signing: Signing,
    now: u64,
    is_kept: bool,
    message: &[u8],
    out: &mut Vec<u8>,
) -> Result<SignedPlan, AllocError>
    ensures plan { IfOk result (λ plan. BeginsBy access.now origin.now signing now message.now
        (checked_of access.now.keys.items now message.now)
        (zones_in zones.old) plan out.new.items) }
    ensures journaled { IfOk result
        (IfPlanned (IsPlanJournaled is_kept (zones_in zones.old))) }
    ensures same { zones_in zones.new ≡ zones_in zones.old }
{
    match check_request(alloc, access.keys.as_slice(), now, message) {
        Ok(checked) => by_checked(
            alloc, zones, access, origin, signing, now, is_kept, message, checked, out,
        ),
        Err(_) => Err(AllocError),
    }
}

/// The same by what the TSIG of the update is found to be.
fn by_checked(
    alloc: Global,
    zones: &mut ZoneDatabase,
    access: &UpdateAccess,
    origin: &LowerName,
    signing: Signing,
    now: u64,
    is_kept: bool,
    message: &[u8],
    checked: Checked<'_>,
    out: &mut Vec<u8>,
) -> Result<SignedPlan, AllocError>
    requires { IsAuthenticIfSigned access.now.keys.items now message.now checked }
    ensures plan { IfOk result (λ plan. BeginsBy access.now origin.now signing now message.now
        (checked_kept checked.entry)
        (zones_in zones.old) plan out.new.items) }
    ensures journaled { IfOk result
        (IfPlanned (IsPlanJournaled is_kept (zones_in zones.old))) }
    ensures same { zones_in zones.new ≡ zones_in zones.old }
{
    match checked {
        Checked::Unsigned => refused_plan(alloc, zones, access, now, is_kept, message, out),
        Checked::Malformed => refused_plan(alloc, zones, access, now, is_kept, message, out),
        Checked::Refused(..) => refused_plan(alloc, zones, access, now, is_kept, message, out),
        Checked::Signed(tsig, key, rest) => {
            let plan = begin_authentic(
                alloc,
                zones,
                access,
                origin,
                signing,
                &tsig,
                key,
                now,
                is_kept,
                rest.as_slice(),
                out,
            )?;
            Ok(plan)
        }
    }
}

/// What is planned of an update without a right TSIG, whatever zone it is of.
fn refused_plan(
    alloc: Global,
    zones: &mut ZoneDatabase,
    access: &UpdateAccess,
    now: u64,
    is_kept: bool,
    message: &[u8],
    out: &mut Vec<u8>,
) -> Result<SignedPlan, AllocError>
    ensures plan { IfOk result (λ plan. IsPlanned
        (PlansUpdate access.now now message.now (zones_in zones.old)) plan out.new.items) }
    ensures journaled { IfOk result
        (IfPlanned (IsPlanJournaled is_kept (zones_in zones.old))) }
    ensures same { zones_in zones.new ≡ zones_in zones.old }
{
    let planned = plan_update(alloc, zones, access, now, is_kept, message, out)?;
    Ok(SignedPlan::Planned(planned))
}

/// The same for an update that was found signed under a key, without its TSIG.
#[tactic(auto, using(crate::proofs::Beginnings::of_authentic))]
fn begin_authentic(
    alloc: Global,
    zones: &mut ZoneDatabase,
    access: &UpdateAccess,
    origin: &LowerName,
    signing: Signing,
    tsig: &Tsig,
    key: &Key,
    now: u64,
    is_kept: bool,
    message: &[u8],
    out: &mut Vec<u8>,
) -> Result<SignedPlan, AllocError>
    ensures plan { IfOk result (λ plan. BeginsSigned access.now origin.now signing now tsig.now
        key.now message.now (zones_in zones.old) plan out.new.items) }
    ensures journaled { IfOk result
        (IfPlanned (IsPlanJournaled is_kept (zones_in zones.old))) }
    ensures same { zones_in zones.new ≡ zones_in zones.old }
{
    let plan = read_plan(
        alloc, zones, access, &key.name, origin, signing, is_kept, message, out,
    )?;
    sign_response(alloc, tsig, key, now, out)?;
    Ok(plan)
}

/// The same for the owner of a key, before the response is signed.
#[tactic(auto, using(crate::proofs::Beginnings::of_unread))]
fn read_plan(
    alloc: Global,
    zones: &mut ZoneDatabase,
    access: &UpdateAccess,
    key: &LowerName,
    origin: &LowerName,
    signing: Signing,
    is_kept: bool,
    message: &[u8],
    out: &mut Vec<u8>,
) -> Result<SignedPlan, AllocError>
    ensures plan { IfOk result (λ plan. PlansRead access.now (Some key.now) origin.now signing
        (zones_in zones.old) (update_of message.now) plan out.new.items) }
    ensures journaled { IfOk result
        (IfPlanned (IsPlanJournaled is_kept (zones_in zones.old))) }
    ensures same { zones_in zones.new ≡ zones_in zones.old }
{
    match read_update(alloc, message) {
        Ok(asked) => {
            let plan = asked_plan(
                alloc, zones, access, key, origin, signing, is_kept, asked, out,
            )?;
            Ok(plan)
        }
        Err(UpdateError::Memory) => Err(AllocError),
        Err(UpdateError::NoUpdate) => {
            other_plan(alloc, zones, access, key, is_kept, message, out)
        }
        Err(UpdateError::Malformed(_)) => {
            other_plan(alloc, zones, access, key, is_kept, message, out)
        }
        Err(UpdateError::OtherClass(_)) => {
            other_plan(alloc, zones, access, key, is_kept, message, out)
        }
    }
}

/// What is planned for the owner of a key of a message that asks for no update of a zone, or of another.
fn other_plan(
    alloc: Global,
    zones: &mut ZoneDatabase,
    access: &UpdateAccess,
    key: &LowerName,
    is_kept: bool,
    message: &[u8],
    out: &mut Vec<u8>,
) -> Result<SignedPlan, AllocError>
    ensures plan { IfOk result (λ plan. IsPlanned
        (Plans (outcome_among access.now (Some key.now) (zones_in zones.old))
        (update_of message.now)) plan out.new.items) }
    ensures journaled { IfOk result
        (IfPlanned (IsPlanJournaled is_kept (zones_in zones.old))) }
    ensures same { zones_in zones.new ≡ zones_in zones.old }
{
    let planned = plan_for(alloc, zones, access, Some(key), is_kept, message, out)?;
    Ok(SignedPlan::Planned(planned))
}

/// The same for an update that was read.
#[tactic(auto, using(crate::proofs::Beginnings::of_signed, crate::proofs::Beginnings::of_other))]
fn asked_plan(
    alloc: Global,
    zones: &mut ZoneDatabase,
    access: &UpdateAccess,
    key: &LowerName,
    origin: &LowerName,
    signing: Signing,
    is_kept: bool,
    asked: UpdateMessage,
    out: &mut Vec<u8>,
) -> Result<SignedPlan, AllocError>
    ensures plan { IfOk result (λ plan. PlansRead access.now (Some key.now) origin.now signing
        (zones_in zones.old) (Ok (parts_of asked)) plan out.new.items) }
    ensures journaled { IfOk result
        (IfPlanned (IsPlanJournaled is_kept (zones_in zones.old))) }
    ensures same { zones_in zones.new ≡ zones_in zones.old }
{
    let Ok(name) = LowerName::new(&asked.zone) else {
        return Err(AllocError);
    };
    let found = own_zone(zones, origin, &name)?;
    match found {
        Some(zone) => {
            let (rules, sets) = (access.rules_for(&name), zone.inner.record_map());
            let reply = answer_signed_update(
                alloc,
                rules,
                Some(key),
                name,
                sets,
                asked,
                signing,
                out,
            )?;
            Ok(SignedPlan::Signed(reply))
        }
        None => {
            let planned = plan_asked(alloc, zones, access, Some(key), is_kept, asked, out)?;
            Ok(SignedPlan::Planned(planned))
        }
    }
}

/// The zone of a name, if that is this origin, and the zone is there, hasn't expired and is signed.
fn own_zone<'a>(
    zones: &'a ZoneDatabase,
    origin: &LowerName,
    name: &LowerName,
) -> Result<Option<&'a Zone>, AllocError>
    ensures { IfOk result
        (λ zone. option_copied zone ≡ own_zone origin.now name.now (zones_in zones.now)) }
{
    if *origin != *name {
        return Ok(None);
    }
    let Some(zone) = zones.get(name) else {
        return Ok(None);
    };
    if has_expired(zone)? {
        return Ok(None);
    }
    if is_signed(zone)? {
        Ok(Some(zone))
    } else {
        Ok(None)
    }
}
