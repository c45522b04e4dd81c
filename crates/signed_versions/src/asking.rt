//! Updates of a signed zone that messages ask for, made in the version that is to take its place.
ghost use Rattle.std.specs.Prelude.{◌≡◌, false, true, IfOk, IfSome, Ok, OnOk, Some};
ghost use Rattle.std.specs.List.{find};
ghost use Rattle.message_tsig.specs.Checking.{IsAuthenticIfSigned};
ghost use Rattle.update_answers.specs.Replies.{reply_text};
ghost use Rattle.update_in_place.specs.Parts.{names_about};
ghost use Rattle.update_message.specs.Updates.{parts_of, update_of};
ghost use Rattle.update_permission.specs.Permissions.{updated_if_permitted};
ghost use Rattle.zone_database.specs.declared.zone.Zone.{Zone as OfDatabase};
ghost use Rattle.zone_database.specs.Databases.{begins_at, zones_in};
ghost use Rattle.held_updates.specs.Planning.{has_expired, is_signed};
ghost use Rattle.signed_versions.specs.Asking.{IsAskedFor, IsMadeFor};
ghost use Rattle.signed_versions.specs.Begun.{IsBegunIn};

use crate::beginning::{BegunVersion, begin_version};
use crate::waiting::WaitingVersion;
use held_updates::{UpdateAccess, has_expired, is_signed, is_update, sign_response};
use message_reading::{Header, read_header};
use message_tsig::{Checked, check_request};
use signed_in_place::UpdateFault;
use std::alloc::{AllocError, Global};
use update_message::{OPCODE, UpdateError, UpdateMessage, read_update, write_response};
use update_policy::Rule;
use zone_database::ZoneDatabase;
use zone_planner::{PlannedKey, Request};
use zone_planning::PlanFault;
use zone_proto::LowerName;
use zone_update::Update;

/// Makes the update that a message asks for in the version that is to take the place of the signed zone of this origin, as [`begin_version`] does, and writes
/// the response in place of the octets of `out`: it goes out once the signatures are made, and the version has taken its place. The zones stay as they are.
///
/// None where anything else is to come of the message, which `begin_signed_update` of `signed_updates` says then, so that this can be asked first: where it is
/// no update, or isn't found signed under a key of the server (RFC 8945 section 5.2); where it names another zone, or one that has expired or isn't signed;
/// and where the update is refused, changes nothing, or isn't local. The octets of `out` are no response then.
///
/// # Errors
///
/// `AllocError` for want of memory.
pub fn begin_asked_version(
    alloc: Global,
    zones: &mut ZoneDatabase,
    access: &UpdateAccess,
    origin: &LowerName,
    keys: &[PlannedKey],
    request: &Request,
    now: u64,
    message: &[u8],
    out: &mut Vec<u8>,
) -> Result<Option<WaitingVersion>, AllocError>
    ensures asked { IfOk result (λ found. IfSome found (λ v. IsAskedFor access.now origin.now
        keys.now request.now now message.now (zones_in zones.old) v out.new.items)) }
    ensures same { zones_in zones.new ≡ zones_in zones.old }
{
    if !asks_for_update(message) {
        return Ok(None);
    }
    match check_request(alloc, access.keys.as_slice(), now, message) {
        Ok(checked) => begin_checked(
            alloc, zones, access, origin, keys, request, now, message, checked, out,
        ),
        Err(_) => Err(AllocError),
    }
}

/// Whether a message is an update (RFC 2136 section 2.2).
fn asks_for_update(message: &[u8]) -> bool {
    match read_header(message) {
        Some((header, _)) => is_update(header),
        None => false,
    }
}

/// The same of an update, by what its TSIG is found to be.
#[tactic(auto, using(crate::proofs::Asked::asked_for))]
fn begin_checked(
    alloc: Global,
    zones: &mut ZoneDatabase,
    access: &UpdateAccess,
    origin: &LowerName,
    keys: &[PlannedKey],
    request: &Request,
    now: u64,
    message: &[u8],
    checked: Checked<'_>,
    out: &mut Vec<u8>,
) -> Result<Option<WaitingVersion>, AllocError>
    requires { IsAuthenticIfSigned access.now.keys.items now message.now checked }
    ensures asked { IfOk result (λ found. IfSome found (λ v. IsAskedFor access.now origin.now
        keys.now request.now now message.now (zones_in zones.old) v out.new.items)) }
    ensures same { zones_in zones.new ≡ zones_in zones.old }
{
    let Checked::Signed(tsig, key, rest) = checked else {
        return Ok(None);
    };
    let rest = rest.as_slice();
    let made = begin_read(
        alloc, zones, access, origin, keys, request, &key.name, rest, out,
    )?;
    match made {
        Some(version) => {
            sign_response(alloc, &tsig, key, now, out)?;
            Ok(Some(version))
        }
        None => Ok(None),
    }
}

/// The same for the owner of a key, of a message without its TSIG.
fn begin_read(
    alloc: Global,
    zones: &mut ZoneDatabase,
    access: &UpdateAccess,
    origin: &LowerName,
    keys: &[PlannedKey],
    request: &Request,
    key: &LowerName,
    message: &[u8],
    out: &mut Vec<u8>,
) -> Result<Option<WaitingVersion>, AllocError>
    ensures made { IfOk result (λ found. IfSome found (λ v. IsMadeFor access.now origin.now
        keys.now request.now key.now message.now (zones_in zones.old) v out.new.items)) }
    ensures same { zones_in zones.new ≡ zones_in zones.old }
{
    match read_update(alloc, message) {
        Ok(asked) => begin_update(
            alloc, zones, access, origin, keys, request, key, message, asked, out,
        ),
        Err(UpdateError::Memory) => Err(AllocError),
        Err(_) => Ok(None),
    }
}

/// The same of an update that was read of it.
fn begin_update(
    alloc: Global,
    zones: &mut ZoneDatabase,
    access: &UpdateAccess,
    origin: &LowerName,
    keys: &[PlannedKey],
    request: &Request,
    key: &LowerName,
    message: &[u8],
    asked: UpdateMessage,
    out: &mut Vec<u8>,
) -> Result<Option<WaitingVersion>, AllocError>
    requires { update_of message.now ≡ Ok (parts_of asked) }
    ensures made { IfOk result (λ found. IfSome found (λ v. IsMadeFor access.now origin.now
        keys.now request.now key.now message.now (zones_in zones.old) v out.new.items)) }
    ensures same { zones_in zones.new ≡ zones_in zones.old }
{
    let Ok(name) = LowerName::new(&asked.zone) else {
        return Err(AllocError);
    };
    if !is_same(&name, origin) {
        return Ok(None);
    }
    if !is_signed_zone(zones, origin)? {
        return Ok(None);
    }
    let UpdateMessage {
        header,
        update,
        has_extension,
        ..
    } = asked;
    let rules = access.rules_for(origin);
    let Some(version) = waiting_version(alloc, zones, rules, key, origin, update, keys, request)?
    else {
        return Ok(None);
    };
    respond(out, header, has_extension)?;
    Ok(Some(version))
}

/// Whether two names are the same.
fn is_same(name: &LowerName, other: &LowerName) -> bool
    ensures { result ≡ true → name.now ≡ other.now }
{
    name == other
}

/// The version that [`begin_version`] makes for the owner of a key, where it makes one. Fails only for lack of memory.
fn waiting_version(
    alloc: Global,
    zones: &mut ZoneDatabase,
    rules: &[Rule],
    key: &LowerName,
    origin: &LowerName,
    update: Update,
    keys: &[PlannedKey],
    request: &Request,
) -> Result<Option<WaitingVersion>, AllocError>
    ensures waiting { IfOk result (λ found. IfSome found (λ v. IsBegunIn origin.now keys.now
        request.now (names_about origin.now update.changes.items) update.changes.items
        (λ m. updated_if_permitted rules.now (Some key.now) origin.now m
        update.prerequisites.items update.changes.items)
        (find (begins_at origin.now) (zones_in zones.old)) (BegunVersion.Waiting v))) }
    ensures same { zones_in zones.new ≡ zones_in zones.old }
{
    match begin_version(
        alloc,
        zones,
        rules,
        Some(key),
        origin,
        update,
        keys,
        request,
    ) {
        Ok(BegunVersion::Waiting(version)) => Ok(Some(version)),
        Ok(_) => Ok(None),
        Err(UpdateFault::Unsigned(PlanFault::Memory)) => Err(AllocError),
        Err(_) => Ok(None),
    }
}

/// Whether the zone of an origin is there, hasn't expired and is signed.
fn is_signed_zone(zones: &ZoneDatabase, origin: &LowerName) -> Result<bool, AllocError>
    ensures { IfOk result (λ is. is ≡ true → (z : OfDatabase)
        × (find (begins_at origin.now) (zones_in zones.now) ≡ Some z)
        × (has_expired z ≡ false) × (is_signed z ≡ true)) }
{
    let Some(zone) = zones.get(origin) else {
        return Ok(false);
    };
    if has_expired(zone)? {
        return Ok(false);
    }
    Ok(is_signed(zone)?)
}

/// Writes the response to an update that is carried out.
fn respond(out: &mut Vec<u8>, header: Header, has_extension: bool) -> Result<(), AllocError>
    ensures { OnOk result (out.new.items ≡ reply_text header 0 has_extension) }
{
    let header = Header {
        opcode: OPCODE,
        ..header
    };
    write_response(out, header, 0, has_extension)
}
