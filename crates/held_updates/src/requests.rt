//! What is planned of a message that may be an update, by its TSIG.
ghost use Rattle.std.specs.Prelude.{◌≡◌, IfOk, OnOk, option_copied};
ghost use Rattle.message_tsig.specs.Checking.{checked_kept, checked_of, IsAuthenticIfSigned};
ghost use Rattle.message_tsig.specs.Signing.{refused_text, signed_message};
ghost use Rattle.zone_database.specs.Databases.{zones_in};
ghost use Rattle.held_updates.specs.Journaling.{IsPlanJournaled};
ghost use Rattle.held_updates.specs.Planning.{is_update, signing_of, PlansAs, PlansBy, PlansSigned, PlansUpdate};

use crate::access::UpdateAccess;
use crate::planned::PlannedUpdate;
use crate::planning::{plan_for, refuse};
use message_reading::{Header, read_header};
use message_tsig::{Checked, Key, ResponseSigner, Tsig, TsigError, check_request, tsig_size};
use std::alloc::{AllocError, Global};
use update_message::OPCODE;
use zone_database::ZoneDatabase;
use zone_update::Refusal;

/// Carries out an update beside its zone, one of the zones of a database, which stay as they are, for those who have a key of a server and whom its
/// rules permit it, at a moment in seconds since 1970, and writes the response in place of the octets of `out`. Messages of other kinds are left to
/// `held_transfers::answer_with_keys` and its like.
///
/// Where the TSIG can't be read the response is FORMERR, and where it is refused NOTAUTH with the error: BADKEY, BADSIG, BADTIME or BADTRUNC
/// (RFC 8945 sections 5.2 and 5.3.2). Otherwise the code is FORMERR for octets that aren't of the form of an update (RFC 2136 section 3.1.1);
/// NOTAUTH where the database has no zone of the name and the class (section 3.1.2); SERVFAIL for a zone that has expired, as for its queries (RFC
/// 1034 section 4.3.5); REFUSED for a zone that is signed, since its chain wouldn't be closed, and signatures would be missing; and what
/// `updated_if_permitted` of `update_permission` says: REFUSED without a TSIG. SERVFAIL may come in place of each of these, for want of memory, or
/// where a journal can't take the change: `write_entry` of `zone_journal` refuses it. The response to a message that was found signed is signed by
/// its key.
///
/// An update that changes nothing is done with its response. Of another the response goes out when the zone after it stands in place of the one
/// of its origin (RFC 2136 section 3.5), by [`commit_update`](crate::commit_update). Where journals are kept, `is_kept`, the frame of the zone has to
/// be in the file of its journal before, and synced, so that no version is served that a crash would take back.
///
/// # Errors
///
/// `AllocError` for want of memory; what `out` has is no response then.
pub fn plan_update(
    alloc: Global,
    zones: &mut ZoneDatabase,
    access: &UpdateAccess,
    now: u64,
    is_kept: bool,
    message: &[u8],
    out: &mut Vec<u8>,
) -> Result<PlannedUpdate, AllocError>
    ensures plan { IfOk result (λ planned. PlansUpdate access.now now message.now
        (zones_in zones.old) planned out.new.items) }
    ensures journaled { IfOk result (IsPlanJournaled is_kept (zones_in zones.old)) }
    ensures same { zones_in zones.new ≡ zones_in zones.old }
{
    match read_header(message) {
        Some((header, _)) => {
            plan_header(alloc, zones, access, now, is_kept, message, header, out)
        }
        None => Ok(PlannedUpdate::Other),
    }
}

/// The same for a message whose header is this.
#[tactic(auto, using(crate::proofs::Plans::as_update, crate::proofs::Plans::as_other))]
fn plan_header(
    alloc: Global,
    zones: &mut ZoneDatabase,
    access: &UpdateAccess,
    now: u64,
    is_kept: bool,
    message: &[u8],
    header: Header,
    out: &mut Vec<u8>,
) -> Result<PlannedUpdate, AllocError>
    ensures plan { IfOk result (λ planned. PlansAs access.now now message.now header
        (zones_in zones.old) planned out.new.items) }
    ensures journaled { IfOk result (IsPlanJournaled is_kept (zones_in zones.old)) }
    ensures same { zones_in zones.new ≡ zones_in zones.old }
{
    if is_update(header) {
        let planned = plan_signed(alloc, zones, access, now, is_kept, message, header, out)?;
        Ok(planned)
    } else {
        Ok(PlannedUpdate::Other)
    }
}

/// Whether a header is that of an update (RFC 2136 section 1.3), and no response.
pub fn is_update(header: Header) -> bool
    ensures { result ≡ is_update header }
{
    !header.is_response && header.opcode == OPCODE
}

/// The same for an update, whose header is this.
fn plan_signed(
    alloc: Global,
    zones: &mut ZoneDatabase,
    access: &UpdateAccess,
    now: u64,
    is_kept: bool,
    message: &[u8],
    header: Header,
    out: &mut Vec<u8>,
) -> Result<PlannedUpdate, AllocError>
    ensures plan { IfOk result (λ planned. PlansBy access.now now message.now header
        (checked_of access.now.keys.items now message.now)
        (zones_in zones.old) planned out.new.items) }
    ensures journaled { IfOk result (IsPlanJournaled is_kept (zones_in zones.old)) }
    ensures same { zones_in zones.new ≡ zones_in zones.old }
{
    match check_request(alloc, access.keys.as_slice(), now, message) {
        Ok(checked) => plan_checked(
            alloc, zones, access, now, is_kept, message, header, checked, out,
        ),
        Err(_) => Err(AllocError),
    }
}

/// The same by what the TSIG of the update is found to be.
fn plan_checked(
    alloc: Global,
    zones: &mut ZoneDatabase,
    access: &UpdateAccess,
    now: u64,
    is_kept: bool,
    message: &[u8],
    header: Header,
    checked: Checked<'_>,
    out: &mut Vec<u8>,
) -> Result<PlannedUpdate, AllocError>
    requires { IsAuthenticIfSigned access.now.keys.items now message.now checked }
    ensures plan { IfOk result (λ planned. PlansBy access.now now message.now header
        (checked_kept checked.entry)
        (zones_in zones.old) planned out.new.items) }
    ensures journaled { IfOk result (IsPlanJournaled is_kept (zones_in zones.old)) }
    ensures same { zones_in zones.new ≡ zones_in zones.old }
{
    match checked {
        Checked::Unsigned => plan_for(alloc, zones, access, None, is_kept, message, out),
        Checked::Malformed => {
            refuse(out, header, Refusal::FormErr, false)?;
            Ok(PlannedUpdate::Refused)
        }
        Checked::Refused(tsig, error, key, rest) => {
            refuse_tsig(alloc, &tsig, error, key, now, rest.as_slice(), out)?;
            Ok(PlannedUpdate::Refused)
        }
        Checked::Signed(tsig, key, rest) => {
            let planned = plan_authentic(
                alloc,
                zones,
                access,
                &tsig,
                key,
                now,
                is_kept,
                rest.as_slice(),
                out,
            )?;
            Ok(planned)
        }
    }
}

/// The same for an update that was found signed under a key, without its TSIG.
#[tactic(auto, using(crate::proofs::Plans::signed))]
fn plan_authentic(
    alloc: Global,
    zones: &mut ZoneDatabase,
    access: &UpdateAccess,
    tsig: &Tsig,
    key: &Key,
    now: u64,
    is_kept: bool,
    message: &[u8],
    out: &mut Vec<u8>,
) -> Result<PlannedUpdate, AllocError>
    ensures plan { IfOk result (λ planned. PlansSigned access.now now tsig.now
        key.now message.now (zones_in zones.old) planned out.new.items) }
    ensures journaled { IfOk result (IsPlanJournaled is_kept (zones_in zones.old)) }
    ensures same { zones_in zones.new ≡ zones_in zones.old }
{
    let planned = plan_for(alloc, zones, access, Some(&key.name), is_kept, message, out)?;
    sign_response(alloc, tsig, key, now, out)?;
    Ok(planned)
}

/// Signs the response to a request with this TSIG under a key, whole (RFC 8945 section 5.3). Fails only for lack of memory; what `message` has is no
/// response then.
#[tactic(auto, using(crate::proofs::Fits::fits))]
pub fn sign_response(
    alloc: Global,
    request: &Tsig,
    key: &Key,
    now: u64,
    message: &mut Vec<u8>,
) -> Result<(), AllocError>
    ensures { OnOk result (message.new.items
        ≡ signed_message key.now now (signing_of request.now) message.old.items) }
{
    let Ok(mut signer) = ResponseSigner::new(alloc, request) else {
        return Err(AllocError);
    };
    let limit = message.as_slice().len() + tsig_size(key);
    match signer.sign(alloc, key, now, limit, message.as_slice()) {
        Ok(text) => {
            *message = text;
            Ok(())
        }
        Err(_) => Err(AllocError),
    }
}

/// Writes the response to an update whose TSIG is refused.
fn refuse_tsig(
    alloc: Global,
    tsig: &Tsig,
    error: TsigError,
    key: Option<&Key>,
    now: u64,
    message: &[u8],
    out: &mut Vec<u8>,
) -> Result<(), AllocError>
    ensures { OnOk result (out.new.items
        ≡ refused_text tsig.now error (option_copied key.entry) now message.now) }
{
    match message_tsig::refuse(alloc, tsig, error, key, now, message) {
        Ok(text) => {
            *out = text;
            Ok(())
        }
        Err(_) => Err(AllocError),
    }
}
