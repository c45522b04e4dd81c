//! The response to an update, and the zone after it.
ghost use Rattle.std.specs.Prelude.{◌≡◌, ◌<◌, Err, IfErr, IfOk, IsOkUnless, None, Ok, OnOk, if◌then◌else◌, option_copied};
ghost use Rattle.zone_update.specs.Entries.{code_of, Gives};
ghost use Rattle.zone_update.specs.declared.refusal.Refusal.TheVariants.{NotAuth};
ghost use Rattle.update_permission.specs.Permissions.{updated_if_permitted};
ghost use Rattle.update_answers.specs.Replies.{is_zone, outcome, reply_text, IsReply, IsUnanswered};
ghost use Rattle.update_message.specs.Updates.{parts_of, update_of};

use message_reading::Header;
use std::alloc::{AllocError, Global};
use update_message::{OPCODE, UpdateError, UpdateMessage, read_update, write_response};
use update_permission::updated_if_permitted;
use update_policy::Rule;
use zone_map::RecordMap;
use zone_proto::{LowerName, Name, ProtoError};
use zone_update::{Refusal, Update};

/// What came of an update that is answered.
#[derive(Drop)]
pub enum UpdateReply {
    /// It is refused.
    Refused,
    /// It is carried out, and changes nothing: the zone is as it was.
    Unchanged,
    /// It is carried out: these are the sets of the zone after it.
    Updated(RecordMap),
}

/// Why a message isn't answered.
#[derive(Clone, Copy, PartialEq, Eq, Debug)]
pub enum UpdateFault {
    /// It is no update: fewer octets than a header has, a response, or another opcode.
    NoUpdate,
    /// A growth that the allocator refused.
    Memory,
}

/// Want of memory is `Memory`.
impl From<AllocError> for UpdateFault {
    ghost use Rattle.update_answers.specs.declared.answering.UpdateFault.TheVariants.{Memory};

    ghost from_gives = { λ _ e. e ≡ Memory };

    fn from(_: AllocError) -> UpdateFault {
        UpdateFault::Memory
    }
}

/// Carries out an update of the zone of an origin, which is a message of these octets, for the owner of a key, and writes the response in
/// place of the octets of `out`. Where the update is taken, its code is NOERROR. The sets of the zone are only read; those after an update that
/// changes them are beside them.
///
/// The steps are those of RFC 2136 section 3: the zone section is looked at (section 3.1), then the update is carried out where the rules
/// permit it, as `updated_if_permitted` of `update_permission` says. Whether a TSIG is right is to be looked at before, and it is to be
/// taken off the message: `key` is the name of its key, if there is one (RFC 8945 section 5.2).
///
/// The code of the response is FORMERR for octets that aren't of the form of an update (section 3.1.1); NOTAUTH for a zone of another class
/// or another name (section 3.1.2); that of the refusal (section 2.2); and SERVFAIL, in place of a refusal, for want of memory. The
/// response has an OPT record where the update has one (RFC 6891 section 6.1.1).
///
/// # Errors
///
/// `NoUpdate` for a message that is no update. `Memory` where none is found; `out` has then no octets, or the first of a response.
pub fn answer_update(
    alloc: Global,
    out: &mut Vec<u8>,
    message: &[u8],
    origin: &LowerName,
    zone: &RecordMap,
    rules: &[Rule],
    key: Option<&LowerName>,
) -> Result<UpdateReply, UpdateFault>
    ensures reply { IfOk result (λ came. IsReply
        (outcome rules.now (option_copied key.entry) origin.now zone.now)
        (update_of message.now) came out.new.items) }
    ensures fault { IfErr result (IsUnanswered message.now) }
{
    match read_update(alloc, message) {
        Ok(asked) => answer_asked(alloc, out, origin, zone, rules, key, asked),
        Err(UpdateError::Malformed(header)) => {
            refuse(out, header, Refusal::FormErr, false)?;
            Ok(UpdateReply::Refused)
        }
        Err(UpdateError::OtherClass(header)) => {
            refuse(out, header, Refusal::NotAuth, false)?;
            Ok(UpdateReply::Refused)
        }
        Err(UpdateError::NoUpdate) => Err(UpdateFault::NoUpdate),
        Err(UpdateError::Memory) => Err(UpdateFault::Memory),
    }
}

/// Carries out an update that was read, and writes its response.
fn answer_asked(
    alloc: Global,
    out: &mut Vec<u8>,
    origin: &LowerName,
    zone: &RecordMap,
    rules: &[Rule],
    key: Option<&LowerName>,
    asked: UpdateMessage,
) -> Result<UpdateReply, UpdateFault>
    ensures reply { IfOk result (λ came. IsReply
        (outcome rules.now (option_copied key.entry) origin.now zone.now)
        (Ok (parts_of asked)) came out.new.items) }
    ensures fault { IfErr result (λ e. e ≡ UpdateFault.Memory) }
{
    let UpdateMessage {
        header,
        zone: name,
        update,
        has_extension,
    } = asked;
    match carry_out(alloc, origin, zone, rules, key, name, update) {
        Ok(Some(after)) => {
            write(out, header, 0, has_extension)?;
            Ok(UpdateReply::Updated(after))
        }
        Ok(None) => {
            write(out, header, 0, has_extension)?;
            Ok(UpdateReply::Unchanged)
        }
        Err(refusal) => {
            refuse(out, header, refusal, has_extension)?;
            Ok(UpdateReply::Refused)
        }
    }
}

/// The sets of a zone after an update of the zone of this name, or none where it changes nothing.
fn carry_out(
    alloc: Global,
    origin: &LowerName,
    zone: &RecordMap,
    rules: &[Rule],
    key: Option<&LowerName>,
    name: Name,
    update: Update,
) -> Result<Option<RecordMap>, Refusal>
    ensures { Gives result
        (if is_zone origin.now name then
        updated_if_permitted rules.now (option_copied key.entry) origin.now zone.now
        update.prerequisites.items update.changes.items else Err NotAuth) }
{
    match is_zone(origin, &name) {
        Ok(true) => updated_if_permitted(alloc, rules, key, origin, zone, update),
        Ok(false) => Err(Refusal::NotAuth),
        Err(_) => Err(Refusal::Memory),
    }
}

/// Whether a name is that of the zone. Refused by `Memory` alone.
fn is_zone(origin: &LowerName, name: &Name) -> Result<bool, ProtoError>
    ensures ok { IfOk result (λ is. is ≡ is_zone origin.now name.now) }
    ensures err { IsOkUnless result ProtoError.Memory }
{
    let name = LowerName::new(name)?;
    Ok(name == *origin)
}

/// Writes the response of a refusal.
fn refuse(
    out: &mut Vec<u8>,
    header: Header,
    refusal: Refusal,
    has_extension: bool,
) -> Result<(), UpdateFault>
    ensures octets { OnOk result
        (out.new.items ≡ reply_text header (code_of refusal) has_extension) }
    ensures fault { IfErr result (λ e. e ≡ UpdateFault.Memory) }
{
    write(out, header, refusal.code(), has_extension)
}

/// Writes a response with a code of four bits.
fn write(
    out: &mut Vec<u8>,
    header: Header,
    code: u8,
    has_extension: bool,
) -> Result<(), UpdateFault>
    requires { code < 16 }
    ensures octets { OnOk result (out.new.items ≡ reply_text header code has_extension) }
    ensures fault { IfErr result (λ e. e ≡ UpdateFault.Memory) }
{
    let header = Header {
        opcode: OPCODE,
        ..header
    };
    Ok(write_response(out, header, code, has_extension)?)
}
