//! The response to an update of a signed zone, and the zone after it, prepared.
ghost use Rattle.std.specs.Prelude.{◌≡◌, ◌<◌, IfOk, OnOk, option_copied};
ghost use Rattle.update_answers.specs.Replies.{reply_text};
ghost use Rattle.update_message.specs.Updates.{parts_of};
ghost use Rattle.update_signing.specs.Replies.{course_for, reply_code, reply_of, IsSignedReply};

use crate::preparing::prepare_if_permitted;
use message_reading::Header;
use std::alloc::{AllocError, Global};
use update_denials::{PrepareFault, Prepared, Signing};
use update_message::{OPCODE, UpdateMessage, write_response};
use update_policy::Rule;
use zone_map::RecordMap;
use zone_planning::PlanFault;
use zone_proto::LowerName;
use zone_update::Refusal;

/// What came of an update of a signed zone.
#[derive(Drop)]
pub enum SignedReply {
    /// It is refused.
    Refused(Refusal),
    /// The zone after it can't be signed: the response is SERVFAIL.
    Unsigned(PlanFault),
    /// It is carried out, and changes nothing.
    Unchanged,
    /// It is carried out: this is the zone after it, with blank signatures where one is to be made. The response goes out once that is signed
    /// and stands in its place.
    Prepared(Prepared),
}

impl SignedReply {
    /// The code of the response (RFC 1035 section 4.1.1, RFC 2136 section 2.2), in four bits.
    #[tactic(auto, using(crate::proofs::Outcomes::reply_short))]
    pub fn code(&self) -> u8
        ensures code { result ≡ reply_code self.now }
        ensures short { result < 16 }
    {
        match self {
            SignedReply::Refused(refusal) => refusal.code(),
            SignedReply::Unsigned(_) => Refusal::Memory.code(),
            SignedReply::Unchanged | SignedReply::Prepared(_) => 0,
        }
    }
}

/// Prepares the zone of an origin after an update that was read, for the owner of a key, and writes the response in place of the octets
/// of `out`. The zone is only read. Whether the update names it, and whether its TSIG is right, is to be looked at before.
///
/// The code of the response is NOERROR where the update is carried out; otherwise that of the refusal (RFC 2136 section 2.2), in the order of
/// [`prepare_if_permitted`]; and SERVFAIL where the zone after it can't be signed, or for want of memory. The response has an OPT record
/// where the update has one (RFC 6891 section 6.1.1).
///
/// # Errors
///
/// `AllocError` where no memory is found for the response; what `out` has is none then.
#[tactic(auto, using(crate::proofs::Outcomes::replied))]
pub fn answer_signed_update(
    alloc: Global,
    rules: &[Rule],
    key: Option<&LowerName>,
    origin: LowerName,
    zone: &RecordMap,
    asked: UpdateMessage,
    signing: Signing,
    out: &mut Vec<u8>,
) -> Result<SignedReply, AllocError>
    ensures { IfOk result (λ reply. IsSignedReply origin zone.now signing
        (course_for rules.now (option_copied key.entry) origin zone.now)
        (parts_of asked) reply out.new.items) }
{
    let UpdateMessage {
        header,
        update,
        has_extension,
        ..
    } = asked;
    let reply = reply_of(prepare_if_permitted(alloc, rules, key, origin, zone, update, signing));
    respond(out, header, reply.code(), has_extension)?;
    Ok(reply)
}

/// What came of an update that ended so.
fn reply_of(outcome: Result<Option<Prepared>, PrepareFault>) -> SignedReply
    ensures { result ≡ reply_of outcome }
{
    match outcome {
        Ok(Some(prepared)) => SignedReply::Prepared(prepared),
        Ok(None) => SignedReply::Unchanged,
        Err(PrepareFault::Refused(refusal)) => SignedReply::Refused(refusal),
        Err(PrepareFault::Unsigned(fault)) => SignedReply::Unsigned(fault),
        Err(PrepareFault::Memory) => SignedReply::Refused(Refusal::Memory),
    }
}

/// Writes a response with a code of four bits.
fn respond(
    out: &mut Vec<u8>,
    header: Header,
    code: u8,
    has_extension: bool,
) -> Result<(), AllocError>
    requires { code < 16 }
    ensures { OnOk result (out.new.items ≡ reply_text header code has_extension) }
{
    let header = Header {
        opcode: OPCODE,
        ..header
    };
    write_response(out, header, code, has_extension)
}
