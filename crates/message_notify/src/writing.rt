//! NOTIFY messages and their responses, written.
ghost use Rattle.std.specs.Prelude.{◌≡◌, ◌++◌, IfOk, OnOk};
ghost use Rattle.message_notify.specs.Texts.{code_of, high_octet_of, notify_text, question_text, response_text};

use crate::notify::{Notify, NotifyOutcome};
use message_writing::push_short;
use std::alloc::Global;
use zone_proto::{Name, ProtoError};

/// The octets of a NOTIFY for the zone of an origin, of class IN: opcode 4, AA, and the question for its SOA record, with no hint (RFC 1996
/// section 3). Refused for want of memory alone.
pub fn write_notify(alloc: Global, id: u16, origin: &Name) -> Result<Vec<u8>, ProtoError>
    ensures { IfOk result (λ text. text.items ≡ notify_text id origin.now) }
{
    let mut out = Vec::new(alloc);
    push_short(&mut out, id)?;
    out.extend_from_slice(&[36, 0])?;
    push_question(&mut out, origin)?;
    Ok(out)
}

/// The octets of the response to a NOTIFY: QR, the identifier, the opcode and the question of the NOTIFY, the code of an outcome, and AA where
/// it was taken (RFC 1996 section 3). Refused for want of memory alone.
pub fn write_notify_response(
    alloc: Global,
    notify: &Notify,
    outcome: NotifyOutcome,
) -> Result<Vec<u8>, ProtoError>
    ensures { IfOk result (λ text. text.items ≡ response_text notify.now outcome) }
{
    let mut out = Vec::new(alloc);
    push_short(&mut out, notify.id)?;
    out.push(high_octet_of(outcome))?;
    out.push(code_of(outcome))?;
    push_question(&mut out, &notify.origin)?;
    Ok(out)
}

/// QR, the opcode, and AA where the NOTIFY was taken.
fn high_octet_of(outcome: NotifyOutcome) -> u8
    ensures { result ≡ high_octet_of outcome }
{
    match outcome {
        NotifyOutcome::Taken => 164,
        NotifyOutcome::NotAuthoritative | NotifyOutcome::Refused => 160,
    }
}

/// The response code of an outcome (RFC 1035 section 4.1.1, RFC 2136 section 2.2).
fn code_of(outcome: NotifyOutcome) -> u8
    ensures { result ≡ code_of outcome }
{
    match outcome {
        NotifyOutcome::Taken => 0,
        NotifyOutcome::NotAuthoritative => 9,
        NotifyOutcome::Refused => 5,
    }
}

/// Appends the counts of one question and no record, and the question for the SOA record of a zone.
fn push_question(out: &mut Vec<u8>, origin: &Name) -> Result<(), ProtoError>
    ensures { OnOk result (out.new.items ≡ out.old.items ++ question_text origin.now) }
{
    let name = origin.wire_lower()?;
    out.extend_from_slice(&[0, 1, 0, 0, 0, 0, 0, 0])?;
    out.extend_from_slice(name.as_slice())?;
    out.extend_from_slice(&[0, 6, 0, 1])?;
    Ok(())
}
