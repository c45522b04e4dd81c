//! The steps that the one lacks who asks for what changed in a zone.
ghost use Rattle.std.specs.Prelude.{◌≡◌, IfOk, option_copied, option_map};
ghost use Rattle.held_steps.specs.Lacking.{lacked, lacked_by, steps_to, GivesLacked, GivesSteps};

use crate::histories::HeldSteps;
use crate::history::ZoneHistory;
use crate::serial::serial_in;
use condensed_answers::condensed_messages;
use held_transfers::HeldTransfer;
use kept_steps::KeptSteps;
use shown_zones::ZoneStep;
use std::alloc::{AllocError, Global};
use transfer_messages::ROOM;
use zone_database::Zone;
use zone_proto::RecordType;
use zone_server::{DATAGRAM_SIZE, client_serial, soa_key};

/// The messages of the steps that the one who asks lacks, of whom this is the message, where the zone is being sent: of one step in their place
/// where they are two or more. None where the steps aren't kept, or a record can't be sent. Fails only for lack of memory.
#[tactic(auto, using(crate::proofs::Lacked::gives_steps, crate::proofs::Lacked::gives_nothing))]
pub(crate) fn messages_lacked(
    alloc: Global,
    steps: &HeldSteps,
    held: &HeldTransfer,
    message: &[u8],
) -> Result<Option<Vec<Vec<u8>>>, AllocError>
    ensures { IfOk result (GivesSteps steps.now held.now message.now) }
{
    match lacked(alloc, steps, held, message)? {
        Some(lacked) => messages_of(alloc, held, lacked),
        None => Ok(None),
    }
}

/// The messages of steps to the version that is being sent, condensed into one where they are two or more (RFC 1995 section 5).
#[tactic(auto, using(crate::proofs::Lacked::gives_to, crate::proofs::Lacked::gives_without))]
fn messages_of(
    alloc: Global,
    held: &HeldTransfer,
    steps: &[ZoneStep],
) -> Result<Option<Vec<Vec<u8>>>, AllocError>
    ensures { IfOk result (GivesLacked held.now steps.now) }
{
    let Ok(key) = soa_key(&held.zone.origin) else {
        return Err(AllocError);
    };
    match held.zone.inner.get(&key) {
        Some(soa) => condensed_messages(
            alloc,
            &held.transfer.query,
            &held.zone.origin,
            soa,
            steps,
            DATAGRAM_SIZE,
            ROOM,
        ),
        None => Ok(None),
    }
}

/// The steps that the one who asks lacks, of whom this is the message.
fn lacked<'s>(
    alloc: Global,
    steps: &'s HeldSteps,
    held: &HeldTransfer,
    message: &[u8],
) -> Result<Option<&'s [ZoneStep]>, AllocError>
    ensures { IfOk result (λ given. option_map (λ x. x.now) given
        ≡ lacked steps.now held.now message.now) }
{
    if held.transfer.query.question.query_type != RecordType::IXFR {
        return Ok(None);
    }
    match client_serial(alloc, message)? {
        Some(serial) => lacked_by(serial, steps.get(&held.zone.origin), &held.zone),
        None => Ok(None),
    }
}

/// The steps from the version of a serial to that of a zone, by what is kept of it.
fn lacked_by<'s>(
    serial: u32,
    history: Option<&'s ZoneHistory>,
    zone: &Zone,
) -> Result<Option<&'s [ZoneStep]>, AllocError>
    ensures { IfOk result (λ given. option_map (λ x. x.now) given
        ≡ lacked_by serial (option_copied history.entry) zone.now) }
{
    match history {
        Some(history) => {
            let newest = serial_in(&history.newest)?;
            let sent = serial_in(zone)?;
            Ok(steps_to(serial, newest, sent, &history.steps))
        }
        None => Ok(None),
    }
}

/// The steps from the version of a serial to that which is sent, if it has the serial of the newest.
fn steps_to(
    held: u32,
    newest: Option<u32>,
    sent: Option<u32>,
    steps: &KeptSteps,
) -> Option<&[ZoneStep]>
    ensures { option_map (λ x. x.now) result ≡ steps_to held newest sent steps.now.steps }
{
    match (newest, sent) {
        (Some(newest), Some(sent)) => {
            if newest != sent {
                return None;
            }
            steps.steps_from(held, newest)
        }
        _ => None,
    }
}
