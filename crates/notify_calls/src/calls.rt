//! What a program that isn't written in Rattle asks of NOTIFY messages: calls of `ningkraet`.
ghost use Rattle.std.specs.Prelude.{◌≡◌, ◌⊎◌, IfErr, IfOk, IsErr};
ghost use Rattle.message_notify.specs.Notifies.{response_of};
ghost use Rattle.zone_database.specs.Calls.{origin_of};
ghost use Rattle.notify_calls.specs.NotifyCalls.{IsNotifyFor, ReadsResponse, WritesNotify};

use message_notify::{read_notify_response, write_notify};
use std::alloc::Global;
use zone_database::{Outcome, give, origin_of};

/// Writes the NOTIFY for the zone of an origin into the room, if that is long enough, and how many octets it has: with this identifier, of
/// which the lowest 16 bits count, and without a hint of the serial (RFC 1996 section 3). Refused by `BadName` where the origin isn't a name,
/// by `NoRoom` where the room is too short, and by `NoMemory`; then nothing is written.
#[tactic(auto, using(crate::proofs::NotifyFacts::given))]
pub fn write(
    alloc: Global,
    id: u32,
    origin: &[u8],
    buffer: &mut [u8],
    written: &mut usize,
) -> Outcome
    ensures { WritesNotify id origin.now result written.new buffer.old buffer.new }
{
    let (outcome, count) = match notify_for(alloc, id, origin) {
        Ok(octets) => give(octets.as_slice(), buffer),
        Err(outcome) => (outcome, 0),
    };
    *written = count;
    outcome
}

/// The NOTIFY for the zone of an origin.
fn notify_for(alloc: Global, id: u32, origin: &[u8]) -> Result<Vec<u8>, Outcome>
    ensures octets { IfOk result (λ octets. IsNotifyFor id origin.now octets.items) }
    ensures refusal { IfErr result (λ o. (o ≡ Outcome.NoMemory)
        ⊎ ((o ≡ Outcome.BadName) × IsErr (origin_of origin.now))) }
{
    let name = origin_of(alloc, origin)?;
    match write_notify(alloc, (id % 65_536) as u16, &name) {
        Ok(octets) => Ok(octets),
        Err(_) => Err(Outcome::NoMemory),
    }
}

/// Writes the identifier and the response code of the response to a NOTIFY that a message is (RFC 1996 section 3.2); where it is none, both stay
/// as they are, and the outcome is `Ignored`.
#[tactic(auto, using(crate::proofs::NotifyFacts::read, crate::proofs::NotifyFacts::unread))]
pub fn read_response(message: &[u8], id: &mut u32, code: &mut u32) -> Outcome
    ensures { ReadsResponse (response_of message.now) result id.old id.new code.old code.new }
{
    match read_notify_response(message) {
        Some(response) => {
            *id = u32::from(response.id);
            *code = u32::from(response.response_code);
            Outcome::Done
        }
        None => Outcome::Ignored,
    }
}
