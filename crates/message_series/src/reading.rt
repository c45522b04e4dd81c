//! Series of messages read.
ghost use Rattle.std.specs.Prelude.{◌≡◌, option_map, IfOk};
ghost use Rattle.message_series.specs.Series.{all_answers_of, answers_of, records_of};

use message_reading::{MessageError, octets_of, read_message, short_of};
use std::alloc::Global;
use zone_proto::{ProtoError, Record};

/// The answers of the messages that octets are, one message behind the other, as [`write_series`](crate::write_series) writes them; none where
/// they are no such messages. Fails only for lack of memory.
pub fn read_series(alloc: Global, octets: &[u8]) -> Result<Option<Vec<Record>>, ProtoError>
    ensures { IfOk result
        (λ records. option_map (λ v. v.items) records ≡ records_of octets.now) }
{
    let Some((count, rest)) = short_of(octets) else {
        return Ok(None);
    };
    match all_answers_of(alloc, count, rest)? {
        Some((records, [])) => Ok(Some(records)),
        _ => Ok(None),
    }
}

/// The answers of so many messages, and what follows them.
fn all_answers_of(
    alloc: Global,
    count: u16,
    octets: &[u8],
) -> Result<Option<(Vec<Record>, &[u8])>, ProtoError>
    ensures { IfOk result (λ found. option_map (λ x. (x.0.items, x.1.now)) found
        ≡ all_answers_of count octets.now) }
{
    let mut records = Vec::new(alloc);
    let mut rest = octets;
    for _ in 0..count {
        match answers_of(alloc, rest)? {
            None => return Ok(None),
            Some((mut answers, next)) => {
                records.append(&mut answers)?;
                rest = next;
            }
        }
    }
    Ok(Some((records, rest)))
}

/// The answers of the message at the start of octets, behind its length, and what follows it.
fn answers_of(alloc: Global, octets: &[u8]) -> Result<Option<(Vec<Record>, &[u8])>, ProtoError>
    ensures { IfOk result (λ found. option_map (λ x. (x.0.items, x.1.now)) found
        ≡ answers_of octets.now) }
{
    let Some((count, rest)) = short_of(octets) else {
        return Ok(None);
    };
    let Some((text, rest)) = octets_of(usize::from(count), rest) else {
        return Ok(None);
    };
    match read_message(alloc, text) {
        Ok(message) => Ok(Some((message.answers, rest))),
        Err(MessageError::Malformed) => Ok(None),
        Err(MessageError::Memory) => Err(ProtoError::Memory),
    }
}
