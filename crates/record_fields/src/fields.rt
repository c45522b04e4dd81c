//! The words of an entry, each taken and read by itself.
//!
//! Each call takes the next word. It is a fault at the place of that word if it is in quotes or isn't of the form that is said, and
//! at that of the word before it if there is none; `Memory` if memory is refused.
ghost use Rattle.std.specs.Prelude.{◌≡◌, IfOk};
ghost use Rattle.record_fields.specs.declared.fault.Reason.TheVariants as reason;
ghost use Rattle.record_fields.specs.Readings.{Gives};
ghost use Rattle.record_fields.specs.Fields.{Left, next, is_of_messages, next_algorithm, next_moment, next_timer, next_ttl, next_type, next_u8, next_u16, next_u32, record_type_named};
ghost use Rattle.zone_tokens.specs.Addresses.{ipv4_of_word, ipv6_of_word};

use crate::fault::{ReadError, Reason};
use crate::words::Words;
use line_text::{read_u8, read_u16, read_u32};
use std::alloc::{AllocError, Global};
use zone_proto::RecordType;
use zone_tokens::{
    read_algorithm, read_ipv4_word, read_ipv6_word, read_moment, read_timer, read_ttl,
    read_type_word,
};

/// Takes a number from 0 to 255.
pub fn take_u8(words: &mut Words<'_>) -> Result<u8, ReadError>
    ensures { Gives (λ x. (x, words.new)) result (next_u8 words.old) }
{
    let word = words.take()?;
    match read_u8(word.octets()) {
        Some(value) => Ok(value),
        None => Err(words.fault(Reason::Number8)),
    }
}

/// Takes a number from 0 to 65535.
pub fn take_u16(words: &mut Words<'_>) -> Result<u16, ReadError>
    ensures { Gives (λ x. (x, words.new)) result (next_u16 words.old) }
{
    let word = words.take()?;
    match read_u16(word.octets()) {
        Some(value) => Ok(value),
        None => Err(words.fault(Reason::Number16)),
    }
}

/// Takes a number from 0 to 4294967295.
pub fn take_u32(words: &mut Words<'_>) -> Result<u32, ReadError>
    ensures { Gives (λ x. (x, words.new)) result (next_u32 words.old) }
{
    let word = words.take()?;
    match read_u32(word.octets()) {
        Some(value) => Ok(value),
        None => Err(words.fault(Reason::Number32)),
    }
}

/// Takes a moment, in seconds since 1970.
pub fn take_moment(words: &mut Words<'_>) -> Result<u32, ReadError>
    ensures { Gives (λ x. (x, words.new)) result (next_moment words.old) }
{
    let word = words.take()?;
    match read_moment(word.octets()) {
        Some(value) => Ok(value),
        None => Err(words.fault(Reason::Moment)),
    }
}

/// Takes a TTL, in seconds.
pub fn take_ttl(words: &mut Words<'_>) -> Result<u32, ReadError>
    ensures { Gives (λ x. (x, words.new)) result (next_ttl words.old) }
{
    let word = words.take()?;
    match read_ttl(word.octets()) {
        Some(value) => Ok(value),
        None => Err(words.fault(Reason::Ttl)),
    }
}

/// Takes the seconds of a timer of an SOA.
pub fn take_timer(words: &mut Words<'_>) -> Result<u32, ReadError>
    ensures { Gives (λ x. (x, words.new)) result (next_timer words.old) }
{
    let word = words.take()?;
    match read_timer(word.octets()) {
        Some(value) => Ok(value),
        None => Err(words.fault(Reason::Timer)),
    }
}

/// Takes an IPv4 address.
pub fn take_ipv4(words: &mut Words<'_>) -> Result<[u8; 4], ReadError>
    ensures { Gives (λ x. (x, words.new)) result (next ipv4_of_word reason.Ipv4 words.old) }
{
    let word = words.take()?;
    match read_ipv4_word(word.octets()) {
        Some(value) => Ok(value),
        None => Err(words.fault(Reason::Ipv4)),
    }
}

/// Takes an IPv6 address.
pub fn take_ipv6(alloc: Global, words: &mut Words<'_>) -> Result<[u8; 16], ReadError>
    ensures { Gives (λ x. (x, words.new)) result (next ipv6_of_word reason.Ipv6 words.old) }
{
    let word = words.take()?;
    match read_ipv6_word(alloc, word.octets())? {
        Some(value) => Ok(value),
        None => Err(words.fault(Reason::Ipv6)),
    }
}

/// Takes a type that records have.
pub fn take_type(alloc: Global, words: &mut Words<'_>) -> Result<RecordType, ReadError>
    ensures { Gives (λ x. (x, words.new)) result (next_type words.old) }
{
    let word = words.take()?;
    match read_record_type(alloc, word.octets())? {
        Some(value) => Ok(value),
        None => Err(words.fault(Reason::Type)),
    }
}

/// Reads a type that records have. None if the word is none.
pub fn read_record_type(alloc: Global, word: &[u8]) -> Result<Option<RecordType>, AllocError>
    ensures { IfOk result (λ t. t ≡ record_type_named word.now) }
{
    match read_type_word(alloc, word)? {
        Some(record_type) => {
            if is_of_messages(record_type) {
                Ok(None)
            } else {
                Ok(Some(record_type))
            }
        }
        None => Ok(None),
    }
}

/// Whether a type is in messages alone, so that no records have it: 0, OPT, and those from 128 to 255 (RFC 6895 section 3.1).
pub fn is_of_messages(record_type: RecordType) -> bool
    ensures { result ≡ is_of_messages record_type.0 }
{
    let number = record_type.0;
    number == 0 || number == 41 || (128 <= number && number <= 255)
}

/// Takes an algorithm of DNSSEC.
pub fn take_algorithm(alloc: Global, words: &mut Words<'_>) -> Result<u8, ReadError>
    ensures { Gives (λ x. (x, words.new)) result (next_algorithm words.old) }
{
    let word = words.take()?;
    match read_algorithm(alloc, word.octets())? {
        Some(value) => Ok(value),
        None => Err(words.fault(Reason::Algorithm)),
    }
}
