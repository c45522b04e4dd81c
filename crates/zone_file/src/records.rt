//! An entry read as a record or a control entry.
ghost use Rattle.std.specs.Prelude.{◌≡◌, Some, None, Ok, IfOk, codes};
ghost use Rattle.zone_proto.specs.Data.{same_octets};
ghost use Rattle.record_fields.specs.Readings.{Gives};
ghost use Rattle.zone_file.specs.Faults.{Answers, at_word, with_word};
ghost use Rattle.record_fields.specs.Fields.{Left, left_at, next_any_word};
ghost use Rattle.zone_file.specs.Records.{read_entry, read_words, read_record, read_control, next_owner, begins_with_digit, begins_with_dollar, is_ttl_word, ttl_and_class, ttl_if_there, class_if_there, class_of_word, if_short, bounded_ttl, last_stated, ttl_for, minimum_of, original_ttl_of, is_control};

use crate::context::Context;
use crate::data::{is_too_long, take_data};
use crate::error::ZoneError;
use crate::placed::PlacedRecord;
use crate::quoted_word::at_word;
use record_fields::{Fault, ReadError, Reason, Words, take_name, take_ttl, take_type};
use std::alloc::{AllocError, Global};
use zone_proto::{DNSClass, Name, RData, Record};
use zone_scanner::{Entry, Place, Word};
use zone_tokens::{read_class, read_ttl, to_upper};

/// The greatest TTL, in seconds: it has 31 bits (RFC 2181 section 8).
const LONGEST_TTL: u32 = 2_147_483_647;

/// Reads an entry: a record of class IN, which it gives with its place, or a control entry, `$ORIGIN` or `$TTL`. What the
/// entries behind it take from it goes into the context.
///
/// # Errors
///
/// The first fault of the entry. Its only error is `Memory`. The context is of no use then.
pub fn read_entry(
    alloc: Global,
    context: &mut Context,
    entry: &Entry,
) -> Result<Option<PlacedRecord>, ZoneError>
    ensures { Answers (λ r. (context.new, r)) result (read_entry context.old entry.now) }
{
    let words = entry.words();
    match read_words(alloc, context, entry.is_indented(), words) {
        Ok(given) => Ok(given),
        Err(ReadError::Memory) => Err(ZoneError::Memory),
        Err(ReadError::Fault(fault)) => Err(ZoneError::Fault(at_word(alloc, words, fault)?)),
    }
}

/// Reads the words of an entry.
fn read_words(
    alloc: Global,
    context: &mut Context,
    is_indented: bool,
    words: &[Word],
) -> Result<Option<PlacedRecord>, ReadError>
    ensures { Gives (λ r. (context.new, r)) result
        (read_words context.old is_indented words.now) }
{
    let Some((first, rest)) = words.split_first() else {
        return Ok(None);
    };
    let place = first.place();
    if is_control(is_indented, first) {
        let verb = to_upper(alloc, first.octets())?;
        let mut left = Words::new(place, rest);
        read_control(alloc, context, verb.as_slice(), &mut left)?;
        return Ok(None);
    }
    let mut left = Words::new(place, words);
    let given = read_record(alloc, context, is_indented, place, &mut left)?;
    Ok(Some(PlacedRecord { place, given }))
}

/// Whether an entry with this first word is a control entry.
fn is_control(is_indented: bool, word: &Word) -> bool
    ensures { result ≡ is_control is_indented word.now }
{
    if is_indented || word.is_quoted() {
        return false;
    }
    begins_with_dollar(word.octets())
}

fn begins_with_dollar(octets: &[u8]) -> bool
    ensures { result ≡ begins_with_dollar octets.now }
{
    match octets {
        [] => false,
        [first, ..] => *first == b'$',
    }
}

/// Reads a control entry, of which the first word is this one in upper case.
#[tactic(auto, unfolding(crate::specs::Records::read_control))]
fn read_control(
    alloc: Global,
    context: &mut Context,
    verb: &[u8],
    words: &mut Words<'_>,
) -> Result<(), ReadError>
    ensures { Gives (λ _. context.new) result (read_control context.old verb.now words.old) }
{
    if verb == b"$ORIGIN".as_slice() {
        let origin = take_name(alloc, &context.origin, words)?;
        words.end()?;
        context.origin = origin;
        return Ok(());
    }
    if verb == b"$TTL".as_slice() {
        let ttl = take_ttl(words)?;
        words.end()?;
        context.ttl = Some(ttl);
        return Ok(());
    }
    if verb == b"$INCLUDE".as_slice() {
        let _ = words.take_any()?;
        return Err(words.fault(Reason::Include));
    }
    Err(words.fault(Reason::Control))
}

/// Reads a record whose entry begins at this place.
#[tactic(auto, unfolding(crate::specs::Records::read_record))]
fn read_record(
    alloc: Global,
    context: &mut Context,
    is_indented: bool,
    place: Place,
    words: &mut Words<'_>,
) -> Result<Record, ReadError>
    ensures { Gives (λ r. (context.new, r)) result
        (read_record context.old is_indented place words.old) }
{
    let owner = take_owner(alloc, context, is_indented, place, words)?;
    let given = take_ttl_and_class(alloc, words)?;
    let record_type = take_type(alloc, words)?;
    let type_place = words.place();
    let rdata = take_data(alloc, &context.origin, record_type, words)?;
    check_length(&rdata, type_place)?;
    let ttl = bounded_ttl(ttl_for(context, given, &rdata), place)?;
    words.end()?;
    let last_owner = copy(&owner)?;
    context.last_ttl = last_stated(context, given, &rdata);
    context.owner = Some(last_owner);
    Ok(Record::from_rdata(owner, ttl, rdata))
}

/// Refuses data that are longer than a record can have, at this place.
fn check_length(rdata: &RData, place: Place) -> Result<(), ReadError>
    ensures { Gives (λ _. rdata.now) result (if_short rdata.now place) }
{
    if is_too_long(rdata) {
        Err(fault(place, Reason::TooLong))
    } else {
        Ok(())
    }
}

/// A copy of a name.
fn copy(name: &Name) -> Result<Name, AllocError>
    ensures { IfOk result (λ n. n ≡ name.now) }
{
    match name.clone() {
        Ok(copy) => Ok(copy),
        Err(_) => Err(AllocError),
    }
}

/// Takes the owner, which is that of the record before where the line begins with a blank.
fn take_owner(
    alloc: Global,
    context: &Context,
    is_indented: bool,
    place: Place,
    words: &mut Words<'_>,
) -> Result<Name, ReadError>
    ensures { Gives (λ n. (n, words.new)) result
        (next_owner context.now is_indented place words.old) }
{
    if !is_indented {
        return Ok(take_name(alloc, &context.origin, words)?);
    }
    match &context.owner {
        Some(owner) => Ok(copy(owner)?),
        None => Err(fault(place, Reason::NoOwner)),
    }
}

/// A fault at a place.
fn fault(place: Place, reason: Reason) -> ReadError
    ensures { result ≡ ReadError.Fault (record { place = place; reason = reason }) }
{
    ReadError::Fault(Fault { place, reason })
}

/// Takes the TTL and the class, each if it is there, in either order.
fn take_ttl_and_class(alloc: Global, words: &mut Words<'_>) -> Result<Option<u32>, ReadError>
    ensures { Gives (λ t. (t, words.new)) result (ttl_and_class words.old) }
{
    let first = take_ttl_if_there(words)?;
    take_class_if_there(alloc, words)?;
    match first {
        Some(ttl) => Ok(Some(ttl)),
        None => Ok(take_ttl_if_there(words)?),
    }
}

/// Takes a TTL, if a word is in its place.
fn take_ttl_if_there(words: &mut Words<'_>) -> Result<Option<u32>, ReadError>
    ensures { Gives (λ t. (t, words.new)) result (ttl_if_there words.old) }
{
    let Some((word, rest)) = words.rest().split_first() else {
        return Ok(None);
    };
    if !is_ttl_word(word) {
        return Ok(None);
    }
    *words = Words::new(word.place(), rest);
    match read_ttl(word.octets()) {
        Some(ttl) => Ok(Some(ttl)),
        None => Err(words.fault(Reason::Ttl)),
    }
}

/// Whether a word stands in place of a TTL.
fn is_ttl_word(word: &Word) -> bool
    ensures { result ≡ is_ttl_word word.now }
{
    if word.is_quoted() {
        return false;
    }
    begins_with_digit(word.octets())
}

fn begins_with_digit(octets: &[u8]) -> bool
    ensures { result ≡ begins_with_digit octets.now }
{
    match octets {
        [] => false,
        [first, ..] => first.is_ascii_digit(),
    }
}

/// Takes the class, if it is there. A fault where it isn't IN.
fn take_class_if_there(alloc: Global, words: &mut Words<'_>) -> Result<(), ReadError>
    ensures { Gives (λ _. words.new) result (class_if_there words.old) }
{
    let Some((word, rest)) = words.rest().split_first() else {
        return Ok(());
    };
    let Some(class) = class_of(alloc, word)? else {
        return Ok(());
    };
    *words = Words::new(word.place(), rest);
    if class.0 == DNSClass::IN.0 {
        Ok(())
    } else {
        Err(words.fault(Reason::Class))
    }
}

/// The class that a word without quotes names.
fn class_of(alloc: Global, word: &Word) -> Result<Option<DNSClass>, AllocError>
    ensures { IfOk result (λ c. c ≡ class_of_word word.now) }
{
    if word.is_quoted() {
        Ok(None)
    } else {
        Ok(read_class(alloc, word.octets())?)
    }
}

/// The TTL of a record: the one that is given, the original one of a signature, that of `$TTL`, or the last one stated.
fn ttl_for(context: &Context, given: Option<u32>, rdata: &RData) -> Option<u32>
    ensures { result ≡ ttl_for context.now given rdata.now }
{
    given
        .or(original_ttl_of(rdata))
        .or(context.ttl)
        .or(last_stated(context, given, rdata))
}

/// The last TTL stated up to a record: the one that it is given, that of the records before, or an SOA's minimum.
fn last_stated(context: &Context, given: Option<u32>, rdata: &RData) -> Option<u32>
    ensures { result ≡ last_stated context.now given rdata.now }
{
    given.or(context.last_ttl).or(minimum_of(rdata))
}

/// The TTL of a record that begins at a place. A fault if there is none, or one of more than 31 bits.
fn bounded_ttl(ttl: Option<u32>, place: Place) -> Result<u32, ReadError>
    ensures { Gives (λ t. t) result (bounded_ttl ttl place) }
{
    let Some(seconds) = ttl else {
        return Err(fault(place, Reason::NoTtl));
    };
    if seconds > LONGEST_TTL {
        return Err(fault(place, Reason::LongTtl));
    }
    Ok(seconds)
}

/// The original TTL of a signature.
fn original_ttl_of(rdata: &RData) -> Option<u32>
    ensures { result ≡ original_ttl_of rdata.now }
{
    match rdata {
        RData::RRSIG(signature) => Some(signature.original_ttl),
        _ => None,
    }
}

/// An SOA's minimum.
fn minimum_of(rdata: &RData) -> Option<u32>
    ensures { result ≡ minimum_of rdata.now }
{
    match rdata {
        RData::SOA(soa) => Some(soa.minimum),
        _ => None,
    }
}
