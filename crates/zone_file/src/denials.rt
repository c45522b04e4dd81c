//! Denials: NSEC, NSEC3 and NSEC3PARAM.
ghost use Rattle.std.specs.Prelude.{◌≡◌, IfOk, option_map};
ghost use Rattle.record_fields.specs.Readings.{Gives};
ghost use Rattle.record_fields.specs.Fields.{Left};
ghost use Rattle.zone_file.specs.Denials.{hash_of_word, if_countable, if_hash, next_hash, next_nsec, next_nsec3, next_nsec3param, next_opt_out, next_salt, next_some_types, opt_out_of_word, salt_of_word};

use line_text::read_u8;
use record_fields::{ReadError, Reason, Words, take_name, take_types, take_u8, take_u16};
use std::alloc::{AllocError, Global};
use zone_proto::{NSEC, NSEC3, NSEC3PARAM, Name, RecordType, Seq};
use zone_tokens::{read_base32, read_salt};

/// Takes the parts of an NSEC.
#[tactic(auto, unfolding(crate::specs::Denials::next_nsec))]
pub(crate) fn take_nsec(
    alloc: Global,
    origin: &Name,
    words: &mut Words<'_>,
) -> Result<NSEC, ReadError>
    ensures { Gives (λ d. (d, words.new)) result (next_nsec origin.now words.old) }
{
    Ok(NSEC {
        next_domain_name: take_name(alloc, origin, words)?,
        types: Seq::from_vec(take_some_types(alloc, words)?),
    })
}

/// Takes the parts of an NSEC3.
#[tactic(auto, unfolding(crate::specs::Denials::next_nsec3))]
pub(crate) fn take_nsec3(alloc: Global, words: &mut Words<'_>) -> Result<NSEC3, ReadError>
    ensures { Gives (λ d. (d, words.new)) result (next_nsec3 words.old) }
{
    Ok(NSEC3 {
        algorithm: take_u8(words)?,
        opt_out: take_opt_out(words)?,
        iterations: take_u16(words)?,
        salt: Seq::from_vec(take_salt(alloc, words)?),
        next_hashed_owner_name: Seq::from_vec(take_hash(alloc, words)?),
        types: Seq::from_vec(take_types(alloc, words)?),
    })
}

/// Takes the parts of an NSEC3PARAM.
#[tactic(auto, unfolding(crate::specs::Denials::next_nsec3param))]
pub(crate) fn take_nsec3param(alloc: Global, words: &mut Words<'_>) -> Result<NSEC3PARAM, ReadError>
    ensures { Gives (λ d. (d, words.new)) result (next_nsec3param words.old) }
{
    Ok(NSEC3PARAM {
        algorithm: take_u8(words)?,
        opt_out: take_opt_out(words)?,
        iterations: take_u16(words)?,
        salt: Seq::from_vec(take_salt(alloc, words)?),
    })
}

/// Takes the flags, of which opt-out alone may be set.
fn take_opt_out(words: &mut Words<'_>) -> Result<bool, ReadError>
    ensures { Gives (λ x. (x, words.new)) result (next_opt_out words.old) }
{
    let word = words.take()?;
    match opt_out_of(word.octets()) {
        Some(opt_out) => Ok(opt_out),
        None => Err(words.fault(Reason::Flags)),
    }
}

/// Whether flags are those of opt-out; none for flags that have no meaning.
fn opt_out_of(word: &[u8]) -> Option<bool>
    ensures { result ≡ opt_out_of_word word.now }
{
    match read_u8(word)? {
        0 => Some(false),
        1 => Some(true),
        _ => None,
    }
}

/// Takes a salt.
fn take_salt(alloc: Global, words: &mut Words<'_>) -> Result<Vec<u8>, ReadError>
    ensures { Gives (λ os. (os.items, words.new)) result (next_salt words.old) }
{
    let word = words.take()?;
    match salt_of(alloc, word.octets())? {
        Some(salt) => Ok(salt),
        None => Err(words.fault(Reason::Salt)),
    }
}

/// The salt that a word writes.
fn salt_of(alloc: Global, word: &[u8]) -> Result<Option<Vec<u8>>, AllocError>
    ensures { IfOk result (λ octets. option_map (λ o. o.items) octets ≡ salt_of_word word.now) }
{
    match read_salt(alloc, word)? {
        Some(octets) => Ok(if_countable(octets)),
        None => Ok(None),
    }
}

/// Octets, if one octet can count them.
fn if_countable(octets: Vec<u8>) -> Option<Vec<u8>>
    ensures { option_map (λ o. o.items) result ≡ if_countable octets.items }
{
    if octets.len() <= 255 {
        Some(octets)
    } else {
        None
    }
}

/// Takes a hashed owner.
fn take_hash(alloc: Global, words: &mut Words<'_>) -> Result<Vec<u8>, ReadError>
    ensures { Gives (λ os. (os.items, words.new)) result (next_hash words.old) }
{
    let word = words.take()?;
    match hash_of(alloc, word.octets())? {
        Some(hash) => Ok(hash),
        None => Err(words.fault(Reason::HashedOwner)),
    }
}

/// The hashed owner that a word writes.
fn hash_of(alloc: Global, word: &[u8]) -> Result<Option<Vec<u8>>, AllocError>
    ensures { IfOk result (λ octets. option_map (λ o. o.items) octets ≡ hash_of_word word.now) }
{
    match read_base32(alloc, word)? {
        Some(octets) => Ok(if_hash(octets)),
        None => Ok(None),
    }
}

/// Octets, if they are a hash: one at least, and no more than one octet can count.
fn if_hash(octets: Vec<u8>) -> Option<Vec<u8>>
    ensures { option_map (λ o. o.items) result ≡ if_hash octets.items }
{
    match octets.as_slice() {
        [] => None,
        [_, ..] => if_countable(octets),
    }
}

/// Takes types to the end of the entry, and refuses an entry that names none.
fn take_some_types(alloc: Global, words: &mut Words<'_>) -> Result<Vec<RecordType>, ReadError>
    ensures { Gives (λ ts. (ts.items, words.new)) result (next_some_types words.old) }
{
    if words.rest().is_empty() {
        return Err(words.fault(Reason::Missing));
    }
    Ok(take_types(alloc, words)?)
}
