//! Reads what zones and signers are made with.

use crate::arguments::Arguments;
use crate::calls::Calls;
use crate::manner::Manner;
use crate::read_arguments::{read_kinds, take_text};
use line_text::{TextError, Words};
use std::alloc::Global;
use zone_handler::{AxfrPolicy, ZoneType};
use zone_proto::{NxProofKind, Seq};

/// Reads what a server is to a zone.
pub fn read_zone_type(words: &mut Words<'_>) -> Result<ZoneType, TextError> {
    match take_text(words) {
        "Primary" => Ok(ZoneType::Primary),
        "Secondary" => Ok(ZoneType::Secondary),
        "External" => Ok(ZoneType::External),
        _ => Err(TextError::BadText),
    }
}

/// Reads who may transfer a zone.
pub fn read_policy(words: &mut Words<'_>) -> Result<AxfrPolicy, TextError> {
    match take_text(words) {
        "Deny" => Ok(AxfrPolicy::Deny),
        "AllowAll" => Ok(AxfrPolicy::AllowAll),
        "AllowSigned" => Ok(AxfrPolicy::AllowSigned),
        _ => Err(TextError::BadText),
    }
}

/// Reads the kind of a zone: none, unless a word for one follows.
pub fn read_kind(alloc: Global, words: &mut Words<'_>) -> Result<Option<NxProofKind>, TextError> {
    match take_text(words) {
        "" => Ok(None),
        "nsec" => Ok(Some(NxProofKind::Nsec)),
        "nsec3" => Ok(Some(nsec3_kind(alloc, false))),
        "optout" => Ok(Some(nsec3_kind(alloc, true))),
        _ => Err(TextError::BadText),
    }
}

/// The kind that denies by NSEC3 without salt and iterations.
fn nsec3_kind(alloc: Global, opt_out: bool) -> NxProofKind {
    NxProofKind::Nsec3 {
        algorithm: 1,
        salt: Seq::new(alloc),
        iterations: 0,
        opt_out,
    }
}

/// Reads names and their digests to the end of the row; and with `for` before a number in place of a name, how many
/// calls find memory.
pub fn read_digests(arguments: &mut Arguments<'_>, words: &mut Words<'_>) {
    for _ in 0..u64::MAX {
        match take_text(words) {
            "" => break,
            "for" => arguments.hash.calls = read_calls(arguments, words),
            name => read_digest(arguments, name, words),
        }
    }
}

/// Reads how many calls find memory.
fn read_calls(arguments: &mut Arguments<'_>, words: &mut Words<'_>) -> Calls {
    read_kinds(arguments, words, "NUMBER");
    Calls::new(arguments.take_number())
}

/// Reads the digest of a name.
fn read_digest(arguments: &mut Arguments<'_>, name: &str, words: &mut Words<'_>) {
    read_kinds(arguments, &mut Words::new(name.as_bytes()), "NAME");
    read_kinds(arguments, words, "OCTETS");
    let (name, digest) = (arguments.take_lower(), arguments.take_octets());
    if arguments.hash.add(name, digest).is_err() {
        arguments.fault.keep(TextError::Memory);
    }
}

/// Reads what a signer does: it signs, unless a word says otherwise; and after `for`, how many of its calls find memory.
pub fn read_manner(words: &mut Words<'_>) -> Result<Manner, TextError> {
    match take_text(words) {
        "" => Ok(Manner::Whole(u64::MAX)),
        "keyless" => Ok(Manner::Keyless),
        "idle" => Ok(Manner::Idle),
        "choosy" => Ok(Manner::Choosy),
        "for" => whole_for(words.take_u64()),
        _ => Err(TextError::BadText),
    }
}

/// The manner of a signer of which so many calls find memory.
fn whole_for(calls: Result<u64, TextError>) -> Result<Manner, TextError> {
    match calls {
        Ok(calls) => Ok(Manner::Whole(calls)),
        Err(error) => Err(error),
    }
}
