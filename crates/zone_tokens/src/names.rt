//! Names as zone files write them.
ghost use Rattle.std.specs.Prelude.{◌≡◌, ◌∷◌, ◌++◌, Some, None, Ok, Err, IfOk, OnOk, IsOkUnless};
ghost use Rattle.std.specs.List.{list_all};
ghost use Rattle.zone_proto.specs.TextForm.{three_digits};
ghost use Rattle.zone_proto.specs.Vectors.{octets_of};
ghost use Rattle.zone_tokens.specs.Names.{Reads, before_origin, checked, graphic_name, is_absolute, is_itself, is_one_label, name_alone, name_under, spelled, spelled_from};

use std::alloc::{AllocError, Global};
use std::str;
use zone_proto::{Labels, Name, ProtoError};

/// Reads a name: the origin for `@`, and the name with the origin behind it where it doesn't end with a dot (RFC 1035 section
/// 5.1). An octet behind a backslash is one of its label, whatever it is.
///
/// # Errors
///
/// Those of `Name::parse` for the word by itself; then `NameTooLong`, if the whole has more than 255 octets; and `Memory`.
#[tactic(auto, using(crate::proofs::NameFacts::under))]
pub fn read_name_under(alloc: Global, origin: &Name, word: &[u8]) -> Result<Name, ProtoError>
    ensures { Reads result (name_under origin.now word.now) }
{
    if word == b"@".as_slice() {
        return Ok(copy(origin)?);
    }
    if is_one_label(word) {
        return label_before(word, origin);
    }
    if is_absolute(word) {
        read_name(alloc, word)
    } else {
        read_before(alloc, origin, word)
    }
}

/// A copy of a name.
fn copy(name: &Name) -> Result<Name, AllocError>
    ensures { IfOk result (λ n. n ≡ name.now) }
{
    match name.clone() {
        Ok(copy) => Ok(copy),
        Err(_) => Err(AllocError),
    }
}

/// Whether a word is the text of one label, in which each octet is itself.
fn is_one_label(word: &[u8]) -> bool
    ensures { result ≡ is_one_label word.now }
{
    !word.is_empty() && are_themselves(word)
}

/// Whether each octet of a name's text is itself.
fn are_themselves(text: &[u8]) -> bool
    ensures { result ≡ list_all is_itself text.now }
{
    text.iter().all(|octet| is_itself(*octet))
}

/// Whether an octet of a name's text is itself: it is graphic, no dot and no backslash.
fn is_itself(octet: u8) -> bool
    ensures { result ≡ is_itself octet }
{
    octet.is_ascii_graphic() && octet != b'.' && octet != b'\\'
}

/// A label with the origin behind it.
#[tactic(auto, using(crate::proofs::NameFacts::checks))]
fn label_before(label: &[u8], origin: &Name) -> Result<Name, ProtoError>
    ensures { Reads result (checked (label.now ∷ origin.now)) }
{
    match origin.prepend_label(label) {
        Ok(name) => Ok(name),
        Err(error) => Err(error),
    }
}

/// Reads a name that comes before the origin.
#[tactic(auto, using(crate::proofs::NameFacts::before))]
fn read_before(alloc: Global, origin: &Name, word: &[u8]) -> Result<Name, ProtoError>
    ensures { Reads result (before_origin origin.now (name_alone word.now)) }
{
    match read_name(alloc, word) {
        Ok(name) => name_before(alloc, &name, origin),
        Err(error) => Err(error),
    }
}

/// Whether a word ends with a dot that no backslash comes before.
fn is_absolute(word: &[u8]) -> bool
    ensures { result ≡ is_absolute word.now }
{
    let mut rest = word;
    'octets: loop {
        match rest {
            [] => return false,
            [octet] => return *octet == b'.',
            [b'\\', _, others @ ..] => rest = others,
            [_, others @ ..] => rest = others,
        }
    }
}

/// Reads a name by itself.
#[tactic(auto, using(crate::proofs::NameFacts::again))]
fn read_name(alloc: Global, word: &[u8]) -> Result<Name, ProtoError>
    ensures { Reads result (name_alone word.now) }
{
    match read_graphic(alloc, word) {
        Ok(name) => Ok(name),
        Err(ProtoError::BadText) => {
            let spelled = spell(alloc, word)?;
            read_graphic(alloc, spelled.as_slice())
        }
        Err(error) => Err(error),
    }
}

/// A copy of a word, in which the octets that aren't graphic and stand behind a backslash are their digits.
fn spell(alloc: Global, word: &[u8]) -> Result<Vec<u8>, AllocError>
    ensures { IfOk result (λ text. text.items ≡ spelled word.now) }
{
    let mut text = Vec::new(alloc);
    let mut is_behind = false;
    for octet in word {
        if is_behind && !octet.is_ascii_graphic() {
            push_digits(*octet, &mut text)?;
        } else {
            text.push(*octet)?;
        }
        is_behind = !is_behind && *octet == b'\\';
    }
    Ok(text)
}

/// Puts the three digits of an octet behind a text.
fn push_digits(octet: u8, text: &mut Vec<u8>) -> Result<(), AllocError>
    ensures { OnOk result (text.new.items ≡ text.old.items ++ three_digits octet) }
{
    text.push(b'0' + octet / 100)?;
    text.push(b'0' + octet / 10 % 10)?;
    text.push(b'0' + octet % 10)?;
    Ok(())
}

/// Reads the name of a text of graphic octets.
#[tactic(auto, using(crate::proofs::NameFacts::names))]
fn read_graphic(alloc: Global, word: &[u8]) -> Result<Name, ProtoError>
    ensures { Reads result (graphic_name word.now) }
{
    let Ok(text) = str::from_utf8(word) else {
        return Err(ProtoError::BadText);
    };
    Name::parse(alloc, text)
}

/// A name with the origin behind it.
fn name_before(alloc: Global, name: &Name, origin: &Name) -> Result<Name, ProtoError>
    ensures { Reads result (checked (name.now ++ origin.now)) }
{
    let mut labels = Vec::new(alloc);
    push_labels(alloc, &mut labels, name.labels())?;
    push_labels(alloc, &mut labels, origin.labels())?;
    name_of(labels)
}

/// The name of these labels.
#[tactic(auto, using(crate::proofs::NameFacts::checks))]
fn name_of(labels: Vec<Vec<u8>>) -> Result<Name, ProtoError>
    ensures { Reads result (checked (octets_of labels.items)) }
{
    match Name::from_labels(labels) {
        Ok(name) => Ok(name),
        Err(error) => Err(error),
    }
}

/// Appends labels to others.
fn push_labels(alloc: Global, out: &mut Vec<Vec<u8>>, labels: Labels<'_>) -> Result<(), AllocError>
    ensures { OnOk result (octets_of out.new.items ≡ octets_of out.old.items ++ labels.entry) }
{
    for label in labels {
        out.push(Vec::from_slice(alloc, label)?)?;
    }
    Ok(())
}
