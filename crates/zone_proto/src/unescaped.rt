//! Names without escapes, read straight into one piece: from the right, since its labels stand from the root on.
ghost use Rattle.std.specs.Prelude.{◌≡◌, ◌⊎◌, ◌≤◌, [], ◌∷◌, ◌++◌, drop, length, IsTrue, IfOk, IfSome};
ghost use Rattle.std.specs.List.{AllByRecursion};
ghost use Rattle.zone_proto.specs.Forms.{labels_of};
ghost use Rattle.zone_proto.specs.Names.{IsName};
ghost use Rattle.zone_proto.specs.TextForm.{dot, IsNameText};
ghost use Rattle.zone_proto.specs.Unescaped.{IsUnescaped, IsUnescapedLabel, IsFront};

use crate::form::Form;
use crate::labels::LONGEST_LABEL;
use crate::octets::Octets;
use std::alloc::{AllocError, Global};

/// The longest text that is read so. Without a dot at its end, its name has 255 octets in wire form, which is the most that
/// it may have (RFC 1035 section 2.3.4).
const LONGEST_TEXT: usize = 253;

/// The name of a text without escapes, and nothing where the text is another one: one with an escape, with a fault, of
/// the root, or of more than 253 octets. A name of up to 30 octets doesn't allocate.
pub(crate) fn read_unescaped(alloc: Global, text: &[u8]) -> Result<Option<Form>, AllocError>
    ensures text { IfOk result (λ found. IfSome found (λ f. IsNameText text.now (labels_of f))) }
    ensures name { IfOk result (λ found. IfSome found (λ f. IsName (labels_of f))) }
{
    if text.len() > LONGEST_TEXT {
        return Ok(None);
    }
    let mut rest = without_final_dot(text);
    let mut octets = Octets::with_capacity(alloc, rest.len() + 1)?;
    while let Some((front, label)) = last_label(rest) {
        octets.extend_from_slice(label)?;
        octets.push(0)?;
        let Some((_, before)) = front.split_last() else {
            return Ok(Some(Form::of_packing(octets)));
        };
        rest = before;
    }
    Ok(None)
}

/// The text without the dot at its end, if there is one.
fn without_final_dot(text: &[u8]) -> &[u8]
    ensures { (text.now ≡ result.now) ⊎ (text.now ≡ result.now ++ dot ∷ []) }
{
    match text {
        [labels @ .., b'.'] => labels,
        _ => text,
    }
}

/// The last label of a text without escapes, with what precedes it, which is nothing or ends with a dot; nothing where
/// the label is empty or has more than 63 octets, or where another octet comes before it.
fn last_label(text: &[u8]) -> Option<(&[u8], &[u8])>
    ensures whole { IfSome result (λ p. text.now ≡ p.0.now ++ p.1.now) }
    ensures front { IfSome result (λ p. IsFront p.0.now) }
    ensures label { IfSome result (λ p. IsUnescapedLabel p.1.now) }
{
    let (front, label) = text.split_at(label_start(text));
    if label.is_empty() || label.len() > LONGEST_LABEL || !is_front(front) {
        return None;
    }
    Some((front, label))
}

/// Where the octets without escapes begin that end the text.
fn label_start(text: &[u8]) -> usize
    ensures within { result ≤ length text.now }
    ensures unescaped { AllByRecursion IsUnescaped (drop result text.now) }
{
    let mut start = text.len();
    while start > 0 && is_unescaped(text[start - 1]) {
        start -= 1;
    }
    start
}

/// Whether a label may come after this: nothing, or a dot at the end.
fn is_front(text: &[u8]) -> bool
    ensures { IsTrue result → IsFront text.now }
{
    match text {
        [] | [.., b'.'] => true,
        _ => false,
    }
}

/// Whether the octet is itself in a text: a printing ASCII character that is no space, no dot and no backslash.
fn is_unescaped(octet: u8) -> bool
    ensures { IsTrue result → IsUnescaped octet }
{
    // Nearly all octets of names are in the first two of these ranges.
    octet > b'\\' && octet <= b'~' || octet > b'.' && octet < b'\\' || octet >= b'!' && octet < b'.'
}
