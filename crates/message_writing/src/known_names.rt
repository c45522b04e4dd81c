//! Names that a message has already, to which a pointer may lead (RFC 1035 section 4.1.4).
ghost use Rattle.std.specs.Prelude.{◌≡◌, ◌≤◌, ◌<◌, ◌∷◌, ◌++◌, IsTrue, IfSome, length};
ghost use Rattle.message_writing.specs.KnownNames.{IsKnown, StandsAt};

use crate::fingerprints::Fingerprint;
use crate::hints::Hint;
use message_reading::lead;
use zone_proto::Labels;

/// The first of these offsets at which these labels stand, followed by nothing else. The offsets are hints: those with the
/// fingerprint of the labels are looked at.
pub(crate) fn find(
    out: &[u8],
    hints: &[Hint],
    fingerprint: Fingerprint,
    labels: &Labels<'_>,
) -> Option<u16>
    ensures { IfSome result (λ p. IsKnown out.now p labels.now) }
{
    for hint in hints {
        let offset = hint.offset;
        if hint.fingerprint == fingerprint && is_known(out, offset, labels.clone()) {
            return Some(offset);
        }
    }
    None
}

/// Whether a pointer may lead to an offset, at which exactly these labels stand.
pub(crate) fn is_known(out: &[u8], offset: u16, labels: Labels<'_>) -> bool
    ensures { IsTrue result → IsKnown out.now offset labels.entry }
{
    offset >= 12 && offset < 16384 && stands_at(out, usize::from(offset), labels)
}

/// Whether a label may stand at an offset: whether its length does, and behind that its first octet.
pub(crate) fn may_stand_at(out: &[u8], offset: u16, label: &[u8]) -> bool {
    let at = usize::from(offset);
    match (out.get(at), out.get(at + 1), label.first()) {
        (Some(count), Some(octet), Some(first)) => {
            usize::from(*count) == label.len() && *octet == *first
        }
        _ => false,
    }
}

/// Whether the name at this offset has exactly these labels, their case included; the pointers on the way are followed.
fn stands_at(out: &[u8], offset: usize, labels: Labels<'_>) -> bool
    ensures { IsTrue result → StandsAt out.now offset labels.entry }
{
    if offset > out.len() {
        return false;
    }
    let mut left = labels;
    let mut before = offset;
    let mut octets = &out[offset..];
    for _ in 0..127usize {
        let Some((first, rest)) = octets.split_first() else {
            return false;
        };
        if *first == 0 {
            return match left.next() {
                None => true,
                Some(_) => false,
            };
        }
        if *first < 64 {
            let Some(label) = left.next() else {
                return false;
            };
            let Some(after) = after_label(octets, label) else {
                return false;
            };
            octets = after;
        } else {
            if *first < 192 {
                return false;
            }
            let Some((target, _)) = lead(before, *first, rest) else {
                return false;
            };
            before = target;
            octets = &out[target..];
        }
    }
    false
}

/// What follows this label and its length, where octets begin with them.
fn after_label<'o>(octets: &'o [u8], label: &[u8]) -> Option<&'o [u8]>
    ensures { IfSome result (λ after. octets.now
        ≡ length label.now ∷ (label.now ++ after.now)) }
{
    let (count, rest) = octets.split_first()?;
    if usize::from(*count) != label.len() || rest.len() < label.len() {
        return None;
    }
    let (front, after) = rest.split_at(label.len());
    if are_same(front, label) {
        Some(after)
    } else {
        None
    }
}

/// Whether as many octets are the same.
fn are_same(octets: &[u8], others: &[u8]) -> bool
    requires { length octets.now ≡ length others.now }
    ensures { IsTrue result → octets.now ≡ others.now }
{
    for place in 0..others.len() {
        if octets[place] != others[place] {
            return false;
        }
    }
    true
}
