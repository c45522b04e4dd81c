//! Names in a message, spelled as their wire form: their pointers are followed.
ghost use Rattle.std.specs.Prelude.{◌≡◌, ◌≤◌, IfOk, option_map};
ghost use Rattle.message_reading.specs.MessageNames.{lead, name_of, Spells};

use smallvec::SmallVec;
use std::alloc::{AllocError, Global};

/// A wire form, which has at most 255 octets.
pub(crate) type NameOctets = SmallVec<u8, 255>;

/// A label, its length and the end behind it find room in a wire form behind this many octets less the label's.
const WIRE_FORM_LIMIT: usize = 253;

/// The wire form of the name that the octets at an offset of a message begin with, and what follows it. The octets that
/// are looked at are at most those of 256 labels and pointers.
pub(crate) fn name_octets<'o>(
    alloc: Global,
    message: &'o [u8],
    at: usize,
    octets: &'o [u8],
) -> Result<Option<(NameOctets, &'o [u8])>, AllocError>
    ensures { IfOk result (λ found. Spells (option_map (λ x. (x.0.items, x.1.now)) found)
        (name_of message.now at octets.now)) }
{
    let mut text = SmallVec::new(alloc);
    let mut after: Option<&[u8]> = None;
    let mut before = at;
    let mut rest = octets;
    for _ in 0..256usize {
        let Some((first, behind)) = rest.split_first() else {
            return Ok(None);
        };
        if *first == 0 {
            text.push(0)?;
            return Ok(Some((text, after.unwrap_or(behind))));
        }
        if *first < 64 {
            let count = usize::from(*first);
            if behind.len() < count {
                return Ok(None);
            }
            if text.len() + count > WIRE_FORM_LIMIT {
                return Ok(None);
            }
            let (label, next) = behind.split_at(count);
            text.push(*first)?;
            text.extend_from_slice(label)?;
            rest = next;
        } else {
            if *first < 192 {
                return Ok(None);
            }
            let Some((target, next)) = lead(before, *first, behind) else {
                return Ok(None);
            };
            if target >= message.len() {
                return Ok(None);
            }
            after = Some(after.unwrap_or(next));
            before = target;
            rest = &message[target..];
        }
    }
    Ok(None)
}

/// Where a pointer leads, before an offset and behind the header, by its first octet and by what follows that, and what follows it (RFC
/// 1035 section 4.1.4). None if it leads elsewhere, or if its second octet is missing.
pub fn lead(before: usize, high: u8, rest: &[u8]) -> Option<(usize, &[u8])>
    requires { 192 ≤ high }
    ensures { option_map (λ x. (x.0, x.1.now)) result ≡ lead before high rest.now }
{
    let (low, after) = rest.split_first()?;
    let target = usize::from(high - 192) * 256 + usize::from(*low);
    if target >= 12 && target < before {
        Some((target, after))
    } else {
        None
    }
}
