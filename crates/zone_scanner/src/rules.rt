//! What may stand where in an entry: parentheses by pairs, and no more octets than an entry may have.
ghost use Rattle.std.specs.Prelude.{◌≡◌, ◌+◌, ◌-◌, nat_le, Some, None};
ghost use Rattle.zone_scanner.specs.Signs.{first_place};
ghost use Rattle.zone_scanner.specs.Entries.{entry_limit, fault_at, too_long, opens_at, closes_at, open_after, size_after, size_at_end};

use crate::fault::{EntryFault, EntryReason};
use crate::place::Place;
use crate::signs::Sign;

/// The most octets of words and opening quotes that an entry may have. So no text makes the reader take more memory than an
/// entry of this size does.
const ENTRY_LIMIT: u32 = 1_048_576;

/// What is wrong with a sign where it is in an entry, if something is.
pub(crate) fn fault_at(
    sign: Sign,
    place: Place,
    group: Option<Place>,
    size: u32,
) -> Option<EntryFault>
    ensures { result ≡ fault_at sign place group size }
{
    match sign {
        Sign::Blank | Sign::LineEnd | Sign::Unquote => None,
        Sign::Opens => match group {
            Some(_) => Some(EntryFault {
                place,
                reason: EntryReason::Nested,
            }),
            None => None,
        },
        Sign::Closes => match group {
            Some(_) => None,
            None => Some(EntryFault {
                place,
                reason: EntryReason::Unopened,
            }),
        },
        Sign::Quote | Sign::Octet(_) => too_long(place, size),
        Sign::Wrong(fault) => Some(fault),
    }
}

fn too_long(place: Place, size: u32) -> Option<EntryFault>
    ensures { result ≡ too_long place size }
{
    if size >= ENTRY_LIMIT {
        Some(EntryFault {
            place,
            reason: EntryReason::TooLong,
        })
    } else {
        None
    }
}

/// Where the parenthesis stands that is open behind a sign, if one is.
pub(crate) fn open_after(sign: Sign, place: Place, group: Option<Place>) -> Option<Place>
    ensures { result ≡ open_after sign place group }
{
    match sign {
        Sign::Opens => Some(place),
        Sign::Closes => None,
        Sign::Blank
        | Sign::LineEnd
        | Sign::Quote
        | Sign::Unquote
        | Sign::Octet(_)
        | Sign::Wrong(_) => group,
    }
}

/// How many octets of words and opening quotes the entry has behind a sign that may be there.
pub(crate) fn size_after(sign: Sign, group: Option<Place>, size: u32) -> u32
    requires { fault_at sign first_place group size ≡ None }
    ensures { result ≡ size_after sign group size }
{
    match sign {
        Sign::LineEnd => match group {
            Some(_) => size,
            None => 0,
        },
        Sign::Quote | Sign::Octet(_) => size + 1,
        Sign::Blank | Sign::Opens | Sign::Closes | Sign::Unquote | Sign::Wrong(_) => size,
    }
}

/// How many octets of words an entry may have besides so many.
pub(crate) fn room_for(size: u32) -> usize
    ensures { result ≡ entry_limit - size }
{
    ENTRY_LIMIT.saturating_sub(size) as usize
}
