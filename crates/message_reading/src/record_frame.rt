//! Records whose data aren't read.
ghost use Rattle.std.specs.Prelude.{◌≡◌, option_map};
ghost use Rattle.message_reading.specs.Unread.{begins_with_root, record_frame_of};

use crate::octets::{long_of, octets_of, short_of};
use crate::unread::behind_owner;

/// What a record says of itself, beside its owner and its data (RFC 1035 section 4.1.3).
#[derive(Clone, Copy, PartialEq, Eq, Debug)]
pub struct RecordFrame {
    /// Whether it is at the root.
    pub is_at_root: bool,
    /// The number of its type.
    pub record_type: u16,
    /// The number of its class.
    pub class: u16,
    /// Its TTL in seconds, as it is.
    pub ttl: u32,
}

/// Whether the first octet is the wire form of the root.
fn begins_with_root(octets: &[u8]) -> bool
    ensures { result ≡ begins_with_root octets.now }
{
    match octets {
        [first, ..] => *first == 0,
        [] => false,
    }
}

/// The record that octets begin with: what it says of itself, its data, and what follows it; none if it doesn't end
/// within them. Neither its owner nor its data are read. Doesn't allocate.
#[tactic(auto, unfolding(crate::specs::Unread::record_frame_of))]
pub fn record_frame_of(octets: &[u8]) -> Option<(RecordFrame, &[u8], &[u8])>
    ensures { option_map (λ x. (x.0, x.1.now, x.2.now)) result ≡ record_frame_of octets.now }
{
    let fields = behind_owner(octets)?;
    let (record_type, rest) = short_of(fields)?;
    let (class, rest) = short_of(rest)?;
    let (ttl, rest) = long_of(rest)?;
    let (count, rest) = short_of(rest)?;
    let (text, rest) = octets_of(usize::from(count), rest)?;
    let frame = RecordFrame {
        is_at_root: begins_with_root(octets),
        record_type,
        class,
        ttl,
    };
    Some((frame, text, rest))
}
