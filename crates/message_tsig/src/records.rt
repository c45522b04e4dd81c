//! Records that are passed over, to where a TSIG stands.
ghost use Rattle.std.specs.Prelude.{◌≡◌, ◌||◌, ◌==◌, false, option_map};
ghost use Rattle.message_tsig.specs.Places.{passed};

use message_reading::record_frame_of;

/// The type of a TSIG record (RFC 8945 section 4.1).
pub(crate) const TSIG: u16 = 250;

/// Whether a TSIG was found before, or this type is that.
fn is_found(found: bool, record_type: u16) -> bool
    ensures { result ≡ (found || (record_type == TSIG)) }
{
    found || record_type == TSIG
}

/// Whether one of so many records is a TSIG, and what stands after them.
pub(crate) fn passed(count: u32, octets: &[u8]) -> Option<(bool, &[u8])>
    ensures { option_map (λ x. (x.0, x.1.now)) result ≡ passed count false octets.now }
{
    let mut found = false;
    let mut rest = octets;
    for _ in 0..count {
        let (frame, _, next) = record_frame_of(rest)?;
        found = is_found(found, frame.record_type);
        rest = next;
    }
    Some((found, rest))
}
