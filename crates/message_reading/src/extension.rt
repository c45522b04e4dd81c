//! What a query says by EDNS (RFC 6891 section 6.1), read from records whose other data are passed over.
ghost use Rattle.std.specs.Prelude.{◌≡◌, None, option_map};
ghost use Rattle.message_reading.specs.Queries.{additionals_of, behind_authorities, extension_of, if_only, with_record};

use crate::options::are_options;
use crate::query::Extension;
use crate::record_frame::{RecordFrame, record_frame_of};
use zone_proto::RecordType;

/// What an OPT record says.
fn extension_of(frame: RecordFrame) -> Extension
    ensures { result ≡ extension_of frame }
{
    Extension {
        size: frame.class,
        version: (frame.ttl / 65536 % 256) as u8,
        dnssec_ok: frame.ttl / 32768 % 2 == 1,
    }
}

/// What EDNS says where this OPT record follows; none if it may not.
fn if_only(found: Option<Extension>, frame: RecordFrame, octets: &[u8]) -> Option<Option<Extension>>
    ensures { result ≡ if_only found frame octets.now }
{
    if found.is_none() && frame.is_at_root && are_options(octets) {
        Some(Some(extension_of(frame)))
    } else {
        None
    }
}

/// What EDNS says where this record follows, which may be OPT; none if it may not.
fn with_record(
    found: Option<Extension>,
    frame: RecordFrame,
    octets: &[u8],
) -> Option<Option<Extension>>
    ensures { result ≡ with_record found frame octets.now }
{
    if frame.record_type == RecordType::OPT.0 {
        if_only(found, frame, octets)
    } else {
        Some(found)
    }
}

/// What so many additional records say by EDNS, and what follows them.
pub(crate) fn additionals_of(count: u16, octets: &[u8]) -> Option<(Option<Extension>, &[u8])>
    ensures { option_map (λ x. (x.0, x.1.now)) result ≡ additionals_of count None octets.now }
{
    let mut found: Option<Extension> = None;
    let mut rest = octets;
    for _ in 0..count {
        let (frame, text, next) = record_frame_of(rest)?;
        found = with_record(found, frame, text)?;
        rest = next;
    }
    Some((found, rest))
}

/// What follows so many records, none of which is OPT.
pub(crate) fn behind_authorities(count: u16, octets: &[u8]) -> Option<&[u8]>
    ensures { option_map (λ x. x.now) result ≡ behind_authorities count octets.now }
{
    let mut rest = octets;
    for _ in 0..count {
        let (frame, _, next) = record_frame_of(rest)?;
        if frame.record_type == RecordType::OPT.0 {
            return None;
        }
        rest = next;
    }
    Some(rest)
}
