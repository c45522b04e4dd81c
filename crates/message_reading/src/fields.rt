//! What stands between the owner of a record and its data (RFC 1035 section 4.1.3).
ghost use Rattle.std.specs.Prelude.{◌≡◌, option_map};
ghost use Rattle.message_reading.specs.Messages.{fields_of};

use crate::octets::{long_of, short_of};
use zone_proto::{DNSClass, RecordType};

/// What stands between the owner of a record and its data: TYPE, CLASS, TTL in seconds, and RDLENGTH, the number of octets of the data.
#[derive(Clone, Copy, PartialEq, Eq, Debug)]
pub struct Fields {
    pub record_type: RecordType,
    pub dns_class: DNSClass,
    pub ttl: u32,
    pub count: u16,
}

/// The fields of a record at the start of the octets behind its owner, and what follows them; none where there are fewer than ten octets.
pub fn fields_of(octets: &[u8]) -> Option<(Fields, &[u8])>
    ensures { option_map (λ x. (x.0, x.1.now)) result ≡ fields_of octets.now }
{
    let (record_type, rest) = short_of(octets)?;
    let (class, rest) = short_of(rest)?;
    let (ttl, rest) = long_of(rest)?;
    let (count, rest) = short_of(rest)?;
    let fields = Fields {
        record_type: RecordType(record_type),
        dns_class: DNSClass(class),
        ttl,
        count,
    };
    Some((fields, rest))
}
