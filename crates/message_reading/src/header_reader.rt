//! The header of a message, read.
ghost use Rattle.std.specs.Prelude.{◌≡◌, option_map};
ghost use Rattle.message_reading.specs.Headers.{header_of};

use crate::header::Header;
use crate::octets::{octet_of, short_of};

/// The header at the start of a message, and what follows it; none if there are fewer than 12 octets (RFC 1035 section
/// 4.1.1). Doesn't allocate.
pub fn read_header(octets: &[u8]) -> Option<(Header, &[u8])>
    ensures { option_map (λ x. (x.0, x.1.now)) result ≡ header_of octets.now }
{
    let (id, rest) = short_of(octets)?;
    let (high, rest) = octet_of(rest)?;
    let (low, rest) = octet_of(rest)?;
    let (questions, rest) = short_of(rest)?;
    let (answers, rest) = short_of(rest)?;
    let (authorities, rest) = short_of(rest)?;
    let (additionals, rest) = short_of(rest)?;
    let header = Header {
        id,
        is_response: high / 128 % 2 == 1,
        opcode: high / 8 % 16,
        authoritative: high / 4 % 2 == 1,
        truncated: high / 2 % 2 == 1,
        recursion_desired: high % 2 == 1,
        recursion_available: low / 128 % 2 == 1,
        reserved: low / 64 % 2 == 1,
        authentic_data: low / 32 % 2 == 1,
        checking_disabled: low / 16 % 2 == 1,
        response_code: low % 16,
        questions,
        answers,
        authorities,
        additionals,
    };
    Some((header, rest))
}
