//! Responses of a header alone (RFC 1035 section 4.1.1).
ghost use Rattle.std.specs.Prelude.{◌≡◌, ◌<◌, ◌+◌, ◌*◌, OnOk, length, if◌then◌else◌};
ghost use Rattle.zone_server.specs.BareHeaders.{bare_text, IsBareHeader};

use message_reading::Header;
use std::alloc::AllocError;

/// FORMERR, the code of the response to what isn't of the form of a query (RFC 1035 section 4.1.1).
pub const MALFORMED: u8 = 1;

/// Writes a response of a header alone, in place of the octets of `out`: what could not be read has no question that could be
/// repeated. Fails only for lack of memory.
pub fn write_bare_header(out: &mut Vec<u8>, header: Header, code: u8) -> Result<(), AllocError>
    requires opcode { header.opcode < 16 }
    requires code { code < 16 }
    ensures header { OnOk result (IsBareHeader header code out.new.items) }
    ensures length { OnOk result (length out.new.items ≡ 12) }
{
    write_octets(out, header, code)
}

/// Writes the octets of such a response.
fn write_octets(out: &mut Vec<u8>, header: Header, code: u8) -> Result<(), AllocError>
    requires opcode { header.opcode < 16 }
    requires code { code < 16 }
    ensures { OnOk result (out.new.items ≡ bare_text header code) }
{
    let (high_id, low_id) = ((header.id / 256) as u8, (header.id % 256) as u8);
    let high = high_flags(header);
    out.clear();
    // (AD and CD are clear: RFC 4035 section 3.1.6)
    out.extend_from_slice(&[high_id, low_id, high, code, 0, 0, 0, 0, 0, 0, 0, 0])
}

/// QR, the opcode and RD (RFC 1035 section 4.1.1).
fn high_flags(header: Header) -> u8
    requires { header.opcode < 16 }
    ensures { result ≡ 128 + (header.opcode * 8 + (if header.recursion_desired then 1 else 0)) }
{
    let recursion_desired = if header.recursion_desired { 1u8 } else { 0 };
    128 + (header.opcode * 8 + recursion_desired)
}
