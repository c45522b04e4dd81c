//! The octets of the response to an update (RFC 2136 section 3.8).
ghost use Rattle.std.specs.Prelude.{◌≡◌, ◌<◌, OnOk};
ghost use Rattle.update_message.specs.Responses.{extension_text, header_text, response_text};

use message_reading::Header;
use std::alloc::AllocError;

/// Writes the response to an update in place of the octets of `out`: the identifier and the opcode of the request, a code, and no entries
/// but an OPT record, which says that messages of 1232 octets may be sent, where the request had one (RFC 6891 section 6.1.1). A code
/// has four bits. Where memory is refused `out` has no octets, or the first of these.
pub fn write_response(
    out: &mut Vec<u8>,
    header: Header,
    code: u8,
    has_extension: bool,
) -> Result<(), AllocError>
    requires opcode { header.opcode < 16 }
    requires code { code < 16 }
    ensures { OnOk result (out.new.items ≡ response_text header code has_extension) }
{
    out.clear();
    if has_extension {
        out.extend_from_slice(&header_octets(header, code, 1))?;
        out.extend_from_slice(&[0, 0, 41, 4, 208, 0, 0, 0, 0, 0, 0])
    } else {
        out.extend_from_slice(&header_octets(header, code, 0))
    }
}

/// The header of a response.
fn header_octets(header: Header, code: u8, additionals: u8) -> [u8; 12]
    requires { header.opcode < 16 }
    ensures { result ≡ header_text header code additionals }
{
    [
        (header.id / 256) as u8,
        (header.id % 256) as u8,
        128 + header.opcode * 8,
        code,
        0,
        0,
        0,
        0,
        0,
        0,
        0,
        additionals,
    ]
}
