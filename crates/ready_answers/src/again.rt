//! A response put out again, behind the header for another query.
ghost use Rattle.std.specs.Prelude.{◌≡◌, ℕ, ◌++◌, ◌%◌, ◌<◌, false, IsTrue, IfOk, OnOk};
ghost use Rattle.message_writing.specs.HeaderText.{header_text, high_text, low_text, weight_if};
ghost use Rattle.message_writing.specs.Responses.{IsWritten};
ghost use Rattle.message_writing.specs.declared.response.Response.{Response};
ghost use Rattle.ready_answers.specs.Again.{IsAskedAgain};

use message_reading::{HEADER_OCTETS, Header, Query, read_header};
use message_writing::push_short;
use std::alloc::AllocError;

/// Puts a response that was written before in place of the octets of `out`, with the identifier and RD of another query
/// (RFC 1035 section 4.1.1). Whether it had a header; if not, `out` is as it was.
///
/// Whatever response the octets are, they are that response to this query then, within the same limit, if it has the same
/// question, in the case of its letters, and says the same by EDNS. Nothing of them is read behind the header. Fails only
/// for lack of memory, and then the octets of `out` are gone.
pub fn put_again(out: &mut Vec<u8>, ready: &[u8], query: &Query) -> Result<bool, AllocError>
    ensures again { IfOk result (λ had. IsTrue had → (limit : ℕ) (before after : Response)
        → IsWritten limit before ready.now → IsAskedAgain before after query.now
        → IsWritten limit after out.new.items) }
    ensures same { IfOk result (λ had. had ≡ false → out.new.items ≡ out.old.items) }
{
    if ready.len() < HEADER_OCTETS {
        return Ok(false);
    }
    let Some((header, _)) = read_header(ready) else {
        return Ok(false);
    };
    out.clear();
    push_header(out, header, query)?;
    out.extend_from_slice(&ready[HEADER_OCTETS..])?;
    Ok(true)
}

/// Appends the header of a response to a query: what another one has but for the identifier and RD.
fn push_header(out: &mut Vec<u8>, header: Header, query: &Query) -> Result<(), AllocError>
    ensures { OnOk result (out.new.items
        ≡ out.old.items
        ++ header_text query.now.header.id
        (high_text header.authoritative header.truncated query.now.header.recursion_desired)
        (low_text header.response_code)
        header.answers header.authorities header.additionals) }
{
    push_short(out, query.header.id)?;
    out.push(high_flags(header, query.header.recursion_desired))?;
    out.push(header.response_code % 16)?;
    push_short(out, 1)?;
    push_short(out, header.answers)?;
    push_short(out, header.authorities)?;
    push_short(out, header.additionals)
}

/// QR, AA, TC and RD (RFC 1035 section 4.1.1).
fn high_flags(header: Header, recursion_desired: bool) -> u8
    ensures { result ≡ high_text header.authoritative header.truncated recursion_desired }
{
    128 + (weight(header.authoritative, 4)
        + (weight(header.truncated, 2) + weight(recursion_desired, 1)))
}

/// The weight of a bit, if it is set.
fn weight(set: bool, of: u8) -> u8
    requires { of < 17 }
    ensures value { result ≡ weight_if set of }
    ensures small { result < 17 }
{
    if set { of } else { 0 }
}
