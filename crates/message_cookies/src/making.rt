//! Cookies made.
ghost use Rattle.std.specs.Prelude.{◌≡◌, IfOk, length};
ghost use Rattle.message_cookies.specs.Cookies.{IsTakenWhileTimely, code_of, cookie_of};

use crate::sip_hash::siphash;
use std::alloc::{AllocError, Global};

/// The data of a COOKIE option for a client: its client cookie, of 8 octets, and the server cookie for its address at a moment (RFC 7873
/// section 5.2.5, RFC 9018 section 4). The address has 4 or 16 octets; the moment is in seconds since 1970, by 2 ^ 32. The cookie is
/// valid for the same address as long as it is timely and the server has the secret. Refused for want of memory alone.
pub fn make_cookie(
    alloc: Global,
    secret: [u8; 16],
    client: &[u8],
    address: &[u8],
    now: u32,
) -> Result<Vec<u8>, AllocError>
    requires { length client.now ≡ 8 }
    ensures cookie { IfOk result (λ cookie. cookie.items
        ≡ cookie_of secret client.now address.now now) }
    ensures valid { IfOk result (λ cookie. IsTakenWhileTimely secret cookie.items address.now now) }
{
    let cookie = written(alloc, secret, client, address, now)?;
    Ok(cookie)
}

/// The octets of a cookie.
#[tactic(auto, unfolding(crate::specs::Cookies::cookie_of))]
fn written(
    alloc: Global,
    secret: [u8; 16],
    client: &[u8],
    address: &[u8],
    now: u32,
) -> Result<Vec<u8>, AllocError>
    ensures { IfOk result (λ cookie. cookie.items ≡ cookie_of secret client.now address.now now) }
{
    let mut cookie = Vec::with_capacity(alloc, 24)?;
    cookie.extend_from_slice(client)?;
    cookie.extend_from_slice(&[1, 0, 0, 0])?;
    cookie.extend_from_slice(&now.to_be_bytes())?;
    let code = code(secret, cookie.as_slice(), address);
    cookie.extend_from_slice(&code)?;
    Ok(cookie)
}

/// The code of a server cookie.
#[tactic(auto, unfolding(crate::specs::Cookies::code_of))]
pub(crate) fn code(secret: [u8; 16], before: &[u8], address: &[u8]) -> [u8; 8]
    ensures { result ≡ code_of secret before.now address.now }
{
    siphash(secret, before, address).to_le_bytes()
}
