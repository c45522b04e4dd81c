//! Cookies checked.
ghost use Rattle.std.specs.Prelude.{◌≡◌, length, ◌≤◌};
ghost use Rattle.message_cookies.specs.Cookies.{checked_cookie, is_made_with, is_timely, is_valid};

use crate::making::code;
use crate::secrets::CookieSecrets;
use message_hmac::same_octets;

/// For how many seconds after its time a cookie is taken (RFC 9018 section 4.3).
const LATE: u32 = 3_600;

/// For how many seconds before its time a cookie is taken (RFC 9018 section 4.3).
const EARLY: u32 = 300;

/// What a server finds of the data of a COOKIE option in a query (RFC 7873 section 5.2).
#[derive(Clone, Copy, PartialEq, Eq, Debug, Drop)]
pub enum CheckedCookie {
    /// No client cookie, or a server cookie of fewer octets than 8 or more than 32: answered by FORMERR (section 5.2.2).
    Malformed,
    /// A client cookie without a server cookie (section 5.2.3).
    ClientAlone,
    /// A client cookie with a server cookie that this server didn't make for the client, or not of late (section 5.2.4).
    Invalid,
    /// A client cookie with a valid server cookie: the client gets what is sent to its address (section 5.2.5).
    Valid,
}

/// What the data of a COOKIE option from an address are found to be (RFC 7873 section 5.2, RFC 9018 section 4). The address is that of the
/// client, as 4 or 16 octets; the moment is in seconds since 1970, by 2 ^ 32. How long codes are compared tells nothing of where they
/// differ.
#[tactic(auto, unfolding(crate::specs::Cookies::checked_cookie))]
pub fn check_cookie(
    secrets: &CookieSecrets,
    cookie: &[u8],
    address: &[u8],
    now: u32,
) -> CheckedCookie
    ensures { result ≡ checked_cookie secrets.now cookie.now address.now now }
{
    let size = cookie.len();
    if size != 8 && (size < 16 || 40 < size) {
        CheckedCookie::Malformed
    } else if size == 8 {
        CheckedCookie::ClientAlone
    } else if is_valid(secrets, cookie, address, now) {
        CheckedCookie::Valid
    } else {
        CheckedCookie::Invalid
    }
}

/// Whether a cookie is valid.
#[tactic(auto, unfolding(crate::specs::Cookies::is_valid, crate::specs::Cookies::time_in, crate::specs::Cookies::is_made_with_one))]
fn is_valid(secrets: &CookieSecrets, cookie: &[u8], address: &[u8], now: u32) -> bool
    ensures { result ≡ is_valid secrets.now cookie.now address.now now }
{
    if cookie.len() != 24 || cookie[8] != 1 {
        return false;
    }
    let time = u32::from_be_bytes([cookie[12], cookie[13], cookie[14], cookie[15]]);
    if !is_timely(now, time) {
        return false;
    }
    if is_made_with(secrets.current, cookie, address) {
        return true;
    }
    match secrets.previous {
        None => false,
        Some(previous) => is_made_with(previous, cookie, address),
    }
}

/// Whether a cookie of a time is taken at a moment.
#[tactic(auto, unfolding(crate::specs::Cookies::is_timely))]
fn is_timely(now: u32, time: u32) -> bool
    ensures { result ≡ is_timely now time }
{
    now.wrapping_sub(time) <= LATE || time.wrapping_sub(now) <= EARLY
}

/// Whether a cookie has the code that a secret gives it.
#[tactic(auto, unfolding(crate::specs::Cookies::is_made_with))]
fn is_made_with(secret: [u8; 16], cookie: &[u8], address: &[u8]) -> bool
    requires { 16 ≤ length cookie.now }
    ensures { result ≡ is_made_with secret cookie.now address.now }
{
    let made = code(secret, &cookie[..16], address);
    same_octets(&made, &cookie[16..])
}
