//! What a query asks by its options.
ghost use Rattle.std.specs.Prelude.{◌≡◌, ◌≤◌, ◌+◌, ◌-◌, Some, length, max, option_map};
ghost use Rattle.server_options.specs.Asking.{comes_again, cookie_in, header_alone, limit_by, lowered, nsid_in, reserved, reserved_for_cookie};
ghost use Rattle.server_options.specs.Asking.{reserved_for_nsid, state_by, state_of};

use crate::arrival::Arrival;
use message_cookies::{CheckedCookie, CookieSecrets, check_cookie};
use message_options::{COOKIE, NSID, option_value};
use message_reading::{HEADER_OCTETS, octets_of};
use zone_server::{DATAGRAM_SIZE, Transport};

/// How many octets the option of a cookie has.
const COOKIE_OCTETS: usize = 28;

/// What a query tells by a COOKIE option, of a server that has secrets.
#[derive(Clone, Copy, PartialEq, Eq, Debug, Drop)]
pub enum CookieState {
    /// It has none.
    Absent,
    /// It has one that is malformed.
    Malformed,
    /// The client isn't known: it has no server cookie, or one that isn't valid.
    Unknown,
    /// The client is known: it has a server cookie that is valid, and gets what is sent to its address (RFC 7873 section 5.2.5).
    Known,
}

/// The secrets, and the data of the COOKIE option among the options of a query, if both are there.
pub(crate) fn cookie_in<'d>(
    secrets: Option<CookieSecrets>,
    data: &'d [u8],
) -> Option<(CookieSecrets, &'d [u8])>
    ensures { option_map (λ x. (x.0, x.1.now)) result ≡ cookie_in secrets data.now }
{
    match secrets {
        None => None,
        Some(secrets) => with_secrets(secrets, data),
    }
}

/// The same with secrets.
fn with_secrets<'d>(secrets: CookieSecrets, data: &'d [u8]) -> Option<(CookieSecrets, &'d [u8])>
    ensures { option_map (λ x. (x.0, x.1.now)) result ≡ cookie_in (Some secrets) data.now }
{
    let value = option_value(COOKIE, data)?;
    Some((secrets, value))
}

/// What a cookie tells.
pub(crate) fn state_of(cookie: Option<(CookieSecrets, &[u8])>, arrival: &Arrival<'_>) -> CookieState
    ensures { result ≡ state_of (option_map (λ x. (x.0, x.1.now)) cookie.entry) arrival.now }
{
    match cookie {
        None => CookieState::Absent,
        Some((secrets, value)) => {
            state_by(check_cookie(&secrets, value, arrival.address, arrival.moment))
        }
    }
}

/// What a cookie tells of which this was found.
fn state_by(found: CheckedCookie) -> CookieState
    ensures { result ≡ state_by found }
{
    match found {
        CheckedCookie::Malformed => CookieState::Malformed,
        CheckedCookie::ClientAlone | CheckedCookie::Invalid => CookieState::Unknown,
        CheckedCookie::Valid => CookieState::Known,
    }
}

/// Whether a client is sent back for the cookie that it gets.
pub(crate) fn comes_again(required: bool, transport: Transport, state: CookieState) -> bool
    ensures { result ≡ comes_again required transport state }
{
    match (transport, state) {
        (Transport::Udp { .. }, CookieState::Unknown) => required,
        _ => false,
    }
}

/// The header of a message, as a message.
pub(crate) fn header_alone(message: &[u8]) -> &[u8]
    ensures { result.now ≡ header_alone message.now }
{
    match octets_of(HEADER_OCTETS, message) {
        None => message,
        Some((header, _)) => header,
    }
}

/// The identifier of the server, if the query asks for it.
pub(crate) fn nsid_in<'n>(nsid: &'n [u8], data: &[u8]) -> &'n [u8]
    ensures { result.now ≡ nsid_in nsid.now data.now }
{
    match option_value(NSID, data) {
        None => &[],
        Some(_) => nsid,
    }
}

/// How many octets the response to a query with an OPT record may have that takes so many.
pub(crate) fn limit_by(transport: Transport, size: u16) -> u16
    ensures { result ≡ limit_by transport size }
{
    match transport {
        Transport::Udp { limit } => size.min(limit.min(DATAGRAM_SIZE)).max(512),
        Transport::Tcp => u16::MAX,
    }
}

/// How many octets a response leaves for options.
pub(crate) fn reserved(state: CookieState, nsid: &[u8]) -> usize
    ensures { result ≡ reserved state nsid.now }
{
    reserved_for_cookie(state) + reserved_for_nsid(nsid)
}

/// How many octets it leaves for a cookie.
fn reserved_for_cookie(state: CookieState) -> usize
    ensures value { result ≡ reserved_for_cookie state }
    ensures most { result ≤ 28 }
{
    match state {
        CookieState::Absent => 0,
        CookieState::Malformed | CookieState::Unknown | CookieState::Known => COOKIE_OCTETS,
    }
}

/// How many octets it leaves for an identifier.
fn reserved_for_nsid(nsid: &[u8]) -> usize
    ensures value { result ≡ reserved_for_nsid nsid.now }
    ensures most { result ≤ 4 + length nsid.now }
{
    match nsid {
        [] => 0,
        [_, ..] => 4 + nsid.len(),
    }
}

/// The way by which a response leaves room for options within a limit.
pub(crate) fn lowered(transport: Transport, most: u16, room: usize) -> Transport
    ensures { result ≡ lowered transport most room }
{
    match transport {
        Transport::Udp { .. } => Transport::Udp {
            limit: left_of(most, room),
        },
        Transport::Tcp => Transport::Tcp,
    }
}

/// What is left of so many octets without some, but 512 at least.
fn left_of(most: u16, room: usize) -> u16
    ensures { result ≡ max 512 (most - room) }
{
    usize::from(most).saturating_sub(room).max(512) as u16
}
