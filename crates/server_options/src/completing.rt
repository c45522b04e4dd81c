//! The options that a response gets.
ghost use Rattle.std.specs.Prelude.{◌≡◌, ◌≤◌, OnOk, IfOk, Some, length, option_map};
ghost use Rattle.server_options.specs.Completing.{added, completed, error_by, error_in, options_for, with_cookie, with_error, with_nsid};

use crate::arrival::Arrival;
use message_cookies::{CookieSecrets, make_cookie};
use message_options::{COOKIE, EXTENDED_ERROR, NSID, ends_with_opt, push_option, put_options};
use std::alloc::{AllocError, Global};

/// SERVFAIL (RFC 1035 section 4.1.1).
const FAILED: u8 = 2;

/// REFUSED (RFC 1035 section 4.1.1).
const REFUSED: u8 = 5;

/// Other Error (RFC 8914 section 4.1).
const OTHER: u16 = 0;

/// Not Authoritative (RFC 8914 section 4.21).
const NOT_AUTHORITATIVE: u16 = 20;

/// How many octets options may have together: their count has 16 bits.
const MOST_OCTETS: usize = 65_535;

/// Puts the options into a response, if it ends with an OPT record.
pub(crate) fn complete(
    alloc: Global,
    limit: u16,
    cookie: Option<(CookieSecrets, &[u8])>,
    nsid: &[u8],
    arrival: &Arrival<'_>,
    response: &mut Vec<u8>,
) -> Result<(), AllocError>
    ensures { OnOk result (response.new.items ≡ completed limit
        (option_map (λ x. (x.0, x.1.now)) cookie.entry) nsid.now arrival.now response.old.items) }
{
    if !ends_with_opt(response.as_slice()) {
        return Ok(());
    }
    let room = usize::from(limit).saturating_sub(response.len());
    let options = options_for(alloc, room, cookie, nsid, arrival, response.as_slice())?;
    put_options(response, options.as_slice())
}

/// The options of a response, each if there is room for it.
fn options_for(
    alloc: Global,
    room: usize,
    cookie: Option<(CookieSecrets, &[u8])>,
    nsid: &[u8],
    arrival: &Arrival<'_>,
    response: &[u8],
) -> Result<Vec<u8>, AllocError>
    requires { room ≤ 65535 }
    ensures options { IfOk result (λ options. options.items ≡ options_for room
        (option_map (λ x. (x.0, x.1.now)) cookie.entry) nsid.now arrival.now response.now) }
    ensures size { IfOk result (λ options. length options.items ≤ 65535) }
{
    let mut options = Vec::new(alloc);
    push_cookie(alloc, room, &mut options, cookie, arrival)?;
    push_error(room, &mut options, error_in(response))?;
    push_nsid(room, &mut options, nsid)?;
    Ok(options)
}

/// One more option, if there is room for it.
fn add(room: usize, options: &mut Vec<u8>, code: u16, value: &[u8]) -> Result<(), AllocError>
    requires room { room ≤ 65535 }
    requires size { length options.old.items ≤ 65535 }
    ensures added { OnOk result (options.new.items ≡ added room options.old.items code value.now) }
    ensures size { OnOk result (length options.new.items ≤ 65535) }
{
    if MOST_OCTETS < value.len() || room < options.len() + (4 + value.len()) {
        return Ok(());
    }
    push_option(options, code, value)
}

/// A new server cookie.
fn push_cookie(
    alloc: Global,
    room: usize,
    options: &mut Vec<u8>,
    cookie: Option<(CookieSecrets, &[u8])>,
    arrival: &Arrival<'_>,
) -> Result<(), AllocError>
    requires room { room ≤ 65535 }
    requires size { length options.old.items ≤ 65535 }
    ensures added { OnOk result (options.new.items ≡ with_cookie room options.old.items
        (option_map (λ x. (x.0, x.1.now)) cookie.entry) arrival.now) }
    ensures size { OnOk result (length options.new.items ≤ 65535) }
{
    match cookie {
        None => Ok(()),
        Some((secrets, value)) => push_made(alloc, room, options, secrets, value, arrival),
    }
}

/// The same for a query that has a cookie.
fn push_made(
    alloc: Global,
    room: usize,
    options: &mut Vec<u8>,
    secrets: CookieSecrets,
    value: &[u8],
    arrival: &Arrival<'_>,
) -> Result<(), AllocError>
    requires room { room ≤ 65535 }
    requires size { length options.old.items ≤ 65535 }
    ensures added { OnOk result (options.new.items ≡ with_cookie room options.old.items
        (Some (secrets, value.now)) arrival.now) }
    ensures size { OnOk result (length options.new.items ≤ 65535) }
{
    if value.len() < 8 {
        return Ok(());
    }
    let made = make_cookie(
        alloc,
        secrets.current,
        &value[..8],
        arrival.address,
        arrival.moment,
    )?;
    add(room, options, COOKIE, made.as_slice())
}

/// The extended error of a response.
fn error_in(response: &[u8]) -> Option<u16>
    ensures { result ≡ error_in response.now }
{
    match response {
        [_, _, _, fourth, ..] => error_by(*fourth % 16),
        _ => None,
    }
}

/// The extended error of a code.
fn error_by(code: u8) -> Option<u16>
    ensures { result ≡ error_by code }
{
    match code {
        REFUSED => Some(NOT_AUTHORITATIVE),
        FAILED => Some(OTHER),
        _ => None,
    }
}

/// An extended error, if there is one.
fn push_error(room: usize, options: &mut Vec<u8>, error: Option<u16>) -> Result<(), AllocError>
    requires room { room ≤ 65535 }
    requires size { length options.old.items ≤ 65535 }
    ensures added { OnOk result (options.new.items ≡ with_error room options.old.items error) }
    ensures size { OnOk result (length options.new.items ≤ 65535) }
{
    match error {
        None => Ok(()),
        Some(code) => add(
            room,
            options,
            EXTENDED_ERROR,
            &[(code / 256) as u8, (code % 256) as u8],
        ),
    }
}

/// The identifier of the server, if there is one.
fn push_nsid(room: usize, options: &mut Vec<u8>, nsid: &[u8]) -> Result<(), AllocError>
    requires room { room ≤ 65535 }
    requires size { length options.old.items ≤ 65535 }
    ensures added { OnOk result (options.new.items ≡ with_nsid room options.old.items nsid.now) }
    ensures size { OnOk result (length options.new.items ≤ 65535) }
{
    match nsid {
        [] => Ok(()),
        [_, ..] => add(room, options, NSID, nsid),
    }
}
