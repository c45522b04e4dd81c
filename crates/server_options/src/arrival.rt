//! Messages as they arrive, and how a server answers options.

use message_cookies::CookieSecrets;
use zone_server::Transport;

/// A message as it arrives at a server.
#[derive(Clone, Copy, Drop)]
pub struct Arrival<'a> {
    /// Its octets.
    pub message: &'a [u8],
    /// The address that it came from, of 4 or 16 octets.
    pub address: &'a [u8],
    /// The moment, in seconds since 1970, by 2^32.
    pub moment: u32,
    /// How it came, and how its response goes.
    pub transport: Transport,
}

/// What a server answers by options.
#[derive(Clone, Copy, Drop)]
pub struct ServerOptions<'a> {
    /// Its identifier, for queries that ask for it (RFC 5001 section 2.2); without octets none is sent.
    pub nsid: &'a [u8],
    /// The secrets by which cookies are made; without them, COOKIE options are passed over (RFC 7873 section 5.2.1).
    pub secrets: Option<CookieSecrets>,
    /// Whether a query over UDP that has a COOKIE option without a valid server cookie gets that and no answer, by BADCOOKIE (RFC 7873
    /// sections 5.2.3 and 5.2.4).
    pub cookies_required: bool,
}
