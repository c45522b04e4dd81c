//! The secrets of a server.

/// The secrets by which a server makes and checks cookies, of 128 bits each. Servers that answer for one another at one address have
/// the same secrets (RFC 9018 section 2).
#[derive(Clone, Copy, Drop)]
pub struct CookieSecrets {
    /// The secret by which cookies are made.
    pub current: [u8; 16],
    /// The secret by which cookies were made until a while ago, if they are still taken (RFC 9018 section 5).
    pub previous: Option<[u8; 16]>,
}
