//! DNS cookies (RFC 7873), by which a server knows a client that it has answered before: server cookies in the form that servers of
//! all makers understand (RFC 9018), made and checked, and the hash function SipHash-2-4 that they are made with.
#![tactic(auto)]

mod checking;
mod making;
mod secrets;
mod sip_hash;

pub use checking::{CheckedCookie, check_cookie};
pub use making::make_cookie;
pub use secrets::CookieSecrets;
pub use sip_hash::siphash;
