//! The secrets for cookies, as octets.
ghost use Rattle.std.specs.Prelude.{◌≡◌};
ghost use Rattle.arrival_calls.specs.ArrivalCalls.{secrets_of};

use message_cookies::CookieSecrets;

/// The secrets that octets are.
pub(crate) fn secrets_of(octets: &[u8]) -> Option<CookieSecrets>
    ensures { result ≡ secrets_of octets.now }
{
    if octets.len() == 16 {
        let mut current = [0u8; 16];
        current.copy_from_slice(octets);
        Some(CookieSecrets {
            current,
            previous: None,
        })
    } else if octets.len() == 32 {
        let mut current = [0u8; 16];
        current.copy_from_slice(&octets[..16]);
        let mut previous = [0u8; 16];
        previous.copy_from_slice(&octets[16..]);
        Some(CookieSecrets {
            current,
            previous: Some(previous),
        })
    } else {
        None
    }
}
