//! The data of OPT records: options, which are passed over (RFC 6891 section 6.1.2).
ghost use Rattle.std.specs.Prelude.{◌≡◌, option_map};
ghost use Rattle.message_reading.specs.Queries.{are_options, behind_option};

use crate::octets::{octets_of, short_of};

/// Whether octets are options, at most 64, to their end.
pub(crate) fn are_options(octets: &[u8]) -> bool
    ensures { result ≡ are_options 65 octets.now }
{
    let mut rest = octets;
    for _ in 0..65usize {
        if rest.is_empty() {
            return true;
        }
        match behind_option(rest) {
            None => return false,
            Some(next) => rest = next,
        }
    }
    false
}

/// What follows an option.
fn behind_option(octets: &[u8]) -> Option<&[u8]>
    ensures { option_map (λ x. x.now) result ≡ behind_option octets.now }
{
    let (_, rest) = short_of(octets)?;
    let (count, rest) = short_of(rest)?;
    let (_, rest) = octets_of(usize::from(count), rest)?;
    Some(rest)
}
