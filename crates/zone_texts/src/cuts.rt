//! Texts cut in two.
ghost use Rattle.std.specs.Prelude.{◌≡◌, ◌==◌, ◌<◌, length, option_map, IfSome};
ghost use Rattle.std.specs.List.{position};
ghost use Rattle.zone_texts.specs.Patterns.{cut_at};

/// What stands before and behind the first of an octet; none where it isn't there.
pub(crate) fn cut_at(octets: &[u8], octet: u8) -> Option<(&[u8], &[u8])>
    ensures { option_map (λ t. (t.0.now, t.1.now)) result ≡ cut_at octet octets.now }
{
    match place_of(octets, octet) {
        Some(at) => Some((&octets[..at], &octets[at + 1..])),
        None => None,
    }
}

/// How many octets stand before the first of an octet.
fn place_of(octets: &[u8], octet: u8) -> Option<usize>
    ensures within { IfSome result (λ at. at < length octets.now) }
    ensures place { result ≡ position (λ x. x == octet) octets.now }
{
    octets.iter().position(|other| *other == octet)
}
