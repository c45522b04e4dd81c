//! A word cut at the first of a sign.
ghost use Rattle.std.specs.Prelude.{◌≡◌, ◌≤◌, drop, length};
ghost use Rattle.record_fields.specs.Signs.{before_sign, behind_sign, sign_at};

/// How many octets stand before it; all where it isn't there.
pub(crate) fn sign_at(sign: u8, word: &[u8]) -> usize
    ensures value { result ≡ sign_at sign word.now }
    ensures within { result ≤ length word.now }
{
    word.iter().take_while(|octet| **octet != sign).count()
}

/// What stands before it.
pub(crate) fn before_sign(sign: u8, word: &[u8]) -> &[u8]
    ensures { result.now ≡ before_sign sign word.now }
{
    let (before, _) = word.split_at(sign_at(sign, word));
    before
}

/// What stands behind it.
pub(crate) fn behind_sign(sign: u8, word: &[u8]) -> &[u8]
    ensures { result.now ≡ behind_sign sign word.now }
{
    let (_, behind) = word.split_at(sign_at(sign, word));
    without_first(behind)
}

/// Octets without the first of them.
fn without_first(octets: &[u8]) -> &[u8]
    ensures { result.now ≡ drop 1 octets.now }
{
    match octets {
        [] => octets,
        [_, others @ ..] => others,
    }
}
