//! Codes compared.
ghost use Rattle.std.specs.Prelude.{◌≡◌, ◌↔◌, IsTrue, nat_eq};
ghost use Rattle.std.specs.Cmp.Lexicographic.{pointwise};

/// Whether octets are the same. What is done depends on their counts alone: each pair of octets is looked at, whatever came before, and
/// no branch depends on one, so that the time tells nothing of where they differ. That is the form of the loop, which no contract says;
/// in the programs as they are compiled it is a loop over 16 or 32 octets at once by `pxor` and `por`, with one branch behind its end.
pub fn same_octets(left: &[u8], right: &[u8]) -> bool
    ensures same { IsTrue result ↔ (left.now ≡ right.now) }
    ensures value { result ≡ pointwise nat_eq left.now right.now }
{
    is_same(left, right)
}

fn is_same(left: &[u8], right: &[u8]) -> bool
    ensures { IsTrue result ↔ (left.now ≡ right.now) }
{
    if left.len() != right.len() {
        return false;
    }
    let mut differing = 0u8;
    for i in 0..left.len() {
        differing |= left[i] ^ right[i];
    }
    differing == 0
}
