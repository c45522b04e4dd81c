//! Moments of signatures.
ghost use Rattle.std.specs.Prelude.{◌≡◌};
ghost use Rattle.zone_publication.specs.Dates.{ahead, is_not_before};

/// The moment of which is asked, and how soon a signature may end behind it. Contracts see it by its fields.
#[derive(Clone, Copy, PartialEq, Eq, Debug)]
pub struct Period {
    /// In seconds since 1970, modulo 2^32.
    pub moment: u32,
    /// In seconds.
    pub soon: u32,
}

/// How many seconds a moment is ahead of another one, on the circle of 2^32 (RFC 1982 section 3.2).
pub(crate) fn ahead(later: u32, earlier: u32) -> u32
    ensures { result ≡ ahead later earlier }
{
    let whole = 4_294_967_296u64;
    ((u64::from(later) + (whole - u64::from(earlier))) % whole) as u32
}

/// Whether a moment isn't before another one.
pub(crate) fn is_not_before(later: u32, earlier: u32) -> bool
    ensures { result ≡ is_not_before later earlier }
{
    ahead(later, earlier) < 2_147_483_648
}
