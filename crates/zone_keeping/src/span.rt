//! When a signature has to hold.
ghost use Rattle.std.specs.Prelude.{◌≡◌};
ghost use Rattle.zone_keeping.specs.Fitting.{holds, is_not_after};

use zone_proto::RRSIG;

/// From when until when a signature has to hold to stay, in seconds since 1970.
#[derive(Clone, Copy, PartialEq, Eq, Debug)]
pub struct Span {
    /// The first moment: that at which the zone is signed again.
    pub from: u64,
    /// The last moment.
    pub until: u64,
}

impl Span {
    /// Whether a signature holds at both moments, by serial arithmetic (RFC 4034 section 3.1.5, RFC 1982 section 3.2).
    pub fn is_within(&self, rrsig: &RRSIG) -> bool
        ensures { result ≡ holds self.now rrsig.now }
    {
        let from = (self.from % (1 << 32)) as u32;
        let until = (self.until % (1 << 32)) as u32;
        let inception = rrsig.inception;
        let expiration = rrsig.expiration;
        is_not_after(inception, from) && is_not_after(until, expiration)
    }
}

/// Whether a moment isn't after another, both modulo 2^32.
fn is_not_after(one: u32, other: u32) -> bool
    ensures { result ≡ is_not_after one other }
{
    if one <= other {
        other - one < 1 << 31
    } else {
        one - other > 1 << 31
    }
}
