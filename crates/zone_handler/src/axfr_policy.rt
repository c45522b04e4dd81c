//! Who may transfer a zone.
ghost use Rattle.zone_handler.specs.declared.axfr_policy.AxfrPolicy.TheVariants.{Deny};
ghost use Rattle.std.specs.Prelude.{◌≡◌};

use serde::Deserialize;

/// Who may transfer the zone whole (AXFR, RFC 5936).
#[derive(Clone, Copy, PartialEq, Eq, Debug, Deserialize)]
pub enum AxfrPolicy {
    /// Nobody. This is the default.
    Deny,
    /// Anybody.
    AllowAll,
    /// Those whose request is signed (TSIG, RFC 8945).
    AllowSigned,
}

impl Default for AxfrPolicy {
    ghost is_default = { λ policy. policy ≡ Deny };

    fn default() -> AxfrPolicy {
        AxfrPolicy::Deny
    }
}
