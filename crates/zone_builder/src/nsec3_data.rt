//! What NSEC3 sets say of the chain to which they belong.
ghost use Rattle.std.specs.Prelude.{◌≡◌};
ghost use Rattle.zone_builder.specs.DenialKinds.{opts_out};

use zone_denial::chain_sets::first_nsec3;
use zone_proto::RecordSet;

/// Whether the first record of an NSEC3 set has the opt-out flag.
pub(crate) fn opts_out(set: &RecordSet) -> bool
    ensures { result ≡ opts_out set.now }
{
    match first_nsec3(set) {
        Some(data) => data.opt_out,
        None => false,
    }
}
