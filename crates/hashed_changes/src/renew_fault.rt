//! Why NSEC3 sets aren't made anew.
ghost use Rattle.std.specs.Prelude.{◌≡◌};

use zone_proto::ProtoError;

/// Why the NSEC3 sets that a change makes others aren't made.
#[derive(Clone, Copy, PartialEq, Eq, Debug)]
pub enum RenewFault {
    /// The hash has no digest of a name.
    Hash,
    /// The text of a digest is no label, or makes an owner longer than a name may be.
    OwnerTooLong,
    /// The NSEC3 sets of the zone aren't a circle: one of them has no NSEC3 data, or they lead from one to the next without an end.
    Unclosed,
    /// No memory was found.
    Memory,
}

/// Want of memory is `Memory`.
impl From<ProtoError> for RenewFault {
    ghost use Rattle.hashed_changes.specs.declared.renew_fault.RenewFault.TheVariants.{Memory};

    ghost from_gives = { λ _ e. e ≡ Memory };

    fn from(_: ProtoError) -> RenewFault {
        RenewFault::Memory
    }
}
