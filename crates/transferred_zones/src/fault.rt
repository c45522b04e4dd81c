//! Why a zone isn't taken.
ghost use Rattle.std.specs.Prelude.{◌≡◌};

use std::alloc::AllocError;
use thiserror::Error;
use transfer_reading::OutcomeFault;
use zone_builder::{LoadFault, LoadWarning};
use zone_proto::ProtoError;

/// Why a zone isn't taken.
#[derive(Debug, Drop, Error)]
pub enum TakeFault {
    /// The answer says nothing.
    #[error("{0}")]
    Answer(OutcomeFault),
    /// Its records make no zone.
    #[error("{0}")]
    NoZone(LoadFault),
    /// One of them would be left out: it is outside the zone, or a signature of no set of it.
    #[error("{0}")]
    LeftOut(LoadWarning),
    /// No memory was found.
    #[error("out of memory")]
    Memory,
}

/// Want of memory is `Memory`.
impl From<ProtoError> for TakeFault {
    ghost use Rattle.transferred_zones.specs.declared.fault.TakeFault.TheVariants.{Memory};

    ghost from_gives = { λ _ e. e ≡ Memory };

    fn from(_: ProtoError) -> TakeFault {
        TakeFault::Memory
    }
}

/// Want of memory is `Memory`.
impl From<AllocError> for TakeFault {
    ghost use Rattle.transferred_zones.specs.declared.fault.TakeFault.TheVariants.{Memory};

    ghost from_gives = { λ _ e. e ≡ Memory };

    fn from(_: AllocError) -> TakeFault {
        TakeFault::Memory
    }
}
