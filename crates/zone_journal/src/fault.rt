//! Why a step has no entry.
ghost use Rattle.std.specs.Prelude.{◌≡◌};

use std::alloc::AllocError;

/// Why a step has no entry.
#[derive(Clone, Copy, PartialEq, Eq, Debug)]
pub enum EntryFault {
    /// Its sets couldn't be read back. It isn't between two SOAs; or one of its other sets has no records, is of type SOA or RRSIG, or has the
    /// owner and type of the one before it.
    Unreadable,
    /// A record has data that no octets are, or no message has room for it; or the records take more than 65,534 messages.
    Unwritable,
    /// A growth that the allocator refused.
    Memory,
}

/// Want of memory is `Memory`.
impl From<AllocError> for EntryFault {
    ghost use Rattle.zone_journal.specs.declared.fault.EntryFault.TheVariants.{Memory};

    ghost from_gives = { λ _ e. e ≡ Memory };

    fn from(_: AllocError) -> EntryFault {
        EntryFault::Memory
    }
}
