//! Why a zone isn't planned or finished.
ghost use Rattle.std.specs.Prelude.{◌≡◌};

use message_writing::WriteError;
use std::alloc::{AllocError, AllocFailed};
use thiserror::Error;
use zone_proto::{Name, ProtoError, RecordType};

/// Why a zone isn't planned.
#[derive(Debug, Drop, Error)]
pub enum PlanFault {
    /// No memory was found.
    #[error("out of memory")]
    Memory,
    /// There are more keys than 256.
    #[error("there are more keys than 256")]
    ManyKeys,
    /// The key of this number, counted from 0, is none that a zone has: it isn't of protocol 3 or no zone key (RFC 4034 sections 2.1.1
    /// and 2.1.2), is of algorithm 1 (RFC 8624 section 3.1), or longer than a record; or it is revoked (RFC 5011 section 2.1), and
    /// signs other sets than those of keys.
    #[error("the key number {0} can't be a key of a zone")]
    BadKey(usize),
    /// No key signs the keys of the zone, or none the other sets.
    #[error("no key signs the keys of the zone, or none its other sets")]
    NoKey,
    /// A key of this algorithm is published, and not each set gets a signature by a key of it (RFC 4035 section 2.2).
    #[error("keys of algorithm {0} are published, and not each set is signed by one of them")]
    UnsignedAlgorithm(u8),
    /// The moments aren't those of signatures: they begin past the year 9999, or may end no later than they begin, or 2^31 seconds
    /// later or more (RFC 4034 section 3.1.5).
    #[error("signatures can't hold from the one moment to the other")]
    Moments,
    /// No SOA stands at the origin.
    #[error("no SOA stands at the origin")]
    NoSoa,
    /// A CNAME stands at the origin, where keys are to stand.
    #[error("a CNAME stands at the origin")]
    CnameAtOrigin,
    /// A set of this owner stands outside of the zone.
    #[error("{0} stands outside of the zone")]
    Outside(Name),
    /// A set of this owner and type is one that signing makes: RRSIG, NSEC, NSEC3 or NSEC3PARAM. Whoever plans takes them out first.
    #[error("{0} has a set of {1}, which signing makes anew")]
    Made(Name, RecordType),
    /// A set of this owner stands below a DNAME, so that it is never answered (RFC 6672 section 2.4).
    #[error("{0} stands below a DNAME, where nothing may stand")]
    BelowDname(Name),
    /// Names can't be hashed.
    #[error("names can't be hashed by this algorithm")]
    Hash,
    /// A hashed owner would be too long.
    #[error("the hashed owner of a name is too long")]
    OwnerTooLong,
    /// A record has data that no octets are.
    #[error("a record has data that no octets are")]
    Unwritable,
}

/// Why signatures aren't put in.
#[derive(Clone, Copy, PartialEq, Eq, Debug, Error)]
pub enum FinishFault {
    /// No memory was found.
    #[error("out of memory")]
    Memory,
    /// They aren't in the form of signatures: octets behind two that count them, to the end.
    #[error("the signatures aren't octets behind their count")]
    BadForm,
    /// There are fewer signatures than are wanted.
    #[error("there are fewer signatures than are wanted")]
    TooFew,
    /// There are more.
    #[error("there are more signatures than are wanted")]
    TooMany,
    /// In the place of a signature, counted from 0, stands the number of no key.
    #[error("the signature number {0} is that of no key")]
    UnknownKey(usize),
    /// A signature, counted from 0, isn't as long as its key makes them.
    #[error("the signature number {0} isn't as long as those of its key")]
    WrongLength(usize),
}

/// Lack of memory is `Memory`.
impl From<AllocError> for PlanFault {
    ghost use Rattle.zone_planning.specs.declared.fault.PlanFault.TheVariants.{Memory};

    ghost from_gives = { λ _ e. e ≡ Memory };

    fn from(_: AllocError) -> PlanFault {
        PlanFault::Memory
    }
}

/// Lack of memory is `Memory`; the value that found no room is dropped.
impl<T: Drop> From<AllocFailed<T>> for PlanFault {
    ghost use Rattle.zone_planning.specs.declared.fault.PlanFault.TheVariants.{Memory};

    ghost from_gives = { λ _ e. e ≡ Memory };

    fn from(_: AllocFailed<T>) -> PlanFault {
        PlanFault::Memory
    }
}

/// Of names and sets that are there already memory alone is asked.
impl From<ProtoError> for PlanFault {
    ghost use Rattle.zone_planning.specs.declared.fault.PlanFault.TheVariants.{Memory};

    ghost from_gives = { λ _ e. e ≡ Memory };

    fn from(_: ProtoError) -> PlanFault {
        PlanFault::Memory
    }
}

/// Data are refused as unwritable, or for lack of memory.
impl From<WriteError> for PlanFault {
    ghost use Rattle.zone_planning.specs.Faults.{write_fault};

    ghost from_gives = { λ e fault. fault ≡ write_fault e };

    fn from(error: WriteError) -> PlanFault {
        match error {
            WriteError::Memory => PlanFault::Memory,
            _ => PlanFault::Unwritable,
        }
    }
}

/// Lack of memory is `Memory`.
impl From<AllocError> for FinishFault {
    ghost use Rattle.zone_planning.specs.declared.fault.FinishFault.TheVariants.{Memory};

    ghost from_gives = { λ _ e. e ≡ Memory };

    fn from(_: AllocError) -> FinishFault {
        FinishFault::Memory
    }
}

/// Lack of memory is `Memory`; the value that found no room is dropped.
impl<T: Drop> From<AllocFailed<T>> for FinishFault {
    ghost use Rattle.zone_planning.specs.declared.fault.FinishFault.TheVariants.{Memory};

    ghost from_gives = { λ _ e. e ≡ Memory };

    fn from(_: AllocFailed<T>) -> FinishFault {
        FinishFault::Memory
    }
}

/// Of names and signatures that are there already memory alone is asked.
impl From<ProtoError> for FinishFault {
    ghost use Rattle.zone_planning.specs.declared.fault.FinishFault.TheVariants.{Memory};

    ghost from_gives = { λ _ e. e ≡ Memory };

    fn from(_: ProtoError) -> FinishFault {
        FinishFault::Memory
    }
}
