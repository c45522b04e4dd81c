//! What is wrong with the sets of denial of a zone.
ghost use Rattle.std.specs.Prelude.{◌≡◌, IfOk, IsOkUnless};

use std::alloc::AllocFailed;
use thiserror::Error;
use zone_denial::type_word::TypeWord;
use zone_proto::{LowerName, Name, ProtoError, RecordType};

/// Why the NSEC or NSEC3 sets of a zone are no chain. The types that come first are NSEC or NSEC3, and names are those of the zone,
/// not their hashed owners, but in `Surplus`.
#[derive(Debug, Drop, Error)]
pub enum ChainFault {
    /// No memory was found.
    #[error("out of memory")]
    Memory,
    /// A name that the chain has to go through has no set.
    #[error("{0} has no {1}")]
    Missing(Name, RecordType),
    /// This owner has a set, and the chain goes through no name that would have it there: the zone isn't authoritative for the
    /// owner of NSEC (RFC 4035 section 2.3), or no name is hashed to the owner of NSEC3 (RFC 5155 section 7.1).
    #[error("{0} has {1}, and no name of the zone is denied there")]
    Surplus(Name, RecordType),
    /// The set of a name has several records.
    #[error("the {1} of {0} has several records")]
    Several(Name, RecordType),
    /// The list of a name lacks a type that the name owns, or RRSIG where something is signed.
    #[error("the {1} of {0} doesn't list {word}, which stands there", word = TypeWord(*.2))]
    Lacks(Name, RecordType, RecordType),
    /// The list of a name has a type that the name doesn't own.
    #[error("the {1} of {0} lists {word}, which doesn't stand there", word = TypeWord(*.2))]
    Lists(Name, RecordType, RecordType),
    /// The list of a name has no type but NSEC and RRSIG: a name that owns nothing else has no NSEC (RFC 4035 section 2.3).
    #[error("the NSEC of {0} lists nothing else that stands there")]
    ListsNothing(Name),
    /// The set of a name leads elsewhere than to the next on the chain.
    #[error("the {1} of {0} doesn't lead to the next name")]
    Next(Name, RecordType),
    /// The NSEC3 record of a name has another Opt-Out flag than the chain (RFC 5155 section 6).
    #[error("the NSEC3 of {0} has another Opt-Out flag than the chain")]
    OptOut(Name),
    /// The origin has no NSEC3PARAM (RFC 5155 section 4).
    #[error("no NSEC3PARAM stands at the origin")]
    NoParameters,
    /// The hash has no digest of a name: it doesn't know the algorithm with this number.
    #[error("names can't be hashed by the algorithm {0}")]
    Hash(u8),
    /// The hashed owner of a name would be longer than a name may be, or its first label than a label may be.
    #[error("the hashed owner of {0} is too long")]
    OwnerTooLong(Name),
    /// Two names have one digest.
    #[error("{0} and {1} have one hash")]
    SameHash(Name, Name),
}

/// Want of memory is `Memory`; the value that found no room is dropped.
impl<T: Drop> From<AllocFailed<T>> for ChainFault {
    ghost use Rattle.zone_verify.specs.declared.fault.ChainFault.TheVariants.{Memory};

    ghost from_gives = { λ _ e. e ≡ Memory };

    fn from(_: AllocFailed<T>) -> ChainFault {
        ChainFault::Memory
    }
}

/// Of names and sets that are there already memory alone is asked.
impl From<ProtoError> for ChainFault {
    ghost use Rattle.zone_verify.specs.declared.fault.ChainFault.TheVariants.{Memory};

    ghost from_gives = { λ _ e. e ≡ Memory };

    fn from(_: ProtoError) -> ChainFault {
        ChainFault::Memory
    }
}

/// A name as a fault tells it. Its only error is `Memory`.
pub(crate) fn told(name: &LowerName) -> Result<Name, ProtoError>
    ensures ok { IfOk result (λ n. n ≡ name.now) }
    ensures err { IsOkUnless result ProtoError.Memory }
{
    Ok(Name::from(name.clone()?))
}
