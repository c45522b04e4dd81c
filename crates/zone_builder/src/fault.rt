//! Why no zone is made of records.

ghost use Rattle.std.specs.Prelude.{◌≡◌};

use crate::given::RecordAt;
use std::alloc::{AllocError, AllocFailed};
use thiserror::Error;
use zone_proto::{DNSClass, Name, ProtoError};
use zone_scanner::Place;

/// How many iterations the NSEC3 records of a zone may have. There should be none: each makes every denial dearer, and no name
/// safer (RFC 9276 section 3.1).
pub const MOST_ITERATIONS: u16 = 50;

/// Why no zone is made of records.
#[derive(Debug, Drop, Error)]
pub enum LoadFault {
    /// No memory was found.
    #[error("out of memory")]
    Memory,
    /// A record is of another class than IN, which that of a zone is (RFC 1035 section 5.2).
    #[error("{0} is of class {1}, and a zone here is of class IN")]
    OtherClass(RecordAt, DNSClass),
    /// No SOA is at the origin (RFC 1035 section 5.2).
    #[error("no SOA stands at the origin, {0}")]
    NoSoa(Name),
    /// An SOA is below the origin (RFC 1035 section 5.2).
    #[error("{0} stands below the origin, where none may stand")]
    SoaBelow(RecordAt),
    /// No NS is at the origin (RFC 1034 section 4.2.1).
    #[error("no NS stands at the origin, {0}")]
    NoNs(Name),
    /// A DNSKEY or NSEC3PARAM at the origin says that the zone is signed, and it has neither NSEC (RFC 4035 section 2.3) nor
    /// NSEC3 (RFC 5155 section 7.1).
    #[error("{0} is that of a signed zone, and no NSEC or NSEC3 denies a name")]
    NoDenials(RecordAt),
    /// An NSEC3 or NSEC3PARAM has so many iterations, which are more than [`MOST_ITERATIONS`] (RFC 9276 section 3.1).
    #[error("{0} has {1} iterations, and {most} are the most", most = MOST_ITERATIONS)]
    TooManyIterations(RecordAt, u16),
    /// A name owns two records of a type of which it may own one alone: SOA (RFC 1035 section 5.2), CNAME (RFC 2181 section
    /// 10.1), DNAME (RFC 6672 section 2.4) or ANAME.
    #[error("{0} is the second one of this name, which may own one alone")]
    Second(RecordAt),
    /// A record that is no CNAME is at the name of one (RFC 1034 section 3.6.2), and isn't of NSEC or NSEC3, which may
    /// (RFC 4035 section 2.5).
    #[error("{0} stands beside a CNAME, beside which no other data may stand")]
    BesideCname(RecordAt),
}

impl LoadFault {
    /// Where the record stands that is the fault, if that is known.
    pub fn place(&self) -> Option<Place> {
        match self {
            LoadFault::Memory | LoadFault::NoSoa(_) | LoadFault::NoNs(_) => None,
            LoadFault::OtherClass(at, _)
            | LoadFault::NoDenials(at)
            | LoadFault::TooManyIterations(at, _)
            | LoadFault::SoaBelow(at)
            | LoadFault::Second(at)
            | LoadFault::BesideCname(at) => at.place,
        }
    }
}

/// Want of memory is `Memory`.
impl From<AllocError> for LoadFault {
    ghost use Rattle.zone_builder.specs.declared.fault.LoadFault.TheVariants.{Memory};

    ghost from_gives = { λ _ e. e ≡ Memory };

    fn from(_: AllocError) -> LoadFault {
        LoadFault::Memory
    }
}

/// Want of memory is `Memory`; the value that found no room is dropped.
impl<T: Drop> From<AllocFailed<T>> for LoadFault {
    ghost use Rattle.zone_builder.specs.declared.fault.LoadFault.TheVariants.{Memory};

    ghost from_gives = { λ _ e. e ≡ Memory };

    fn from(_: AllocFailed<T>) -> LoadFault {
        LoadFault::Memory
    }
}

/// Of names and records that are there already memory alone is asked.
impl From<ProtoError> for LoadFault {
    ghost use Rattle.zone_builder.specs.declared.fault.LoadFault.TheVariants.{Memory};

    ghost from_gives = { λ _ e. e ≡ Memory };

    fn from(_: ProtoError) -> LoadFault {
        LoadFault::Memory
    }
}
