//! NSEC (RFC 4034 section 4), NSEC3 and NSEC3PARAM (RFC 5155 sections 3 and 4).
ghost use Rattle.zone_proto.specs.Results.{IsCopy};

use crate::error::ProtoError;
use crate::name::Name;
use crate::record_type::RecordType;
use crate::seq::Seq;

/// The data of an NSEC record: what the owner has, and the next owner (RFC 4034 section 4.1).
///
/// Equal by all parts, names ignoring case.
#[derive(PartialEq, Eq, PartialOrd, Ord, Debug, Drop)]
pub struct NSEC {
    /// The next authoritative name in canonical order; the zone's origin after the last.
    pub next_domain_name: Name,
    /// The types that the owner has.
    pub types: Seq<RecordType>,
}

impl NSEC {
    /// A copy of these data, identical in all parts, even in the case of letters in names. Its only error is `Memory`.
    pub fn clone(&self) -> Result<NSEC, ProtoError>
        ensures { IsCopy result self.now }
    {
        Ok(NSEC {
            next_domain_name: self.next_domain_name.clone()?,
            types: self.types.clone()?,
        })
    }
}

/// The data of an NSEC3 record: denial by hashed names (RFC 5155 section 3.1).
///
/// Equal by all parts.
#[derive(PartialEq, Eq, PartialOrd, Ord, Debug, Drop)]
pub struct NSEC3 {
    /// The hash algorithm's number; 1 is SHA-1.
    pub algorithm: u8,
    /// Unsigned delegations may be left out.
    pub opt_out: bool,
    /// How many more times the hash is taken.
    pub iterations: u16,
    /// What is appended to each hashed text.
    pub salt: Seq<u8>,
    /// The next digest in order; the least one after the greatest.
    pub next_hashed_owner_name: Seq<u8>,
    /// The types that the hashed name has.
    pub types: Seq<RecordType>,
}

impl NSEC3 {
    /// A copy of these data, identical in all parts. Its only error is `Memory`.
    pub fn clone(&self) -> Result<NSEC3, ProtoError>
        ensures { IsCopy result self.now }
    {
        Ok(NSEC3 {
            algorithm: self.algorithm,
            opt_out: self.opt_out,
            iterations: self.iterations,
            salt: self.salt.clone()?,
            next_hashed_owner_name: self.next_hashed_owner_name.clone()?,
            types: self.types.clone()?,
        })
    }
}

/// The data of an NSEC3PARAM record: the parameters of a zone's hashes (RFC 5155 section 4.1).
///
/// Equal by all parts.
#[derive(PartialEq, Eq, PartialOrd, Ord, Debug, Drop)]
pub struct NSEC3PARAM {
    /// The hash algorithm's number; 1 is SHA-1.
    pub algorithm: u8,
    /// Unsigned delegations may be left out.
    pub opt_out: bool,
    /// How many more times the hash is taken.
    pub iterations: u16,
    /// What is appended to each hashed text.
    pub salt: Seq<u8>,
}

impl NSEC3PARAM {
    /// A copy of these data, identical in all parts. Its only error is `Memory`.
    pub fn clone(&self) -> Result<NSEC3PARAM, ProtoError>
        ensures { IsCopy result self.now }
    {
        Ok(NSEC3PARAM {
            algorithm: self.algorithm,
            opt_out: self.opt_out,
            iterations: self.iterations,
            salt: self.salt.clone()?,
        })
    }
}
