//! Why a lookup has no records to answer.
ghost use Rattle.std.specs.Prelude.{◌≡◌, ◌↔◌, IsTrue, IsSome, option_and_then};
ghost use Rattle.std.specs.Option.{option_map, option_copied};
ghost use Rattle.lookup_types.specs.Errors.{is_nx_domain, no_records_of};

use crate::net_error::NetError;
use std::io;
use thiserror::Error;
use zone_proto::{ProtoError, Record, ResponseCode, SoaRecord};

/// Why a lookup gives no records.
#[derive(Debug, Drop, Error)]
pub enum LookupError {
    /// A request that asks any number of questions but one, and that number.
    #[error("there should only be one query per request, got {0}")]
    BadQueryCount(usize),
    /// The name is there, but owns nothing of the type that is asked for (RFC 2308 section 2.2).
    #[error("The name exists, but not for the record requested")]
    NameExists,
    /// The response code says why (RFC 1035 section 4.1.1).
    #[error("Error performing lookup: {0}")]
    ResponseCode(ResponseCode),
    /// The exchange with another server failed, or names or data were refused.
    #[error("net error: {0}")]
    NetError(NetError),
    /// Reading or writing failed.
    #[error("io error: {0}")]
    Io(io::Error),
    /// No memory was found.
    #[error("out of memory")]
    Memory,
}

impl LookupError {
    /// The error for a name that is there without the type that is asked for.
    pub fn for_name_exists() -> LookupError
        ensures { result ≡ LookupError.NameExists }
    {
        LookupError::NameExists
    }

    /// Whether this says that the name doesn't exist.
    pub fn is_nx_domain(&self) -> bool
        ensures { result ≡ is_nx_domain self.now }
    {
        match self {
            LookupError::ResponseCode(code) => *code == ResponseCode::NXDomain,
            LookupError::NetError(e) => e.is_nx_domain(),
            _ => false,
        }
    }

    /// Whether this is a negative response of another server.
    pub fn is_no_records_found(&self) -> bool
        ensures { IsTrue result ↔ IsSome (no_records_of self.now) }
    {
        match self {
            LookupError::NetError(e) => e.is_no_records_found(),
            _ => false,
        }
    }

    /// The SOA record of the negative response that this is, if it is one and had one.
    pub fn into_soa(self) -> Option<Box<SoaRecord>>
        ensures { result ≡ option_and_then (λ found. found.soa) (no_records_of self) }
    {
        match self {
            LookupError::NetError(NetError::NoRecordsFound(found)) => found.soa,
            _ => None,
        }
    }

    /// The authority records of the negative response that this is, if it is one and kept them.
    pub fn authorities(&self) -> Option<&[Record]>
        ensures { option_copied result
            ≡ option_and_then (λ found. option_map (λ list. list.items) found.authorities)
            (no_records_of self.now) }
    {
        match self {
            LookupError::NetError(NetError::NoRecordsFound(found)) => {
                found.authorities.as_ref().map(|list| list.as_slice())
            }
            _ => None,
        }
    }
}

impl From<ResponseCode> for LookupError {
    ghost use Rattle.std.specs.Prelude.{◌≡◌};
    ghost use Rattle.lookup_types.specs.declared.lookup_error.LookupError.TheVariants.{ResponseCode};

    ghost from_gives = { λ code e. e ≡ ResponseCode code };

    /// The error that answers with this response code (RFC 1035 section 4.1.1).
    fn from(code: ResponseCode) -> LookupError {
        LookupError::ResponseCode(code)
    }
}

impl From<NetError> for LookupError {
    ghost use Rattle.std.specs.Prelude.{◌≡◌};
    ghost use Rattle.lookup_types.specs.declared.lookup_error.LookupError.TheVariants.{NetError};

    ghost from_gives = { λ error e. e ≡ NetError error };

    /// The case `NetError`.
    fn from(error: NetError) -> LookupError {
        LookupError::NetError(error)
    }
}

impl From<io::Error> for LookupError {
    ghost use Rattle.std.specs.Prelude.{◌≡◌};
    ghost use Rattle.lookup_types.specs.declared.lookup_error.LookupError.TheVariants.{Io};

    ghost from_gives = { λ error e. e ≡ Io error };

    /// The case `Io`.
    fn from(error: io::Error) -> LookupError {
        LookupError::Io(error)
    }
}

impl From<ProtoError> for LookupError {
    ghost use Rattle.std.specs.Prelude.{◌≡◌};
    ghost use Rattle.lookup_types.specs.Errors.{error_of_proto};

    ghost from_gives = { λ refusal e. e ≡ error_of_proto refusal };

    /// `Memory` for lack of memory, and any other refusal as the [`NetError`] of it.
    fn from(refusal: ProtoError) -> LookupError {
        match refusal {
            ProtoError::Memory => LookupError::Memory,
            other => LookupError::NetError(NetError::Proto(other)),
        }
    }
}
