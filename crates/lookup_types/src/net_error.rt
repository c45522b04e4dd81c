//! Why a forwarded lookup has no records.
ghost use Rattle.std.specs.Prelude.{◌≡◌, ◌↔◌, IsTrue, IsSome};
ghost use Rattle.lookup_types.specs.Errors.{no_records_of_net, is_nx_domain_net};

use thiserror::Error;
use zone_proto::{ProtoError, Record, ResponseCode, SoaRecord};

/// A negative response of another server (RFC 2308 section 2).
#[derive(Debug, Drop)]
pub struct NoRecords {
    /// The SOA record of its authority section, if it had one.
    pub soa: Option<Box<SoaRecord>>,
    /// The records of its authority section, if they were kept.
    pub authorities: Option<Vec<Record>>,
    /// Its response code: NXDomain where the name doesn't exist, NoError where only the type doesn't.
    pub response_code: ResponseCode,
}

/// An error of the exchange with another server, or of the data themselves.
#[derive(Debug, Drop, Error)]
pub enum NetError {
    /// An error that is told in words.
    #[error("{0}")]
    Message(&'static str),
    /// Names or data were refused.
    #[error("{0}")]
    Proto(ProtoError),
    /// The response was negative.
    #[error("no records found")]
    NoRecordsFound(NoRecords),
}

impl NetError {
    /// Whether this is a negative response that says that the name doesn't exist.
    pub fn is_nx_domain(&self) -> bool
        ensures { result ≡ is_nx_domain_net self.now }
    {
        match self {
            NetError::NoRecordsFound(found) => found.response_code == ResponseCode::NXDomain,
            _ => false,
        }
    }

    /// Whether this is a negative response.
    pub fn is_no_records_found(&self) -> bool
        ensures { IsTrue result ↔ IsSome (no_records_of_net self.now) }
    {
        matches!(self, NetError::NoRecordsFound(_))
    }
}

impl From<&'static str> for NetError {
    ghost use Rattle.std.specs.Prelude.{◌≡◌};
    ghost use Rattle.lookup_types.specs.declared.net_error.NetError.TheVariants.{Message};

    ghost from_gives = { λ text e. e ≡ Message text };

    /// The case `Message`, with this text.
    fn from(text: &'static str) -> NetError {
        NetError::Message(text)
    }
}

impl From<ProtoError> for NetError {
    ghost use Rattle.std.specs.Prelude.{◌≡◌};
    ghost use Rattle.lookup_types.specs.declared.net_error.NetError.TheVariants.{Proto};

    ghost from_gives = { λ refusal e. e ≡ Proto refusal };

    /// The case `Proto`.
    fn from(refusal: ProtoError) -> NetError {
        NetError::Proto(refusal)
    }
}
