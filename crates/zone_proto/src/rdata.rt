//! The data of records.
ghost use Rattle.std.specs.Prelude.{◌≡◌};
ghost use Rattle.zone_proto.specs.Results.{IsCopy};

mod denial;
mod equality;
mod mail_exchange;
mod other;
mod service;
mod signing;
mod start_of_authority;

use crate::error::ProtoError;
use crate::name::Name;
use crate::record_type::RecordType;
pub use denial::{NSEC, NSEC3, NSEC3PARAM};
pub use mail_exchange::MX;
pub use other::OtherData;
pub use service::SRV;
pub use signing::{DNSKEY, RRSIG};
pub use start_of_authority::SOA;

/// The data of a record, by type.
///
/// Equal by all parts, names ignoring case.
#[derive(PartialOrd, Ord, Debug, Drop)]
pub enum RData {
    /// An address of four octets (RFC 1035 section 3.4.1).
    A([u8; 4]),
    /// An address of sixteen octets (RFC 3596 section 2.2).
    AAAA([u8; 16]),
    /// A server of the zone that begins at the owner (RFC 1035 section 3.3.11).
    NS(Name),
    /// The name that the owner is an alias of (RFC 1035 section 3.3.1).
    CNAME(Name),
    /// The name whose addresses the owner takes as its own. No standard has this type.
    ANAME(Name),
    /// The start of a zone of authority (RFC 1035 section 3.3.13).
    SOA(SOA),
    /// A mail exchange (RFC 1035 section 3.3.9).
    MX(MX),
    /// A server of a service (RFC 2782).
    SRV(SRV),
    /// A public key (RFC 4034 section 2).
    DNSKEY(DNSKEY),
    /// A denial by names (RFC 4034 section 4).
    NSEC(NSEC),
    /// A denial by hashed names (RFC 5155 section 3).
    NSEC3(NSEC3),
    /// The parameters of the hashes (RFC 5155 section 4).
    NSEC3PARAM(NSEC3PARAM),
    /// A signature (RFC 4034 section 3).
    RRSIG(RRSIG),
    /// Any other type and its octets (RFC 3597 section 3).
    Other(OtherData),
}

impl RData {
    ghost use Rattle.zone_proto.specs.Data.{type_of};

    /// The type of the data.
    pub fn record_type(&self) -> RecordType
        ensures { result.0 ≡ type_of self.now }
    {
        match self {
            RData::A(_) => RecordType::A,
            RData::AAAA(_) => RecordType::AAAA,
            RData::NS(_) => RecordType::NS,
            RData::CNAME(_) => RecordType::CNAME,
            RData::ANAME(_) => RecordType::ANAME,
            RData::SOA(_) => RecordType::SOA,
            RData::MX(_) => RecordType::MX,
            RData::SRV(_) => RecordType::SRV,
            RData::DNSKEY(_) => RecordType::DNSKEY,
            RData::NSEC(_) => RecordType::NSEC,
            RData::NSEC3(_) => RecordType::NSEC3,
            RData::NSEC3PARAM(_) => RecordType::NSEC3PARAM,
            RData::RRSIG(_) => RecordType::RRSIG,
            RData::Other(other) => other.record_type(),
        }
    }

    /// A copy of these data, identical in all parts, even in the case of letters in names. Its only error is `Memory`.
    pub fn clone(&self) -> Result<RData, ProtoError>
        ensures { IsCopy result self.now }
    {
        match self {
            RData::A(octets) => Ok(RData::A(*octets)),
            RData::AAAA(octets) => Ok(RData::AAAA(*octets)),
            RData::NS(name) => Ok(RData::NS(name.clone()?)),
            RData::CNAME(name) => Ok(RData::CNAME(name.clone()?)),
            RData::ANAME(name) => Ok(RData::ANAME(name.clone()?)),
            RData::SOA(soa) => Ok(RData::SOA(soa.clone()?)),
            RData::MX(mx) => Ok(RData::MX(mx.clone()?)),
            RData::SRV(srv) => Ok(RData::SRV(srv.clone()?)),
            RData::DNSKEY(key) => Ok(RData::DNSKEY(key.clone()?)),
            RData::NSEC(nsec) => Ok(RData::NSEC(nsec.clone()?)),
            RData::NSEC3(nsec3) => Ok(RData::NSEC3(nsec3.clone()?)),
            RData::NSEC3PARAM(param) => Ok(RData::NSEC3PARAM(param.clone()?)),
            RData::RRSIG(rrsig) => Ok(RData::RRSIG(rrsig.clone()?)),
            RData::Other(other) => Ok(RData::Other(other.clone()?)),
        }
    }
}
