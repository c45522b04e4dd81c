//! SOA (RFC 1035 section 3.3.13).
ghost use Rattle.zone_proto.specs.Results.{IsCopy};

use crate::error::ProtoError;
use crate::name::Name;

/// The data of an SOA record: the start of a zone of authority (RFC 1035 section 3.3.13).
///
/// Equal by all parts, names ignoring case.
#[derive(PartialEq, Eq, PartialOrd, Ord, Debug, Drop)]
pub struct SOA {
    /// The server that is the zone's original source.
    pub mname: Name,
    /// The mailbox of the person responsible, as a name.
    pub rname: Name,
    /// The version of the zone.
    pub serial: u32,
    /// Seconds before the zone is to be refreshed.
    pub refresh: i32,
    /// Seconds before a failed refresh is to be tried again.
    pub retry: i32,
    /// Seconds after which the zone is no longer authoritative.
    pub expire: i32,
    /// The TTL of negative answers, in seconds (RFC 2308 section 4).
    pub minimum: u32,
}

impl SOA {
    /// A copy of these data, identical in all parts, even in the case of letters in names. Its only error is `Memory`.
    pub fn clone(&self) -> Result<SOA, ProtoError>
        ensures { IsCopy result self.now }
    {
        Ok(SOA {
            mname: self.mname.clone()?,
            rname: self.rname.clone()?,
            serial: self.serial,
            refresh: self.refresh,
            retry: self.retry,
            expire: self.expire,
            minimum: self.minimum,
        })
    }
}
