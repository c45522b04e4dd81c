//! SRV (RFC 2782).
ghost use Rattle.zone_proto.specs.Results.{IsCopy};

use crate::error::ProtoError;
use crate::name::Name;

/// The data of an SRV record: where a service is found (RFC 2782).
///
/// Equal by all parts, names ignoring case.
#[derive(PartialEq, Eq, PartialOrd, Ord, Debug, Drop)]
pub struct SRV {
    /// The lower value is tried first.
    pub priority: u16,
    /// The share among those of one priority.
    pub weight: u16,
    /// The port of the service.
    pub port: u16,
    /// The host that offers the service.
    pub target: Name,
}

impl SRV {
    /// A copy of these data, identical in all parts, even in the case of letters in names. Its only error is `Memory`.
    pub fn clone(&self) -> Result<SRV, ProtoError>
        ensures { IsCopy result self.now }
    {
        Ok(SRV {
            priority: self.priority,
            weight: self.weight,
            port: self.port,
            target: self.target.clone()?,
        })
    }
}
