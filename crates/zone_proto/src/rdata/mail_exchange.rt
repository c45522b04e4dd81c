//! MX (RFC 1035 section 3.3.9).
ghost use Rattle.zone_proto.specs.Results.{IsCopy};

use crate::error::ProtoError;
use crate::name::Name;

/// The data of an MX record: a mail exchange of the owner (RFC 1035 section 3.3.9).
///
/// Equal by all parts, names ignoring case.
#[derive(PartialEq, Eq, PartialOrd, Ord, Debug, Drop)]
pub struct MX {
    /// The lower value is preferred.
    pub preference: u16,
    /// The host that takes the mail.
    pub exchange: Name,
}

impl MX {
    /// A copy of these data, identical in all parts, even in the case of letters in names. Its only error is `Memory`.
    pub fn clone(&self) -> Result<MX, ProtoError>
        ensures { IsCopy result self.now }
    {
        Ok(MX {
            preference: self.preference,
            exchange: self.exchange.clone()?,
        })
    }
}
