//! Data of types that have no case of their own (RFC 3597).
ghost use Rattle.std.specs.Prelude.{◌≡◌, false, true, IsNone, IfSome, ◌↔◌};
ghost use Rattle.zone_proto.specs.Types.{has_own_case};
ghost use Rattle.zone_proto.specs.Results.{IsCopy};

use crate::error::ProtoError;
use crate::record_type::RecordType;
use crate::seq::Seq;

/// The data of a type without a case of its own in `RData`: the type and the data's octets as they are (RFC 3597 section 3).
///
/// Equal by type and octets.
#[derive(PartialEq, Eq, PartialOrd, Ord, Debug, Drop)]
pub struct OtherData {
    record_type: RecordType,
    octets: Seq<u8>,
    pub ghost other: { has_own_case record_type.0 ≡ false },
}

impl OtherData {
    /// Data of a type and these octets; none for a type that has its own case in `RData`. Doesn't allocate.
    pub fn new(record_type: RecordType, octets: Vec<u8>) -> Option<OtherData>
        ensures none { IsNone result ↔ has_own_case record_type.0 ≡ true }
        ensures some { IfSome result (λ d. d.record_type ≡ record_type) }
        ensures octets { IfSome result (λ d. d.octets ≡ octets.items) }
    {
        if record_type.has_own_case() {
            return None;
        }
        Some(OtherData {
            record_type,
            octets: Seq::from_vec(octets),
        })
    }

    /// The type of the data.
    pub fn record_type(&self) -> RecordType
        ensures { result ≡ self.now.record_type }
    {
        self.record_type
    }

    /// The octets of the data.
    pub fn octets(&self) -> &[u8]
        ensures { result.now ≡ self.now.octets }
    {
        self.octets.as_slice()
    }

    /// A copy of these data, type and octets alike. Its only error is `Memory`.
    pub fn clone(&self) -> Result<OtherData, ProtoError>
        ensures { IsCopy result self.now }
    {
        Ok(OtherData {
            record_type: self.record_type,
            octets: self.octets.clone()?,
        })
    }
}
