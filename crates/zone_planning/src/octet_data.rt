//! Data of types without a case of their own.
ghost use Rattle.std.specs.Prelude.{◌≡◌, false};
ghost use Rattle.zone_proto.specs.Types.{has_own_case};

use zone_proto::{OtherData, RData, RecordType};

/// The data of a type for which [`RData`] has no case of its own: these octets.
pub fn other_data(record_type: RecordType, octets: Vec<u8>) -> RData
    requires { has_own_case record_type.0 ≡ false }
    ensures { (other : has_own_case record_type.0 ≡ false)
        → result
        ≡ RData.Other (record { record_type = record_type; octets = octets.items; other = other }) }
{
    let Some(other) = OtherData::new(record_type, octets) else {
        unreachable!();
    };
    RData::Other(other)
}
