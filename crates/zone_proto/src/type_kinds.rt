//! What the sets of some types have in common.
ghost use Rattle.std.specs.Prelude.{◌≡◌};
ghost use Rattle.zone_proto.specs.Sets.{is_single};
ghost use Rattle.zone_proto.specs.Types.{is_derived};

use crate::record_type::RecordType;

/// Whether a set of the type has at most one record: SOA (RFC 1035 section 6.1), CNAME (RFC 1034 section 3.6.2) and ANAME.
pub fn is_single(record_type: RecordType) -> bool
    ensures { result ≡ is_single record_type.0 }
{
    matches!(
        record_type,
        RecordType::SOA | RecordType::CNAME | RecordType::ANAME
    )
}

/// Whether sets of the type are made from the others of a zone where it is signed: signatures, denials and their parameters (RFC 4034
/// sections 3 and 4, RFC 5155 sections 3 and 4).
pub fn is_derived(record_type: RecordType) -> bool
    ensures { result ≡ is_derived record_type.0 }
{
    matches!(
        record_type,
        RecordType::RRSIG | RecordType::NSEC | RecordType::NSEC3 | RecordType::NSEC3PARAM
    )
}
