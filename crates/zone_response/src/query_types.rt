//! Types that are treated apart.
ghost use Rattle.std.specs.Prelude.{◌≡◌, ◌==◌, ◌||◌};
ghost use Rattle.zone_proto.specs.Types.{RRSIG, ANY};
ghost use Rattle.zone_response.specs.QueryTypes.{is_no_data};

use zone_proto::RecordType;

/// Whether no record of a zone has a type, ANY aside.
pub fn is_no_data(record_type: RecordType) -> bool
    ensures { result ≡ is_no_data record_type.0 }
{
    let RecordType(number) = record_type;
    number == 0 || number == 41 || (128 <= number && number <= 254)
}

/// Whether a query of a type is answered by one set that is chosen (RFC 8482 section 4.1), or by its signatures.
pub(crate) fn asks_any(record_type: RecordType) -> bool
    ensures { result ≡ ((record_type.0 == ANY) || (record_type.0 == RRSIG)) }
{
    record_type == RecordType::ANY || record_type == RecordType::RRSIG
}
