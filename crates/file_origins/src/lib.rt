//! The origin of a zone file that doesn't have to be named: the root before the file is read, and the owner of its first SOA
//! afterwards.
#![tactic(auto)]

ghost use Rattle.std.specs.Prelude.{◌≡◌, [], IfOk, IsOkUnless, option_copied, unwrap_or};
ghost use Rattle.std.specs.List.{find};
ghost use Rattle.file_origins.specs.Origins.{is_soa, origin_of};

use std::alloc::Global;
use zone_file::PlacedRecord;
use zone_proto::{Name, ProtoError, RecordType};

/// The origin at the beginning of a file, which completes its relative names (RFC 1035 section 5.1): the one that is named, or
/// the root. Its only error is `Memory`.
pub fn first_origin(alloc: Global, named: &Option<Name>) -> Result<Name, ProtoError>
    ensures ok { IfOk result (λ origin. origin ≡ unwrap_or named.now []) }
    ensures err { IsOkUnless result ProtoError.Memory }
{
    match named {
        Some(origin) => origin.clone(),
        None => Ok(Name::root(alloc)),
    }
}

/// The origin of the zone that has the records of a file: the one that is named, or else the owner of the first SOA, or the
/// root where there is none. Its only error is `Memory`.
pub fn zone_origin(
    alloc: Global,
    named: &Option<Name>,
    records: &[PlacedRecord],
) -> Result<Name, ProtoError>
    ensures ok { IfOk result (λ origin. origin ≡ origin_of named.now records.now) }
    ensures err { IsOkUnless result ProtoError.Memory }
{
    if let Some(origin) = named {
        return origin.clone();
    }
    match first_soa(records) {
        Some(placed) => placed.given.name.clone(),
        None => Ok(Name::root(alloc)),
    }
}

/// The first SOA among records.
fn first_soa(records: &[PlacedRecord]) -> Option<&PlacedRecord>
    ensures { option_copied result ≡ find is_soa records.now }
{
    records
        .iter()
        .find(|placed| placed.given.record_type() == RecordType::SOA)
}
