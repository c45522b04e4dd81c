//! Who may have a zone, as octets tell it.
ghost use Rattle.std.specs.Prelude.{IfErr, IfOk};
ghost use Rattle.transfer_calls.specs.Accesses.{IsGrant, IsKeyName, IsName, IsUnread, IsUnreadGrant, IsUnreadKey};

use crate::outcome::TransferOutcome;
use held_transfers::Grant;
use std::alloc::Global;
use zone_database::origin_of;
use zone_proto::LowerName;

/// The grant of the zone of an origin to those who have the key of a name, or to anybody, where the name has no octets.
pub(crate) fn grant_of(alloc: Global, origin: &[u8], key: &[u8]) -> Result<Grant, TransferOutcome>
    ensures grant { IfOk result (IsGrant origin.now key.now) }
    ensures refusal { IfErr result (IsUnreadGrant origin.now key.now) }
{
    let origin = match name_of(alloc, origin) {
        Ok(origin) => origin,
        Err(outcome) => return Err(outcome),
    };
    match key_name_of(alloc, key) {
        Ok(key) => Ok(Grant { origin, key }),
        Err(outcome) => Err(outcome),
    }
}

/// The name of a key that octets are; none where there are none.
fn key_name_of(alloc: Global, octets: &[u8]) -> Result<Option<LowerName>, TransferOutcome>
    ensures name { IfOk result (IsKeyName octets.now) }
    ensures refusal { IfErr result (IsUnreadKey octets.now) }
{
    if octets.is_empty() {
        return Ok(None);
    }
    match name_of(alloc, octets) {
        Ok(name) => Ok(Some(name)),
        Err(outcome) => Err(outcome),
    }
}

/// The name that octets are (RFC 1035 section 5.1), in lower case; a final dot may be left out.
pub(crate) fn name_of(alloc: Global, octets: &[u8]) -> Result<LowerName, TransferOutcome>
    ensures name { IfOk result (IsName octets.now) }
    ensures refusal { IfErr result (IsUnread octets.now) }
{
    match origin_of(alloc, octets) {
        Ok(name) => Ok(LowerName::from(name)),
        Err(outcome) => Err(TransferOutcome::Usual(outcome)),
    }
}
