//! Copies of the sets of a zone.
ghost use Rattle.std.specs.Prelude.{◌≡◌, ◌&&◌, not, IfOk, IsOkUnless};
ghost use Rattle.zone_planner.specs.Zones.{is_made_anew};
ghost use Rattle.held_plans.specs.Copies.{copied, unsigned};

use std::alloc::Global;
use zone_map::{RecordMap, put_copy};
use zone_planner::is_made_anew;
use zone_proto::{ProtoError, RecordType};

/// The sets of a zone without those that are made anew where it is signed: signatures, denials and keys. Its only error is `Memory`.
pub(crate) fn unsigned(alloc: Global, records: &RecordMap) -> Result<RecordMap, ProtoError>
    ensures ok { IfOk result (λ made. made ≡ unsigned records.now) }
    ensures err { IsOkUnless result ProtoError.Memory }
{
    copied(alloc, records, true)
}

/// The same sets once more. Its only error is `Memory`.
#[tactic(auto, using(crate::proofs::Copying::all_copied))]
pub(crate) fn copy_of(alloc: Global, records: &RecordMap) -> Result<RecordMap, ProtoError>
    ensures ok { IfOk result (λ made. made ≡ records.now) }
    ensures err { IsOkUnless result ProtoError.Memory }
{
    copied(alloc, records, false)
}

/// Copies of the sets, without those that are made anew if the zone is to be signed.
fn copied(alloc: Global, records: &RecordMap, anew: bool) -> Result<RecordMap, ProtoError>
    ensures ok { IfOk result (λ made. made ≡ copied anew records.now) }
    ensures err { IsOkUnless result ProtoError.Memory }
{
    let mut made = RecordMap::new(alloc);
    for (key, set) in records.iter() {
        if is_copied(anew, key.record_type) {
            put_copy(&mut made, key, set)?;
        }
    }
    Ok(made)
}

/// Whether sets of a type are copied.
fn is_copied(anew: bool, record_type: RecordType) -> bool
    ensures { result ≡ not (anew && is_made_anew record_type.0) }
{
    !(anew && is_made_anew(record_type))
}
