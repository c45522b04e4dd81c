//! Sets as they are sent, kept as the octets that go out, and put into a response.
ghost use Rattle.std.specs.Prelude.{◌≡◌, ℕ, List, map, IfOk, IfSome, IsTrue, OnOk};
ghost use Rattle.std.specs.List.{list_any};
ghost use Rattle.zone_proto.specs.Names.{Name as OfName};
ghost use Rattle.zone_proto.specs.Sets.{RRset};
ghost use Rattle.zone_proto.specs.declared.record.Record.{Record as RecordData};
ghost use Rattle.message_writing.specs.KnownNames.{IsKnown};
ghost use Rattle.message_writing.specs.Writers.{CanGoOn};
ghost use Rattle.zone_lookup.specs.FoundSets.{found_set};
ghost use Rattle.zone_response.specs.Sections.{covers, sent as as_sent, sent_set};
ghost use Rattle.zone_response.specs.declared.response.Part.TheVariants.{Records};
ghost use Rattle.zone_server.specs.Sending.{PutsSets};
ghost use Rattle.ready_referrals.specs.Referrals.{unsigned, AreSetsKept, IsKeptSet};

use message_writing::{KeptRecords, ResponseWriter, Section};
use std::alloc::{AllocError, Global};
use zone_lookup::Found;
use zone_proto::{LowerName, ProtoError};
use zone_response::{Part, Sent};
use zone_server::keep_set;

/// Keeps sets as they are sent, below a name. None if no octets are the data of a record. Its only error is `Memory`.
pub(crate) fn keep_sets(
    alloc: Global,
    cut: &LowerName,
    sets: &[Sent<'_>],
) -> Result<Option<Vec<KeptRecords>>, ProtoError>
    ensures { IfOk result (λ kept. IfSome kept
        (λ v. AreSetsKept cut.now (map sent_set sets.now) v.items)) }
{
    let mut kept = Vec::with_capacity(alloc, sets.len())?;
    for set in sets {
        let Some(records) = keep_set(alloc, cut, set)? else {
            return Ok(None);
        };
        kept.push(records)?;
    }
    Ok(Some(kept))
}

/// Keeps sets without their signatures, below a name. None if no octets are the data of a record, or of a set the signatures alone are sent. Its only
/// error is `Memory`.
pub(crate) fn keep_unsigned(
    alloc: Global,
    cut: &LowerName,
    sets: &[Sent<'_>],
) -> Result<Option<Vec<KeptRecords>>, ProtoError>
    ensures { IfOk result (λ kept. IfSome kept
        (λ v. AreSetsKept cut.now (map unsigned (map sent_set sets.now)) v.items)) }
{
    let mut kept = Vec::with_capacity(alloc, sets.len())?;
    for set in sets {
        let Some(records) = keep_without_signatures(alloc, cut, set)? else {
            return Ok(None);
        };
        kept.push(records)?;
    }
    Ok(Some(kept))
}

/// Keeps a set without its signatures.
fn keep_without_signatures(
    alloc: Global,
    cut: &LowerName,
    sent: &Sent<'_>,
) -> Result<Option<KeptRecords>, ProtoError>
    ensures { IfOk result (λ kept. IfSome kept
        (IsKeptSet cut.now (unsigned (sent_set sent.now)))) }
{
    match sent.part {
        Part::Records => keep_records_alone(alloc, cut, sent),
        Part::Signed => keep_records_alone(alloc, cut, sent),
        Part::Signatures => Ok(None),
    }
}

/// Keeps the records of a set.
fn keep_records_alone(
    alloc: Global,
    cut: &LowerName,
    sent: &Sent<'_>,
) -> Result<Option<KeptRecords>, ProtoError>
    ensures { IfOk result (λ kept. IfSome kept
        (IsKeptSet cut.now (as_sent Records sent.now.ttl (found_set sent.now.set)))) }
{
    let alone = Sent {
        set: Found::Stored(sent.set.set()),
        ttl: sent.ttl,
        part: Part::Records,
    };
    keep_set(alloc, cut, &alone)
}

/// Whether sets are sent without signatures.
pub(crate) fn are_unsigned(sets: &[Sent<'_>]) -> bool
    ensures { IsTrue result
        → map unsigned (map sent_set sets.now) ≡ map sent_set sets.now }
{
    for set in sets {
        if !is_unsigned(set) {
            return false;
        }
    }
    true
}

/// Whether a set is sent without signatures.
fn is_unsigned(sent: &Sent<'_>) -> bool
    ensures { IsTrue result → unsigned (sent_set sent.now) ≡ sent_set sent.now }
{
    sent.part == Part::Records || !has_signature(sent)
}

/// Whether a set has a signature that covers its type.
fn has_signature(sent: &Sent<'_>) -> bool
    ensures { result
        ≡ list_any (λ (r : RecordData). covers (found_set sent.now.set).record_type r.rdata)
        (found_set sent.now.set).signatures }
{
    for rrsig in sent.set.set().rrsigs() {
        if sent.covers(rrsig) {
            return true;
        }
    }
    false
}

/// Appends kept sets to a section, with pointers to the place of the name below which they are kept. Fails only for lack of memory.
pub(crate) fn put_kept_sets(
    writer: &mut ResponseWriter<'_>,
    out: &mut Vec<u8>,
    section: Section,
    place: u16,
    kept: &[KeptRecords],
) -> Result<(), AllocError>
    requires kept { (cut : OfName) × (ss : List RRset) × IsKnown out.old.items place cut
        × AreSetsKept cut ss kept.now }
    requires going { CanGoOn writer.old out.old.items }
    ensures put { OnOk result ((cut : OfName) (ss : List RRset) → IsKnown out.old.items place cut
        → AreSetsKept cut ss kept.now
        → PutsSets section ss writer.old out.old.items writer.new out.new.items) }
    ensures going { OnOk result (CanGoOn writer.new out.new.items) }
    ensures known { OnOk result ((p : ℕ) (n : OfName) → IsKnown out.old.items p n
        → IsKnown out.new.items p n) }
{
    for records in kept {
        writer.put_kept(out, section, records, place)?;
    }
    Ok(())
}
