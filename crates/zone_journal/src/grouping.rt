//! Records as the sets that they are sent of.
ghost use Rattle.std.specs.Prelude.{◌≡◌, ◌==◌, ◌&&◌, ◌++◌, ◌∷◌, [], not, option_map, IfOk, Some};
ghost use Rattle.zone_proto.specs.Data.{type_of};
ghost use Rattle.zone_proto.specs.Sets.{inserted};
ghost use Rattle.zone_journal.specs.Grouping.{all_sets, begun, behind, continues, sets_in, with_record};
ghost use Rattle.zone_journal.specs.Standing.{grouped_of};

use std::alloc::{AllocError, Global};
use zone_proto::{ProtoError, Record, RecordSet, RecordType};

/// The sets of which records are read so far.
#[derive(Drop)]
struct Groups {
    /// Those before the last one.
    done: Vec<RecordSet>,
    /// The one that the last record belongs to.
    current: Option<RecordSet>,
}

/// The sets of records; none where a signature comes first, or a record of a set comes twice or behind its signatures.
pub(crate) fn sets_in(
    alloc: Global,
    records: Vec<Record>,
) -> Result<Option<Vec<RecordSet>>, ProtoError>
    ensures { IfOk result (λ sets. option_map (λ v. v.items) sets ≡ sets_in records.items) }
{
    let mut groups = Groups {
        done: Vec::new(alloc),
        current: None,
    };
    for next in records {
        match groups.with_record(next)? {
            None => return Ok(None),
            Some(more) => groups = more,
        }
    }
    Ok(Some(groups.all_sets()?))
}

impl Groups {
    /// The same with one more record, if it may stand there.
    fn with_record(self, next: Record) -> Result<Option<Groups>, ProtoError>
        ensures { IfOk result (λ groups. option_map grouped_of groups
            ≡ with_record (grouped_of self) next) }
    {
        let Groups { done, current } = self;
        match current {
            Some(set) => behind(done, set, next),
            None => {
                if next.record_type() == RecordType::RRSIG {
                    return Ok(None);
                }
                Ok(Some(Groups {
                    done,
                    current: Some(begun(next)?),
                }))
            }
        }
    }

    /// All sets.
    fn all_sets(self) -> Result<Vec<RecordSet>, AllocError>
        ensures { IfOk result (λ sets. sets.items ≡ all_sets (grouped_of self)) }
    {
        let Groups { mut done, current } = self;
        if let Some(set) = current {
            done.push(set)?;
        }
        Ok(done)
    }
}

/// One more record behind those of a set.
#[tactic(auto, using(crate::proofs::Reading::signed_refused, crate::proofs::Reading::unsigned))]
fn behind(
    mut done: Vec<RecordSet>,
    mut set: RecordSet,
    next: Record,
) -> Result<Option<Groups>, ProtoError>
    ensures { IfOk result (λ groups. option_map grouped_of groups ≡ behind done.items set next) }
{
    if next.record_type() == RecordType::RRSIG {
        set.insert_rrsig(next)?;
    } else if continues(&set, &next) {
        if !set.rrsigs().is_empty() {
            return Ok(None);
        }
        if !set.insert(next, 0)? {
            return Ok(None);
        }
    } else {
        done.push(set)?;
        set = begun(next)?;
    }
    Ok(Some(Groups {
        done,
        current: Some(set),
    }))
}

/// Whether a record is of the owner and the type of a set; an SOA always begins another one.
fn continues(set: &RecordSet, next: &Record) -> bool
    ensures { result ≡ continues set.now next.now }
{
    next.record_type() != RecordType::SOA
        && next.name == *set.name()
        && next.record_type() == set.record_type()
}

/// The set that a record begins.
fn begun(first: Record) -> Result<RecordSet, ProtoError>
    ensures { IfOk result (λ set. set ≡ begun first) }
{
    let mut set = RecordSet::new(first.name.clone()?, first.record_type(), 0);
    set.insert(first, 0)?;
    Ok(set)
}
