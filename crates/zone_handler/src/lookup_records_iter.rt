//! The records of one section, one after the other.
ghost use Rattle.std.specs.Prelude.{◌≡◌, []};
ghost use Rattle.std.specs.Iterator.{YieldsFirstRef, item_count};
ghost use Rattle.zone_handler.specs.Answers.{left_in};

use crate::sets_iter::SetsIter;
use std::slice;
use zone_proto::{Record, RrsetRecords};

/// Lends the records of one section of an answer, and doesn't allocate. The default is empty.
#[derive(Drop)]
pub enum LookupRecordsIter<'r> {
    /// No records.
    Empty,
    /// The records of one set.
    RecordsIter(RrsetRecords<'r>),
    /// The records of several sets.
    ManyRecordsIter(SetsIter<'r>),
    /// Records as they are.
    SliceIter(slice::Iter<'r, Record>),
}

impl Default for LookupRecordsIter<'_> {
    ghost use Rattle.std.specs.Prelude.{◌≡◌};
    ghost use Rattle.zone_handler.specs.declared.lookup_records_iter.LookupRecordsIter.TheVariants.{Empty};

    ghost is_default = { λ it. it ≡ Empty };

    fn default() -> Self {
        LookupRecordsIter::Empty
    }
}

impl<'r> Iterator for LookupRecordsIter<'r> {
    type Item = &'r Record;

    ghost next_gives = { YieldsFirstRef left_in };

    ghost remaining = { item_count left_in };

    fn next(&mut self) -> Option<&'r Record> {
        match self {
            LookupRecordsIter::Empty => None,
            LookupRecordsIter::RecordsIter(records) => records.next(),
            LookupRecordsIter::ManyRecordsIter(records) => records.next(),
            LookupRecordsIter::SliceIter(records) => records.next(),
        }
    }
}
