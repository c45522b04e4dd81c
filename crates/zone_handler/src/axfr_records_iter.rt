//! The records of a transfer between its two SOA records, one after the other.
ghost use Rattle.std.specs.Prelude.{◌≡◌};
ghost use Rattle.std.specs.Iterator.{YieldsFirstRef, item_count};
ghost use Rattle.zone_handler.specs.Answers.{left_in};
ghost use Rattle.zone_handler.specs.Sets.{without_soa};

use crate::lookup_records_iter::LookupRecordsIter;
use std::marker::Model;
use zone_proto::{Record, RecordType};

/// Lends the records of sets without those of type SOA, and doesn't allocate.
#[derive(Drop)]
pub struct AxfrRecordsIter<'r> {
    records: LookupRecordsIter<'r>,
}

impl<'r> Model for AxfrRecordsIter<'r> {
    ghost use Rattle.std.specs.Prelude.{List};
    ghost use Rattle.zone_proto.specs.declared.record.Record.{Record};
    ghost use Rattle.zone_handler.specs.Answers.{left_in};
    ghost use Rattle.zone_handler.specs.Sets.{without_soa};

    ghost Value = { List Record };

    ghost view = { λ it. without_soa (left_in it.records) };
}

impl<'r> AxfrRecordsIter<'r> {
    /// What `records` has left, without those of type SOA.
    pub(crate) fn new(records: LookupRecordsIter<'r>) -> AxfrRecordsIter<'r>
        ensures { result ≡ without_soa (left_in records.entry) }
    {
        AxfrRecordsIter { records }
    }
}

impl<'r> Iterator for AxfrRecordsIter<'r> {
    type Item = &'r Record;

    ghost next_gives = { YieldsFirstRef (λ it. it) };

    ghost remaining = { item_count (λ it. it) };

    fn next(&mut self) -> Option<&'r Record> {
        while let Some(record) = self.records.next() {
            if record.record_type() != RecordType::SOA {
                return Some(record);
            }
        }
        None
    }
}
