//! The records of a transfer in the order in which they are sent.
ghost use Rattle.std.specs.Prelude.{◌≡◌, ◌++◌};
ghost use Rattle.std.specs.Iterator.{YieldsFirstRef, item_count};
ghost use Rattle.zone_handler.specs.Answers.{left_in};

use crate::axfr_records_iter::AxfrRecordsIter;
use crate::lookup_records_iter::LookupRecordsIter;
use std::marker::Model;
use zone_proto::Record;

/// Lends the records of a transfer, and doesn't allocate.
#[derive(Drop)]
pub struct ZoneTransferIter<'r> {
    start: LookupRecordsIter<'r>,
    records: AxfrRecordsIter<'r>,
    end: LookupRecordsIter<'r>,
}

impl<'r> Model for ZoneTransferIter<'r> {
    ghost use Rattle.std.specs.Prelude.{List, ◌++◌};
    ghost use Rattle.zone_proto.specs.declared.record.Record.{Record};
    ghost use Rattle.zone_handler.specs.Answers.{left_in};

    ghost Value = { List Record };

    ghost view = { λ it. left_in it.start ++ it.records ++ left_in it.end };
}

impl<'r> ZoneTransferIter<'r> {
    /// What these have left, one after the other.
    pub(crate) fn new(
        start: LookupRecordsIter<'r>,
        records: AxfrRecordsIter<'r>,
        end: LookupRecordsIter<'r>,
    ) -> ZoneTransferIter<'r>
        ensures { result ≡ left_in start.entry ++ records.entry ++ left_in end.entry }
    {
        ZoneTransferIter {
            start,
            records,
            end,
        }
    }
}

impl<'r> Iterator for ZoneTransferIter<'r> {
    type Item = &'r Record;

    ghost next_gives = { YieldsFirstRef (λ it. it) };

    ghost remaining = { item_count (λ it. it) };

    fn next(&mut self) -> Option<&'r Record> {
        if let Some(record) = self.start.next() {
            return Some(record);
        }
        if let Some(record) = self.records.next() {
            return Some(record);
        }
        self.end.next()
    }
}
