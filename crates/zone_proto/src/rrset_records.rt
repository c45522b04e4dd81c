//! The records of a set, and behind them its signatures.
ghost use Rattle.std.specs.Prelude.{◌≡◌, ◌++◌};
ghost use Rattle.std.specs.Iterator.{YieldsFirstRef, item_count};

use crate::record::Record;
use std::marker::Model;

/// The records of a set, lent one by one; doesn't allocate.
#[derive(Debug, Drop)]
pub struct RrsetRecords<'r> {
    records: &'r [Record],
    rrsigs: &'r [Record],
}

impl<'r> RrsetRecords<'r> {
    /// The records, and then the signatures.
    pub(crate) fn new(records: &'r [Record], rrsigs: &'r [Record]) -> RrsetRecords<'r>
        ensures { result ≡ records.now ++ rrsigs.now }
    {
        RrsetRecords { records, rrsigs }
    }
}

impl<'r> Model for RrsetRecords<'r> {
    ghost use Rattle.std.specs.Prelude.{List, ◌++◌};
    ghost use Rattle.zone_proto.specs.declared.record.Record.{Record};

    ghost Value = { List Record };

    ghost view = { λ s. s.records.now ++ s.rrsigs.now };
}

impl<'r> Iterator for RrsetRecords<'r> {
    type Item = &'r Record;

    ghost next_gives = { YieldsFirstRef (λ s. s) };

    ghost remaining = { item_count (λ s. s) };

    fn next(&mut self) -> Option<&'r Record> {
        if let Some((first, rest)) = self.records.split_first() {
            self.records = rest;
            return Some(first);
        }
        let (first, rest) = self.rrsigs.split_first()?;
        self.rrsigs = rest;
        Some(first)
    }
}
