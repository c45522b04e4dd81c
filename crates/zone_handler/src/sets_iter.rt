//! The records of several sets, one set after the other.
ghost use Rattle.std.specs.Prelude.{◌≡◌, ◌↔◌, [], reverse, IsNone, IfSome};
ghost use Rattle.std.specs.Iterator.{YieldsFirstRef, item_count};
ghost use Rattle.zone_handler.specs.Sets.{sets_records};

use lookup_types::LookupOptions;
use std::marker::Model;
use zone_proto::{Record, RecordSet, RrsetRecords};

/// Lends the records of several sets, one set after the other, and doesn't allocate.
#[derive(Drop)]
pub struct SetsIter<'r> {
    options: LookupOptions,
    current: RrsetRecords<'r>,
    // The sets after the current one, from the last to the next.
    sets: &'r [RecordSet],
}

impl<'r> Model for SetsIter<'r> {
    ghost use Rattle.std.specs.Prelude.{List, ◌++◌, reverse};
    ghost use Rattle.zone_proto.specs.declared.record.Record.{Record};
    ghost use Rattle.zone_handler.specs.Sets.{sets_records};

    ghost Value = { List Record };

    ghost view = { λ it. it.current ++ sets_records it.options (reverse it.sets.now) };
}

impl<'r> SetsIter<'r> {
    /// The records of `sets`, which stand from the last to the first, with signatures if `options` ask for DNSSEC; None
    /// if there is no set.
    pub(crate) fn new(options: LookupOptions, sets: &'r [RecordSet]) -> Option<SetsIter<'r>>
        ensures none { IsNone result ↔ (sets.now ≡ []) }
        ensures records { IfSome result (λ it. it ≡ sets_records options (reverse sets.now)) }
    {
        let (last, sets) = sets.split_last()?;
        Some(SetsIter {
            options,
            current: options.rrset_with_rrigs(last),
            sets,
        })
    }
}

impl<'r> Iterator for SetsIter<'r> {
    type Item = &'r Record;

    ghost next_gives = { YieldsFirstRef (λ it. it) };

    ghost remaining = { item_count (λ it. it) };

    fn next(&mut self) -> Option<&'r Record> {
        loop {
            if let Some(record) = self.current.next() {
                return Some(record);
            }
            let (last, others) = self.sets.split_last()?;
            self.sets = others;
            self.current = self.options.rrset_with_rrigs(last);
        }
    }
}
