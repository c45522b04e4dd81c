// The NSEC records of a response.
ghost use Rattle.std.specs.Prelude.{◌≡◌};
ghost use Rattle.denial_validation.specs.NsecRecords.{lent_nsec};

use crate::nsec_record::LentNsec;
use std::marker::Model;
use zone_proto::Record;

/// Lends the NSEC records among some records, in their order.
#[derive(Drop)]
pub(crate) struct NsecRecords<'s, 'r> {
    records: &'s [&'r Record],
    next: usize,
}

impl<'s, 'r> Model for NsecRecords<'s, 'r> {
    ghost use Rattle.std.specs.Prelude.{List, map, drop};
    ghost use Rattle.denial_validation.specs.NsecRecords.{NsecRecord, nsec_records};

    ghost Value = { List NsecRecord };

    ghost view = { λ s. nsec_records (map (λ r. r.now) (drop s.next s.records.now)) };
}

impl<'s, 'r> NsecRecords<'s, 'r> {
    /// Those among these.
    pub(crate) fn among(records: &'s [&'r Record]) -> NsecRecords<'s, 'r>
        ensures { result ≡ lent_nsec records.now }
    {
        NsecRecords { records, next: 0 }
    }
}

impl<'s, 'r> Iterator for NsecRecords<'s, 'r> {
    type Item = LentNsec<'r>;

    ghost use Rattle.std.specs.Iterator.{YieldsFirstBy, item_count};

    ghost next_gives = { YieldsFirstBy (λ x. x) (λ s. s) };

    ghost remaining = { item_count (λ s. s) };

    fn next(&mut self) -> Option<LentNsec<'r>> {
        while self.next < self.records.len() {
            let lent = self.records[self.next];
            self.next += 1;
            if let Some(nsec) = LentNsec::read(lent) {
                return Some(nsec);
            }
        }
        None
    }
}
