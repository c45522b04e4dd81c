// The NSEC3 records of a zone in a response that have the same parameters.
ghost use Rattle.std.specs.Prelude.{◌≡◌};
ghost use Rattle.denial_validation.specs.Nsec3Parameters.{records_with};
ghost use Rattle.denial_validation.specs.Nsec3Responses.{lent_records};

use crate::nsec3_parameters::has_parameters;
use crate::nsec3_record::LentNsec3;
use std::marker::Model;
use zone_proto::{LowerName, NSEC3, Record};

/// Lends the NSEC3 records of a zone among some records that have these parameters, in their order.
#[derive(Drop)]
pub(crate) struct Nsec3Records<'s, 'r> {
    apex: &'s LowerName,
    records: &'s [&'r Record],
    parameters: &'s NSEC3,
    next: usize,
}

impl<'s, 'r> Model for Nsec3Records<'s, 'r> {
    ghost use Rattle.std.specs.Prelude.{List, map, drop};
    ghost use Rattle.denial_validation.specs.Nsec3Parameters.{records_with};
    ghost use Rattle.denial_validation.specs.Nsec3Records.{Nsec3Record};

    ghost Value = { List Nsec3Record };

    ghost view = { λ s. records_with s.apex.now s.parameters.now
        (map (λ r. r.now) (drop s.next s.records.now)) };
}

impl<'s, 'r> Nsec3Records<'s, 'r> {
    /// Those among these.
    pub(crate) fn among(
        apex: &'s LowerName,
        records: &'s [&'r Record],
        parameters: &'s NSEC3,
    ) -> Nsec3Records<'s, 'r>
        ensures { result ≡ records_with apex.now parameters.now (lent_records records.now) }
    {
        Nsec3Records {
            apex,
            records,
            parameters,
            next: 0,
        }
    }
}

impl<'s, 'r> Iterator for Nsec3Records<'s, 'r> {
    type Item = LentNsec3<'r>;

    ghost use Rattle.std.specs.Iterator.{YieldsFirstBy, item_count};

    ghost next_gives = { YieldsFirstBy (λ x. x) (λ s. s) };

    ghost remaining = { item_count (λ s. s) };

    fn next(&mut self) -> Option<LentNsec3<'r>> {
        while self.next < self.records.len() {
            let lent = self.records[self.next];
            self.next += 1;
            if has_parameters(self.apex, self.parameters, lent) {
                if let Some(nsec3) = LentNsec3::read(lent) {
                    return Some(nsec3);
                }
            }
        }
        None
    }
}
