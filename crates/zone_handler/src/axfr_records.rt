//! The records of a zone that is transferred.
ghost use Rattle.std.specs.Prelude.{◌≡◌};
ghost use Rattle.zone_handler.specs.Sets.{without_soa, axfr_records};

use crate::axfr_records_iter::AxfrRecordsIter;
use crate::lookup_records::LookupRecords;
use lookup_types::LookupOptions;
use std::marker::Model;
use zone_proto::{Record, RecordSet};

/// What a transfer of a zone (AXFR, RFC 5936) has between its two SOA records.
#[derive(Debug, Drop)]
pub struct AxfrRecords {
    // All records of the sets; those of type SOA are left out where they are lent.
    records: LookupRecords,
}

impl Model for AxfrRecords {
    ghost use Rattle.std.specs.Prelude.{List};
    ghost use Rattle.zone_proto.specs.declared.record.Record.{Record};
    ghost use Rattle.zone_handler.specs.Answers.{records_in};
    ghost use Rattle.zone_handler.specs.Sets.{without_soa};

    ghost Value = { List Record };

    ghost view = { λ s. without_soa (records_in s.records) };
}

impl AxfrRecords {
    /// The records of `sets` in their order, each set's with its signatures (RRSIG records) after them if `dnssec_ok`,
    /// but none of type SOA. The type of a record decides, so the signatures of an SOA set stay. Doesn't allocate.
    pub fn new(dnssec_ok: bool, sets: Vec<RecordSet>) -> AxfrRecords
        ensures { result ≡ axfr_records dnssec_ok sets.items }
    {
        AxfrRecords {
            records: LookupRecords::many(LookupOptions { dnssec_ok }, sets),
        }
    }

    /// These records in their order, but none of type SOA (RFC 5936 section 2.2). Doesn't allocate.
    pub fn of_records(records: Vec<Record>) -> AxfrRecords
        ensures { result ≡ without_soa records.items }
    {
        AxfrRecords {
            records: LookupRecords::Section(records),
        }
    }
}

impl<'r> IntoIterator for &'r AxfrRecords {
    type Item = &'r Record;

    type IntoIter = AxfrRecordsIter<'r>;

    ghost into_iter_gives = { λ s it. it ≡ s.now };

    /// Lends the records in order. Doesn't allocate.
    fn into_iter(self) -> AxfrRecordsIter<'r> {
        AxfrRecordsIter::new(self.records.iter())
    }
}
