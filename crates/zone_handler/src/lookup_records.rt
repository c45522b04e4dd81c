//! The record sets of one section of an answer.
ghost use Rattle.std.specs.Prelude.{◌≡◌, ◌↔◌, [], IsTrue};
ghost use Rattle.zone_handler.specs.Sets.{set_records, sets_records};
ghost use Rattle.zone_handler.specs.Answers.{records_in, left_in, sets_in, KeepsMany};

use crate::lookup_records_iter::LookupRecordsIter;
use crate::sets_iter::SetsIter;
use lookup_types::LookupOptions;
use zone_proto::{Record, RecordSet};

/// The records of one section of an answer (RFC 1035 section 4.1). The default is empty.
#[derive(Debug, Drop)]
pub enum LookupRecords {
    /// No records.
    Empty,
    /// One record set, and how the client wants it.
    Records {
        /// Whether the set's signatures are wanted.
        lookup_options: LookupOptions,
        /// The set.
        records: RecordSet,
    },
    /// Several record sets, stored from the last to the first: make it by [`LookupRecords::many`].
    ManyRecords(LookupOptions, Vec<RecordSet>),
    /// Records as they are.
    Section(Vec<Record>),
}

impl Default for LookupRecords {
    ghost use Rattle.std.specs.Prelude.{◌≡◌};
    ghost use Rattle.zone_handler.specs.declared.lookup_records.LookupRecords.TheVariants.{Empty};

    ghost is_default = { λ answer. answer ≡ Empty };

    fn default() -> LookupRecords {
        LookupRecords::Empty
    }
}

impl LookupRecords {
    /// The records of one set, with its signatures if `lookup_options` ask for DNSSEC.
    pub fn new(lookup_options: LookupOptions, records: RecordSet) -> LookupRecords
        ensures { result ≡ LookupRecords.Records lookup_options records }
    {
        LookupRecords::Records {
            lookup_options,
            records,
        }
    }

    /// The records of several sets in the order passed in, each with its signatures if `lookup_options` ask for DNSSEC.
    /// The list is kept as `ManyRecords`, whatever its length, and reversed in place.
    pub fn many(lookup_options: LookupOptions, mut sets: Vec<RecordSet>) -> LookupRecords
        ensures records { records_in result ≡ sets_records lookup_options sets.items }
        ensures sets { sets_in result ≡ sets.items }
        ensures kept { KeepsMany lookup_options sets.items result }
    {
        sets.reverse();
        LookupRecords::ManyRecords(lookup_options, sets)
    }

    /// Lends the records in order. Doesn't allocate.
    pub fn iter(&self) -> LookupRecordsIter<'_>
        ensures { left_in result ≡ records_in self.now }
    {
        match self {
            LookupRecords::Empty => LookupRecordsIter::Empty,
            LookupRecords::Records {
                lookup_options,
                records,
            } => LookupRecordsIter::RecordsIter(lookup_options.rrset_with_rrigs(records)),
            LookupRecords::ManyRecords(lookup_options, sets) => {
                match SetsIter::new(*lookup_options, sets.as_slice()) {
                    Some(records) => LookupRecordsIter::ManyRecordsIter(records),
                    None => LookupRecordsIter::Empty,
                }
            }
            LookupRecords::Section(records) => LookupRecordsIter::SliceIter(records.iter()),
        }
    }

    /// Whether `iter` gives no record. Doesn't allocate.
    pub fn was_empty(&self) -> bool
        ensures { IsTrue result ↔ (records_in self.now ≡ []) }
    {
        self.iter().next().is_none()
    }
}

impl<'r> IntoIterator for &'r LookupRecords {
    type Item = &'r Record;

    type IntoIter = LookupRecordsIter<'r>;

    ghost into_iter_gives = { λ s it. left_in it ≡ records_in s.now };

    fn into_iter(self) -> LookupRecordsIter<'r> {
        self.iter()
    }
}
