//! Zones, printed.
ghost use Rattle.std.specs.Prelude.{Some};
ghost use Rattle.zone_file_writer.specs.Printing.{lines_text};
ghost use Rattle.zone_printing.specs.ZoneRecords.{other_records, records_unless_at, zone_records};

use std::alloc::Global;
use std::fmt;
use zone_file_writer::MasterSetText;
use zone_map::RecordMap;
use zone_proto::{RecordSet, RrKey};

/// The sets of a zone as a zone file: that under a key, which is the SOA's, first, and then all others in the order of their keys, each
/// followed by its signatures. A record is a line, as `MasterText` has it; names are absolute, so the file may have any origin.
#[derive(Drop)]
pub struct MasterZoneText<'z>(pub Global, pub &'z RrKey, pub &'z RecordMap);

impl fmt::Display for MasterZoneText<'_> {
    ghost output = { λ z. Some (lines_text (zone_records z.1.now z.2.now)) };

    #[tactic(auto, using(crate::proofs::ZoneTexts::first_and_others, crate::proofs::ZoneTexts::others_alone))]
    fn fmt<W: fmt::Write>(&self, f: &mut fmt::Formatter<W>) -> fmt::Result {
        let (alloc, apex, records) = (self.0, self.1, self.2);
        let others = OthersText(alloc, apex, records);
        match records.get(apex) {
            Some(set) => write!(f, "{}{others}", MasterSetText(alloc, set)),
            None => write!(f, "{others}"),
        }
    }
}

/// All sets but the one under a key.
#[derive(Drop)]
struct OthersText<'z>(Global, &'z RrKey, &'z RecordMap);

impl fmt::Display for OthersText<'_> {
    ghost output = { λ z. Some (lines_text (other_records z.1.now z.2.now)) };

    fn fmt<W: fmt::Write>(&self, f: &mut fmt::Formatter<W>) -> fmt::Result {
        for (key, set) in self.2.iter() {
            write!(f, "{}", OtherText(self.0, self.1, key, set))?;
        }
        Ok(())
    }
}

/// A set, unless it is the one under the first key.
#[derive(Drop)]
struct OtherText<'z>(Global, &'z RrKey, &'z RrKey, &'z RecordSet);

impl fmt::Display for OtherText<'_> {
    ghost output = { λ s. Some (lines_text (records_unless_at s.1.now (s.2.now, s.3.now))) };

    fn fmt<W: fmt::Write>(&self, f: &mut fmt::Formatter<W>) -> fmt::Result {
        if self.1.same_as(self.2) {
            Ok(())
        } else {
            write!(f, "{}", MasterSetText(self.0, self.3))
        }
    }
}
