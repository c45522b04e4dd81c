//! Sets, printed.
ghost use Rattle.std.specs.Prelude.{◌++◌, Some};
ghost use Rattle.zone_file_writer.specs.Printing.{lines_text};

use crate::record::MasterText;
use std::alloc::Global;
use std::fmt;
use zone_proto::{Record, RecordSet};

/// The records of a set and then its signatures, as `MasterText` has each, with a line end behind it.
#[derive(Drop)]
pub struct MasterSetText<'s>(pub Global, pub &'s RecordSet);

impl fmt::Display for MasterSetText<'_> {
    ghost output = { λ s. Some (lines_text (s.1.now.records ++ s.1.now.signatures)) };

    #[tactic(auto, using(crate::proofs::SetTexts::lines_of_both))]
    fn fmt<W: fmt::Write>(&self, f: &mut fmt::Formatter<W>) -> fmt::Result {
        let set = self.1;
        write!(f, "{}", LinesText(self.0, set.as_slice()))?;
        write!(f, "{}", LinesText(self.0, set.rrsigs()))
    }
}

/// Records, each with a line end behind it.
#[derive(Drop)]
struct LinesText<'r>(pub Global, pub &'r [Record]);

impl fmt::Display for LinesText<'_> {
    ghost output = { λ rs. Some (lines_text rs.1.now) };

    fn fmt<W: fmt::Write>(&self, f: &mut fmt::Formatter<W>) -> fmt::Result {
        for record in self.1 {
            write!(f, "{}\n", MasterText(self.0, record))?;
        }
        Ok(())
    }
}
