//! Records, printed.
ghost use Rattle.std.specs.Prelude.{Some};
ghost use Rattle.zone_file_writer.specs.Printing.{master_text};

use crate::data::MasterDataText;
use crate::types::TypeText;
use std::alloc::Global;
use std::fmt;
use zone_proto::Record;

/// A record as an entry of a zone file, without the end of its line: its owner, its TTL in seconds, its class, its type and its
/// data, with single spaces between them. Names are absolute, so it may be in a file of any origin. Data of a type that has a
/// row in the table of `record_fields` take memory while they are printed; where none is found, writing fails.
#[derive(Drop)]
pub struct MasterText<'r>(pub Global, pub &'r Record);

impl fmt::Display for MasterText<'_> {
    ghost output = { λ r. Some (master_text r.1.now) };

    fn fmt<W: fmt::Write>(&self, f: &mut fmt::Formatter<W>) -> fmt::Result {
        let record = self.1;
        let (class, record_type) = (record.dns_class, TypeText(record.record_type()));
        let data = MasterDataText(self.0, &record.rdata);
        write!(f, "{} {} {class} ", record.name, record.ttl)?;
        write!(f, "{record_type}{data}")
    }
}
