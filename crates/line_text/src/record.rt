//! Records, read and printed.
ghost use Rattle.std.specs.Prelude.{◌≡◌, Some, None, IfOk};
ghost use Rattle.line_text.specs.Errors.{OnBadText};
ghost use Rattle.line_text.specs.Records.{next_record, record_text};

use crate::data::{DataText, read_data};
use crate::error::TextError;
use crate::names::{read_name, read_type};
use crate::words::Words;
use std::alloc::Global;
use std::fmt;
use zone_proto::{DNSClass, Record, RecordType};

/// Reads the words that are left of a line as a record of class IN: its owner, its TTL in seconds, its type and its
/// data. `BadText` where they aren't that. Its only error is `Memory`. Words that follow the data stay. After a refusal
/// the words are of no more use.
#[tactic(auto, using(crate::proofs::ReadingFacts::reading))]
pub fn read_record(alloc: Global, words: &mut Words<'_>) -> Result<Record, TextError>
    ensures ok { IfOk result (λ r. next_record words.old ≡ Some (r, words.new)) }
    ensures refusal { OnBadText result (next_record words.old ≡ None) }
{
    let owner = read_name(alloc, words)?;
    let ttl = words.take_u32()?;
    let record_type = read_type(words)?;
    let rdata = read_data(alloc, record_type, words)?;
    Ok(Record::from_rdata(owner, ttl, rdata))
}

/// A record as text: `NAME TTL CLASS TYPE DATA`, with single spaces between the words. Of a record of class IN, `read_record`
/// reads these words without the class as the same record, where `read_data` reads its data.
#[derive(Drop)]
pub struct RecordText<'r>(pub &'r Record);

impl fmt::Display for RecordText<'_> {
    ghost output = { λ r. Some (record_text r.0.now) };

    fn fmt<W: fmt::Write>(&self, f: &mut fmt::Formatter<W>) -> fmt::Result {
        let record = self.0;
        let (class, record_type) = (record.dns_class, record.record_type());
        let data = DataText(&record.rdata);
        match (class, record_type) {
            // Most records are these: one piece of text is written between their TTL and their data, in place of five.
            (DNSClass::IN, RecordType::A) => {
                write!(f, "{} {} IN A {data}", record.name, record.ttl)
            }
            (DNSClass::IN, _) => {
                write!(f, "{} {} IN {record_type} {data}", record.name, record.ttl)
            }
            _ => {
                write!(f, "{} {} {class} ", record.name, record.ttl)?;
                write!(f, "{record_type} {data}")
            }
        }
    }
}
