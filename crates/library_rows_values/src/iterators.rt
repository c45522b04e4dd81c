//! Writes what names, sets and answers lend.
ghost use Rattle.std.specs.Iterator.{IsFinite};

use crate::write::Answer;
use line_text::{HexText, RecordText};
use zone_proto::{Labels, Record, Suffixes};

/// Writes labels in hex, each after a space.
pub fn write_labels(out: &mut Answer, labels: Labels<'_>) {
    for label in labels.clone() {
        out.say(" ");
        out.put(&HexText(label));
    }
}

/// Writes the count of the labels of each suffix, and the labels.
pub fn write_suffixes(out: &mut Answer, suffixes: Suffixes<'_>) {
    for suffix in suffixes {
        out.put(&suffix.len());
        write_labels(out, suffix);
        out.say("; ");
    }
}

/// Writes records, each with a semicolon after it, and answers how many they are.
pub fn write_records<'r, I: Iterator<Item = &'r Record> + Drop>(out: &mut Answer, records: I) -> u64
    requires can { I.can_next records }
    requires ends { IsFinite (I.remaining records) }
{
    let mut count = 0u64;
    for record in records {
        out.put(&RecordText(record));
        out.say("; ");
        count = count.saturating_add(1);
    }
    count
}
