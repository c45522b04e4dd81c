//! Groups of records, each written whole within a limit (RFC 2181 section 9).
ghost use Rattle.std.specs.Prelude.{◌≡◌, ◌≤◌, ◌+◌, false, IsTrue, IfOk, IfErr, OnOk, length, map};
ghost use Rattle.message_writing.specs.KnownNames.{IsAskedAt};
ghost use Rattle.message_writing.specs.Outcomes.{ArePutWithin, FailsToPutAny, IsPutWithin};
ghost use Rattle.message_writing.specs.Responses.{records_of, with_ttl};

use crate::error::WriteError;
use crate::hints::Hints;
use crate::record_writer::write_record;
use crate::response::Group;
use std::alloc::Global;
use zone_proto::{LowerName, Record};

/// What a message goes by that is being written.
#[derive(Clone, Copy)]
pub(crate) struct Setting<'q> {
    pub(crate) alloc: Global,
    /// The name of the question, if it is in lower case and a pointer to it stands for the whole name.
    pub(crate) asked: Option<&'q LowerName>,
    /// How many octets the message may have without its OPT record.
    pub(crate) room: usize,
}

/// Appends records, one behind the other, up to the first that goes over. Whether all were appended.
fn write_records(
    out: &mut Vec<u8>,
    hints: &mut Hints,
    setting: &Setting<'_>,
    ttl: u32,
    records: &[Record],
) -> Result<bool, WriteError>
    requires room { length out.old.items ≤ setting.now.room }
    requires asked { IsAskedAt out.old.items setting.now.asked }
    ensures ok { IfOk result (ArePutWithin setting.now.room out.old.items out.new.items
        (map (with_ttl ttl) records.now)) }
    ensures err { IfErr result (FailsToPutAny (map (with_ttl ttl) records.now)) }
{
    for record in records {
        write_record(out, hints, setting, ttl, record)?;
        if out.as_slice().len() > setting.room {
            return Ok(false);
        }
    }
    Ok(true)
}

/// Appends the records of a group, all of them, or leaves the octets as they were. Whether they were appended.
pub(crate) fn write_group(
    out: &mut Vec<u8>,
    hints: &mut Hints,
    setting: &Setting<'_>,
    group: &Group<'_>,
) -> Result<bool, WriteError>
    requires room { length out.old.items ≤ setting.now.room }
    requires asked { IsAskedAt out.old.items setting.now.asked }
    ensures ok { IfOk result (IsPutWithin setting.now.room out.old.items out.new.items
        (records_of group.now)) }
    ensures within { IfOk result (λ done. length out.new.items ≤ setting.now.room) }
    ensures asked { OnOk result (IsAskedAt out.new.items setting.now.asked) }
    ensures err { IfErr result (FailsToPutAny (records_of group.now)) }
{
    let start = out.as_slice().len();
    let whole = write_records(out, hints, setting, group.ttl, group.records)?;
    if !whole {
        out.truncate(start);
        return Ok(false);
    }
    let signed = write_records(out, hints, setting, group.ttl, group.signatures)?;
    if !signed {
        out.truncate(start);
        return Ok(false);
    }
    Ok(true)
}

/// How many records a group has.
pub(crate) fn count_of(group: &Group<'_>) -> usize
    ensures { result ≡ length group.now.records.now + length group.now.signatures.now }
{
    group.records.len() + group.signatures.len()
}

/// How many records a group has, if it was written.
pub(crate) fn count_if(written: bool, group: &Group<'_>) -> usize
    ensures written { IsTrue written
        → result ≡ length group.now.records.now + length group.now.signatures.now }
    ensures none { written ≡ false → result ≡ 0 }
{
    if written { count_of(group) } else { 0 }
}
