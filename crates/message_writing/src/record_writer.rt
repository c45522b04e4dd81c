//! Records written into a message (RFC 1035 section 4.1.3).
ghost use Rattle.std.specs.Prelude.{◌≡◌, ◌++◌, true, OnOk, IfErr, IfOk, IsSomeAnd, Some};
ghost use Rattle.zone_proto.specs.Data.{type_of};
ghost use Rattle.message_writing.specs.Continuing.{Appends};
ghost use Rattle.message_writing.specs.DataText.{AreCuts, long_text, short_text};
ghost use Rattle.message_writing.specs.KnownNames.{IsAskedAt, IsCut};
ghost use Rattle.message_writing.specs.Outcomes.{FailsToPut};
ghost use Rattle.message_writing.specs.Responses.{with_ttl};
ghost use Rattle.message_writing.specs.StrictReading.{strict_record_of};

use crate::data_writer::{DataCuts, data_cuts, push_data};
use crate::error::WriteError;
use crate::fingerprints::Fingerprint;
use crate::group_writer::Setting;
use crate::hints::{AFTER_HEADER, Hints};
use crate::known_names::is_known;
use crate::name_writer::{Cut, cut_of, push_cut};
use crate::numbers::{push_short, put_short};
use crate::writable::is_writable;
use std::alloc::AllocError;
use zone_proto::{Name, RData, Record};

/// Appends a record with another TTL. What was written reads back as this record, in each message that goes on with what stood before
/// it and whatever follows.
pub(crate) fn write_record(
    out: &mut Vec<u8>,
    hints: &mut Hints,
    setting: &Setting<'_>,
    ttl: u32,
    r: &Record,
) -> Result<(), WriteError>
    requires { IsAskedAt out.old.items setting.now.asked }
    ensures ok { OnOk result (Appends strict_record_of out.old.items out.new.items
        (with_ttl ttl r.now)) }
    ensures err { IfErr result (FailsToPut r.now.rdata) }
{
    if !is_writable(setting.alloc, &r.rdata)? {
        return Err(WriteError::Unwritable);
    }
    let start = out.as_slice().len();
    let owner = owner_cut(out.as_slice(), hints, setting, &r.name)?;
    let cuts = names_cut(out.as_slice(), hints, &r.rdata)?;
    push_cut(out, owner, r.name.labels())?;
    push_fields(out, ttl, r)?;
    let at = out.as_slice().len();
    push_short(out, 0)?;
    push_data(out, cuts, &r.rdata)?;
    let count = out.as_slice().len() - at - 2;
    put_short(out, at, count as u16);
    hints.note_owner(out.as_slice(), start, owner)?;
    note_names(out.as_slice(), hints, at + 2, cuts, &r.rdata)?;
    Ok(())
}

/// How an owner is cut: a pointer to the question stands for it, if it is what is asked for.
fn owner_cut(
    out: &[u8],
    hints: &mut Hints,
    setting: &Setting<'_>,
    owner: &Name,
) -> Result<Cut, AllocError>
    requires { IsAskedAt out.now setting.now.asked }
    ensures { IfOk result (λ cut. IsCut out.now cut.labels cut.pointer owner.now) }
{
    if is_asked(setting, owner) {
        return Ok(pointer_to(AFTER_HEADER as u16));
    }
    let last = hints.last_owner();
    if is_known(out, last, owner.labels()) {
        return Ok(pointer_to(last));
    }
    hints.note_question(out)?;
    let cut = cut_of(out, hints, owner.labels());
    hints.note_end(cut);
    Ok(cut)
}

/// A pointer in place of a whole name.
fn pointer_to(offset: u16) -> Cut
    ensures labels { result.labels ≡ 0 }
    ensures pointer { result.pointer ≡ Some offset }
{
    Cut {
        labels: 0,
        pointer: Some(offset),
        fingerprint: Fingerprint::OF_ROOT,
    }
}

/// Whether a name is the one that is asked for, in lower case as that is. If not, it may be so nevertheless.
fn is_asked(setting: &Setting<'_>, name: &Name) -> bool
    ensures { result ≡ true → IsSomeAnd setting.now.asked (λ asked. name.now ≡ asked.now) }
{
    match setting.asked {
        Some(asked) => asked.is_exactly(name),
        None => false,
    }
}

/// How the names of data are cut.
fn names_cut(out: &[u8], hints: &mut Hints, rdata: &RData) -> Result<DataCuts, AllocError>
    ensures { IfOk result (λ cuts. AreCuts out.now cuts.first cuts.second rdata.now) }
{
    match rdata {
        RData::NS(_) | RData::CNAME(_) | RData::MX(_) | RData::SOA(_) => {
            hints.note_question(out)?;
        }
        _ => {}
    }
    Ok(data_cuts(out, hints, rdata))
}

/// Appends what stands between the owner of a record and RDLENGTH.
pub(crate) fn push_fields(out: &mut Vec<u8>, ttl: u32, r: &Record) -> Result<(), AllocError>
    ensures { OnOk result (out.new.items ≡ out.old.items ++ (short_text (type_of r.now.rdata)
        ++ (short_text r.now.dns_class.0 ++ long_text ttl))) }
{
    let record_type = r.record_type().0;
    let class = r.dns_class.0;
    let high = ttl / 65536;
    let low = ttl % 65536;
    out.extend_from_slice(&[
        (record_type / 256) as u8,
        (record_type % 256) as u8,
        (class / 256) as u8,
        (class % 256) as u8,
        (high / 256) as u8,
        (high % 256) as u8,
        (low / 256) as u8,
        (low % 256) as u8,
    ])
}

/// Keeps the offsets of the names in data, which begin at an offset, that may have pointers.
fn note_names(
    out: &[u8],
    hints: &mut Hints,
    at: usize,
    cuts: DataCuts,
    rdata: &RData,
) -> Result<(), AllocError> {
    match rdata {
        RData::NS(_) | RData::CNAME(_) | RData::SOA(_) => hints.note(out, at, cuts.first),
        RData::MX(_) => hints.note(out, at.saturating_add(2), cuts.first),
        _ => Ok(()),
    }
}
