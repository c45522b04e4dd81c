//! Records that go out again and again: the octets of all but the pointers to the origin of their zone, whose place differs from message to
//! message (RFC 1035 section 4.1.4).
ghost use Rattle.std.specs.Prelude.{◌≡◌, ◌++◌, ◌+◌, ◌<◌, ℕ, [], Some, IfOk, IfSome, OnOk, length, map};
ghost use Rattle.message_writing.specs.Checks.{HaveTypeNumbers};
ghost use Rattle.message_writing.specs.DataText.{IsSound, IsWritable};
ghost use Rattle.message_writing.specs.KeptText.{text_at, AreBehind, AreKept, IsBehind, IsDataText, IsFront, IsNameBehind};
ghost use Rattle.message_writing.specs.KnownNames.{ending};
ghost use Rattle.message_writing.specs.Responses.{records_of, with_ttl};

use crate::data_writer::{NO_CUTS, push_data, push_timers};
use crate::group_writer::count_of;
use crate::name_writer::{push_labels, same_labels};
use crate::numbers::{push_pointer, push_short};
use crate::record_writer::push_fields;
use crate::response::Group;
use crate::writable::is_writable;
use std::alloc::{AllocError, Global};
use zone_proto::{LowerName, Name, RData, Record, SOA};

/// Octets, and pointers to an origin among them.
#[derive(Drop)]
pub struct PointedText {
    /// What comes before each of the pointers.
    pub(crate) fronts: Vec<Vec<u8>>,
    /// What comes behind the last of them.
    pub(crate) tail: Vec<u8>,
}

/// Records as the octets that go out, where a pointer to an origin stands for the end of each name that may have one and ends with it.
#[derive(Drop)]
pub struct KeptRecords {
    /// Their octets.
    pub(crate) text: PointedText,
    /// How many there are.
    pub(crate) count: usize,
}

/// How a name is kept: so many of its labels, and then a pointer to the origin, or the end.
#[derive(Clone, Copy, PartialEq, Eq, Debug)]
pub(crate) struct Front {
    pub(crate) labels: usize,
    pub(crate) is_pointed: bool,
}

impl PointedText {
    /// No octets. Doesn't allocate.
    fn new(alloc: Global) -> PointedText
        ensures { (p : ℕ) → text_at p result ≡ [] }
    {
        PointedText {
            fronts: Vec::new(alloc),
            tail: Vec::new(alloc),
        }
    }

    /// The same with a pointer behind it.
    fn pointed(self, alloc: Global) -> Result<PointedText, AllocError>
        ensures { IfOk result (λ text. (p : ℕ) → text_at p text
            ≡ text_at p self ++ ending (Some p)) }
    {
        let PointedText { fronts, tail } = self;
        let mut fronts = fronts;
        fronts.push(tail)?;
        Ok(PointedText {
            fronts,
            tail: Vec::new(alloc),
        })
    }

    /// The same with another text behind it.
    fn followed_by(self, other: &PointedText) -> Result<PointedText, AllocError>
        ensures { IfOk result (λ text. (p : ℕ)
            → text_at p text ≡ text_at p self ++ text_at p other.now) }
    {
        let mut text = self;
        for front in other.fronts.iter() {
            text.tail.extend_from_slice(front.as_slice())?;
            text = text.pointed(*front.allocator())?;
        }
        text.tail.extend_from_slice(other.tail.as_slice())?;
        Ok(text)
    }

    /// How many octets it has, if a number of 16 bits tells that.
    fn count(&self) -> Option<u16>
        ensures { IfSome result (λ n. (p : ℕ) → length (text_at p self.now) ≡ n) }
    {
        let mut count = self.tail.len();
        for front in self.fronts.iter() {
            if count > 65535 || front.len() > 65535 {
                return None;
            }
            count += front.len() + 2;
        }
        if count > 65535 {
            return None;
        }
        Some(count as u16)
    }

    /// Appends the text with pointers to an offset.
    pub(crate) fn push_to(&self, out: &mut Vec<u8>, offset: u16) -> Result<(), AllocError>
        requires { offset < 16384 }
        ensures { OnOk result (out.new.items ≡ out.old.items ++ text_at offset self.now) }
    {
        for front in self.fronts.iter() {
            out.extend_from_slice(front.as_slice())?;
            push_pointer(out, offset)?;
        }
        out.extend_from_slice(self.tail.as_slice())
    }
}

/// Keeps the records of a group below an origin, signatures among them. None if a record has data that no octets are, or too many of them.
/// Fails only for lack of memory.
pub fn keep_records(
    alloc: Global,
    origin: &LowerName,
    group: &Group<'_>,
) -> Result<Option<KeptRecords>, AllocError>
    ensures { IfOk result (λ kept. IfSome kept (AreKept origin.now (records_of group.now))) }
{
    let text = PointedText::new(alloc);
    let Some(text) = with_records(alloc, text, origin, group.ttl, group.records)? else {
        return Ok(None);
    };
    let Some(text) = with_records(alloc, text, origin, group.ttl, group.signatures)? else {
        return Ok(None);
    };
    Ok(Some(KeptRecords {
        text,
        count: count_of(group),
    }))
}

/// A text with records behind it.
fn with_records(
    alloc: Global,
    text: PointedText,
    origin: &LowerName,
    ttl: u32,
    records: &[Record],
) -> Result<Option<PointedText>, AllocError>
    ensures { IfOk result (λ after. IfSome after
        (AreBehind origin.now text (map (with_ttl ttl) records.now))) }
{
    let mut text = text;
    for record in records {
        match with_record(alloc, text, origin, ttl, record)? {
            Some(longer) => text = longer,
            None => return Ok(None),
        }
    }
    Ok(Some(text))
}

/// A text with a record behind it.
fn with_record(
    alloc: Global,
    text: PointedText,
    origin: &LowerName,
    ttl: u32,
    r: &Record,
) -> Result<Option<PointedText>, AllocError>
    ensures { IfOk result (λ after. IfSome after (IsBehind origin.now text (with_ttl ttl r.now))) }
{
    match is_writable(alloc, &r.rdata) {
        Ok(true) => {}
        Ok(false) => return Ok(None),
        Err(_) => return Err(AllocError),
    }
    let data = data_text(alloc, origin, &r.rdata)?;
    let Some(count) = data.count() else {
        return Ok(None);
    };
    let mut text = with_name(alloc, text, origin, &r.name)?;
    push_fields(&mut text.tail, ttl, r)?;
    push_short(&mut text.tail, count)?;
    Ok(Some(text.followed_by(&data)?))
}

/// The text of data.
fn data_text(alloc: Global, origin: &LowerName, rdata: &RData) -> Result<PointedText, AllocError>
    requires writable { IsWritable rdata.now }
    requires numbers { HaveTypeNumbers rdata.now }
    ensures text { IfOk result (IsDataText origin.now rdata.now) }
    ensures sound { OnOk result (IsSound rdata.now) }
{
    let mut text = PointedText::new(alloc);
    match rdata {
        RData::NS(name) => Ok(with_name(alloc, text, origin, name)?),
        RData::CNAME(name) => Ok(with_name(alloc, text, origin, name)?),
        RData::SOA(soa) => soa_text(alloc, origin, soa),
        RData::MX(mx) => {
            push_short(&mut text.tail, mx.preference)?;
            Ok(with_name(alloc, text, origin, &mx.exchange)?)
        }
        _ => {
            push_data(&mut text.tail, NO_CUTS, rdata)?;
            Ok(text)
        }
    }
}

/// The text of the data of an SOA record.
fn soa_text(alloc: Global, origin: &LowerName, soa: &SOA) -> Result<PointedText, AllocError>
    ensures text { IfOk result (IsDataText origin.now (RData.SOA soa.now)) }
    ensures sound { OnOk result (IsSound (RData.SOA soa.now)) }
{
    let text = with_name(alloc, PointedText::new(alloc), origin, &soa.mname)?;
    let mut text = with_name(alloc, text, origin, &soa.rname)?;
    push_timers(&mut text.tail, soa)?;
    Ok(text)
}

/// A text with a name behind it.
fn with_name(
    alloc: Global,
    text: PointedText,
    origin: &LowerName,
    name: &Name,
) -> Result<PointedText, AllocError>
    ensures { IfOk result (IsNameBehind origin.now text name.now) }
{
    let mut text = text;
    let front = front_of(origin, name);
    push_labels(&mut text.tail, front.labels, name.labels())?;
    if front.is_pointed {
        return Ok(text.pointed(alloc)?);
    }
    text.tail.push(0)?;
    Ok(text)
}

/// How a name is kept.
fn front_of(origin: &LowerName, name: &Name) -> Front
    ensures { IsFront origin.now result.labels result.is_pointed name.now }
{
    let mut left = name.labels();
    let mut labels = 0usize;
    while !same_labels(left.clone(), origin.labels()) {
        let Some(_) = left.next() else {
            return Front {
                labels,
                is_pointed: false,
            };
        };
        labels += 1;
    }
    Front {
        labels,
        is_pointed: true,
    }
}
