//! TSIG records (RFC 8945 section 4.2).
ghost use Rattle.std.specs.Prelude.{◌≡◌, ◌++◌, IfOk, OnOk, option_map};
ghost use Rattle.zone_proto.specs.Names.{Name as LabelsOf};
ghost use Rattle.message_tsig.specs.Tsigs.{data_text, fields_of, is_tsig, numbers_of, record_text, tsig_at, tsig_with, variables, timers};

use crate::octets::{behind, only_counted, shortly_counted, time_of};
use crate::records::TSIG;
use crate::texts::{push_counted, push_short, push_time};
use message_reading::{RecordFrame, name_of, plain_name_of, record_frame_of, short_of};
use std::alloc::Global;
use zone_proto::{Name, ProtoError, Seq};

/// A TSIG record.
#[derive(Debug, Drop)]
pub struct Tsig {
    /// The name of the key.
    pub name: Name,
    /// The name of the algorithm.
    pub algorithm: Name,
    /// When the message was signed, in seconds since 1970.
    pub time: u64,
    /// How many seconds the moment at which it is read may be before or behind that.
    pub fudge: u16,
    /// The MAC.
    pub mac: Seq<u8>,
    /// The identifier that the message had where it was signed.
    pub original_id: u16,
    /// What is wrong with the TSIG of the request (RFC 8945 section 3).
    pub error: u16,
    /// The server's time, where the error is BADTIME.
    pub other: Seq<u8>,
}

/// The TSIG record at the offset `at` of a message, which `place_of` gives; none where another record stands there, its class isn't ANY or
/// its TTL not 0, or owner or data aren't of their form (RFC 8945 section 4.2). Refused for want of memory alone.
#[tactic(auto, unfolding(crate::specs::Tsigs::tsig_at))]
pub fn tsig_at(alloc: Global, message: &[u8], at: usize) -> Result<Option<Tsig>, ProtoError>
    ensures { IfOk result (λ found. found ≡ tsig_at at message.now) }
{
    let octets = behind(message, at);
    let Some((name, _)) = name_of(alloc, message, at, octets)? else {
        return Ok(None);
    };
    match record_frame_of(octets) {
        Some((frame, text, _)) if is_tsig(frame) => fields_of(alloc, name, text),
        _ => Ok(None),
    }
}

/// Whether a record is a TSIG: the type is that, the class ANY and the TTL 0.
fn is_tsig(frame: RecordFrame) -> bool
    ensures { result ≡ is_tsig frame }
{
    frame.record_type == TSIG && frame.class == 255 && frame.ttl == 0
}

/// The TSIG of an owner and of data.
fn fields_of(alloc: Global, name: Name, octets: &[u8]) -> Result<Option<Tsig>, ProtoError>
    ensures { IfOk result (λ found. found ≡ fields_of name octets.now) }
{
    let Some((algorithm, rest)) = plain_name_of(alloc, octets)? else {
        return Ok(None);
    };
    let Some(fields) = numbers_of(rest) else {
        return Ok(None);
    };
    Ok(Some(Tsig {
        name,
        algorithm,
        time: fields.time,
        fudge: fields.fudge,
        mac: Seq::from_slice(alloc, fields.mac)?,
        original_id: fields.original_id,
        error: fields.error,
        other: Seq::from_slice(alloc, fields.other)?,
    }))
}

/// What the data of a TSIG record say behind the name of the algorithm.
#[derive(Clone, Copy)]
struct Fields<'o> {
    time: u64,
    fudge: u16,
    mac: &'o [u8],
    original_id: u16,
    error: u16,
    other: &'o [u8],
}

/// The fields behind the name of the algorithm.
#[tactic(auto, unfolding(crate::specs::Tsigs::numbers_of))]
fn numbers_of(octets: &[u8]) -> Option<Fields<'_>>
    ensures { (name algorithm : LabelsOf) → option_map (tsig_with name algorithm) result
        ≡ numbers_of name algorithm octets.now }
{
    let (time, rest) = time_of(octets)?;
    let (fudge, rest) = short_of(rest)?;
    let (mac, rest) = shortly_counted(rest)?;
    let (original_id, rest) = short_of(rest)?;
    let (error, rest) = short_of(rest)?;
    let other = only_counted(rest)?;
    Some(Fields {
        time,
        fudge,
        mac,
        original_id,
        error,
        other,
    })
}

impl Tsig {
    /// The variables that a MAC is made of (RFC 8945 section 4.3.3).
    #[tactic(auto, unfolding(crate::specs::Tsigs::variables))]
    pub(crate) fn variables(&self) -> Result<Vec<u8>, ProtoError>
        ensures { IfOk result (λ text. text.items ≡ variables self.now) }
    {
        let mut out = self.name.wire_lower()?;
        let algorithm = self.algorithm.wire_lower()?;
        out.extend_from_slice(&[0, 255, 0, 0, 0, 0])?;
        out.extend_from_slice(algorithm.as_slice())?;
        push_time(&mut out, self.time)?;
        push_short(&mut out, self.fudge)?;
        push_short(&mut out, self.error)?;
        push_counted(&mut out, self.other.as_slice())?;
        Ok(out)
    }

    /// The timers that the MAC of a further message is made of (RFC 8945 section 5.3.1).
    #[tactic(auto, unfolding(crate::specs::Tsigs::timers))]
    pub(crate) fn timers(&self) -> Result<Vec<u8>, ProtoError>
        ensures { IfOk result (λ text. text.items ≡ timers self.now) }
    {
        let mut out = Vec::new(self.name.alloc());
        push_time(&mut out, self.time)?;
        push_short(&mut out, self.fudge)?;
        Ok(out)
    }

    /// Appends the record.
    #[tactic(auto, unfolding(crate::specs::Tsigs::record_text))]
    pub(crate) fn push_record(&self, out: &mut Vec<u8>) -> Result<(), ProtoError>
        ensures { OnOk result (out.new.items ≡ out.old.items ++ record_text self.now) }
    {
        let owner = self.name.wire_lower()?;
        let content = self.data_text()?;
        out.extend_from_slice(owner.as_slice())?;
        out.extend_from_slice(&[0, 250, 0, 255, 0, 0, 0, 0])?;
        push_counted(out, content.as_slice())?;
        Ok(())
    }

    /// The data of the record.
    #[tactic(auto, unfolding(crate::specs::Tsigs::data_text))]
    fn data_text(&self) -> Result<Vec<u8>, ProtoError>
        ensures { IfOk result (λ text. text.items ≡ data_text self.now) }
    {
        let mut out = self.algorithm.wire_lower()?;
        push_time(&mut out, self.time)?;
        push_short(&mut out, self.fudge)?;
        push_counted(&mut out, self.mac.as_slice())?;
        push_short(&mut out, self.original_id)?;
        push_short(&mut out, self.error)?;
        push_counted(&mut out, self.other.as_slice())?;
        Ok(out)
    }
}
