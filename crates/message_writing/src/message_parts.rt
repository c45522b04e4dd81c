//! What a response has besides its groups of records: the header, the question and the OPT record (RFC 1035 section 4.1, RFC 6891
//! section 6.1).
ghost use Rattle.std.specs.Prelude.{◌≡◌, ◌≤◌, ◌<◌, ◌+◌, ◌*◌, ◌/◌, ◌%◌, ◌++◌, OnOk, Some, drop, length};
ghost use Rattle.message_reading.specs.Messages.{question_of};
ghost use Rattle.zone_proto.specs.Names.{wire_form, wire_length};
ghost use Rattle.message_writing.specs.Continuing.{Appends, AppendsAll};
ghost use Rattle.message_writing.specs.DataText.{short_text};
ghost use Rattle.message_writing.specs.HeaderText.{header_text, high_text, low_text, weight_if};
ghost use Rattle.message_writing.specs.Responses.{opt_for, opt_length, opt_of};
ghost use Rattle.message_writing.specs.StrictReading.{strict_record_of};

use crate::name_writer::push_wire;
use crate::numbers::{push_long, push_short, put_octets, put_short};
use crate::response::Response;
use message_reading::{Extension, Question};
use std::alloc::AllocError;

/// How many records each section has, and whether one was cut.
#[derive(Clone, Copy, PartialEq, Eq, Debug)]
pub(crate) struct Counts {
    pub(crate) answers: usize,
    pub(crate) authorities: usize,
    pub(crate) additionals: usize,
    pub(crate) truncated: bool,
}

/// The greatest response code, of twelve bits (RFC 6891 section 6.1.3).
pub(crate) const GREATEST_CODE: u16 = 4095;

/// How many octets an OPT record without options has (RFC 6891 section 6.1.2).
pub(crate) const OPT_OCTETS: usize = 11;

/// How many OPT records a response has: one if the query has one.
pub(crate) fn opt_count(response: &Response<'_, '_>) -> usize
    ensures value { result ≡ length (opt_of response.now) }
    ensures small { result ≤ 1 }
{
    match response.query.extension {
        None => 0,
        Some(_) => 1,
    }
}

/// Appends a question, whose name has no pointers.
pub(crate) fn push_question(out: &mut Vec<u8>, question: &Question) -> Result<(), AllocError>
    ensures read { OnOk result (Appends question_of out.old.items out.new.items question.now) }
    ensures length { OnOk result (length out.new.items
        ≡ length out.old.items + (wire_length question.now.name + 4)) }
    ensures text { OnOk result (out.new.items
        ≡ out.old.items ++ (wire_form question.now.name
        ++ (short_text question.now.query_type.0 ++ short_text question.now.query_class.0))) }
{
    push_wire(out, question.name.labels())?;
    push_short(out, question.query_type.0)?;
    push_short(out, question.query_class.0)?;
    Ok(())
}

/// Appends the OPT record, if the query has one.
pub(crate) fn push_opt(out: &mut Vec<u8>, response: &Response<'_, '_>) -> Result<(), AllocError>
    ensures read { OnOk result (AppendsAll strict_record_of out.old.items out.new.items
        (opt_of response.now)) }
    ensures length { OnOk result (length out.new.items
        ≡ length out.old.items + opt_length response.now) }
{
    match response.query.extension {
        None => Ok(()),
        Some(extension) => push_extension(out, response.size, response.code, extension),
    }
}

/// Appends an OPT record without options (RFC 6891 section 6.1.2).
fn push_extension(
    out: &mut Vec<u8>,
    size: u16,
    code: u16,
    extension: Extension,
) -> Result<(), AllocError>
    ensures read { OnOk result (AppendsAll strict_record_of out.old.items out.new.items
        (opt_for size code (Some extension))) }
    ensures length { OnOk result (length out.new.items ≡ length out.old.items + 11) }
{
    let ttl = opt_ttl(code, extension.dnssec_ok);
    out.push(0)?;
    push_short(out, 41)?;
    push_short(out, size)?;
    push_long(out, ttl)?;
    push_short(out, 0)?;
    Ok(())
}

/// The upper eight bits of a response code of twelve, and DO (RFC 6891 section 6.1.3).
fn opt_ttl(code: u16, dnssec_ok: bool) -> u32
    ensures { result ≡ code / 16 % 256 * 16777216 + weight_if dnssec_ok 32768 }
{
    let upper = u32::from(code / 16 % 256) * 16_777_216;
    if dnssec_ok { upper + 32_768 } else { upper }
}

/// QR, AA, TC and RD (RFC 1035 section 4.1.1).
fn high_flags(response: &Response<'_, '_>, truncated: bool) -> u8
    ensures { result ≡ high_text response.now.authoritative truncated
        response.now.query.now.header.recursion_desired }
{
    let authoritative = if response.authoritative { 4u8 } else { 0 };
    let truncated = if truncated { 2u8 } else { 0 };
    let recursion_desired = if response.query.header.recursion_desired {
        1u8
    } else {
        0
    };
    128 + (authoritative + (truncated + recursion_desired))
}

/// The lower four bits of the response code. AD and CD are clear (RFC 4035 section 3.1.6).
fn low_flags(response: &Response<'_, '_>) -> u8
    ensures { result ≡ low_text response.now.code }
{
    (response.code % 16) as u8
}

/// Puts the header in place of the first twelve octets.
pub(crate) fn put_header(out: &mut Vec<u8>, response: &Response<'_, '_>, counts: Counts)
    requires long { 12 ≤ length out.old.items }
    requires answers { counts.answers < 65536 }
    requires authorities { counts.authorities < 65536 }
    requires additionals { counts.additionals < 65536 }
    ensures { out.new.items ≡ header_text response.now.query.now.header.id
        (high_text response.now.authoritative counts.truncated
        response.now.query.now.header.recursion_desired)
        (low_text response.now.code)
        counts.answers counts.authorities counts.additionals ++ drop 12 out.old.items }
{
    put_short(out, 0, response.query.header.id);
    put_octets(
        out,
        2,
        high_flags(response, counts.truncated),
        low_flags(response),
    );
    put_short(out, 4, 1);
    put_short(out, 6, counts.answers as u16);
    put_short(out, 8, counts.authorities as u16);
    put_short(out, 10, counts.additionals as u16);
}
