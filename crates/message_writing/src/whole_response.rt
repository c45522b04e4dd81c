//! Responses written as messages, whose groups are there beforehand (RFC 1035 section 4.1).
ghost use Rattle.std.specs.Prelude.{◌≢◌, ◌≤◌, IfErr, OnOk};
ghost use Rattle.message_writing.specs.Outcomes.{FailsToPutAny, FailsToWrite, Writes};
ghost use Rattle.message_writing.specs.Responses.{IsWritten, all_records};
ghost use Rattle.message_writing.specs.Writers.{CanGoOn, IsHeadOf, PutsGroups};

use crate::error::WriteError;
use crate::response::{Group, Response, ResponseHead, Section};
use crate::response_writer::ResponseWriter;
use std::alloc::Global;

/// Writes a response as a message of at most so many octets, in place of the octets of `out`.
///
/// Header, question, the sections, and last an OPT record if and only if the query has one. A group of records is written whole
/// or not at all. Answers, authorities and glue are written up to the first group that exceeds the limit; if there is one, TC
/// is set and nothing that merely helps is written (RFC 2181 section 9, RFC 9471 section 3.1). Otherwise each group of the
/// other additional records that doesn't exceed it is written, and TC is clear (RFC 4035 section 3.1.1).
///
/// Names are compressed in owners and in data of the types of RFC 1035, and in no other (RFC 3597 section 4), if the same
/// labels in the same case are at one of the sixteen places that are remembered.
///
/// # Errors
///
/// `BadCode` if the response code has more than twelve bits; `NoRoom` if header, question and OPT record exceed the limit,
/// which 282 octets never do, as a name has at most 255 (RFC 1035 section 3.1); `Unwritable` if the data of a record have no
/// wire form; `Memory` if there isn't enough. The octets of `out` are gone then.
pub fn write_response(
    alloc: Global,
    out: &mut Vec<u8>,
    response: &Response<'_, '_>,
    limit: u16,
) -> Result<(), WriteError>
    ensures written { Writes limit response.now out.new.items result }
    ensures room { 282 ≤ limit → IfErr result (λ e. e ≢ WriteError.NoRoom) }
{
    match compose(alloc, out, response, limit) {
        Ok(()) => Ok(()),
        Err(error) => {
            out.clear();
            Err(error)
        }
    }
}

/// The response, or octets that are to be given up.
fn compose(
    alloc: Global,
    out: &mut Vec<u8>,
    response: &Response<'_, '_>,
    limit: u16,
) -> Result<(), WriteError>
    ensures ok { OnOk result (IsWritten limit response.now out.new.items) }
    ensures code { OnOk result (response.now.code ≤ 4095) }
    ensures err { IfErr result (FailsToWrite limit response.now) }
    ensures room { 282 ≤ limit → IfErr result (λ e. e ≢ WriteError.NoRoom) }
{
    let mut writer = ResponseWriter::begin(alloc, out, head_of(response), None, limit)?;
    put_groups(&mut writer, out, Section::Answers, response.answers)?;
    put_groups(&mut writer, out, Section::Authorities, response.authorities)?;
    put_groups(&mut writer, out, Section::Glue, response.glue)?;
    put_groups(&mut writer, out, Section::Additionals, response.additionals)?;
    writer.finish(out)?;
    Ok(())
}

/// What a response says besides its groups.
fn head_of<'g>(response: &Response<'g, '_>) -> ResponseHead<'g>
    ensures { IsHeadOf result response.now }
{
    ResponseHead {
        query: response.query,
        authoritative: response.authoritative,
        code: response.code,
        size: response.size,
    }
}

/// Appends groups of a section.
fn put_groups(
    writer: &mut ResponseWriter<'_>,
    out: &mut Vec<u8>,
    section: Section,
    groups: &[Group<'_>],
) -> Result<(), WriteError>
    requires { CanGoOn writer.old out.old.items }
    ensures put { OnOk result (PutsGroups section groups.now
        writer.old out.old.items writer.new out.new.items) }
    ensures going { OnOk result (CanGoOn writer.new out.new.items) }
    ensures err { IfErr result (FailsToPutAny (all_records groups.now)) }
{
    for group in groups {
        writer.put(out, section, group)?;
    }
    Ok(())
}
