//! The questions of a secondary as octets.
ghost use Rattle.std.specs.Prelude.{◌≡◌, ◌++◌, IfOk, OnOk};
ghost use Rattle.zone_secondary.specs.declared.secondary.Question.TheVariants.{Changes};
ghost use Rattle.transfer_reading.specs.Queries.{authorities_asked, authority_text, long_text, query_text, short_text};

use crate::asked::{Asked, type_asked};
use std::alloc::{AllocError, Global};
use zone_proto::ProtoError;
use zone_secondary::Question;

/// The octets of the query that asks a primary: a standard query of class IN without RD, and for changes with an SOA record of the serial that
/// is held in the authority section (RFC 1995 section 3). Refused for want of memory alone.
pub fn write_query(alloc: Global, asked: &Asked) -> Result<Vec<u8>, ProtoError>
    ensures { IfOk result
        (λ text. text.items ≡ query_text asked.now.id asked.now.origin asked.now.question) }
{
    let mut out = Vec::new(alloc);
    push_short(&mut out, asked.id)?;
    out.extend_from_slice(&[0, 0, 0, 1, 0, 0, 0, authorities_asked(asked.question), 0, 0])?;
    let name = asked.origin.wire_lower()?;
    out.extend_from_slice(name.as_slice())?;
    push_short(&mut out, type_asked(asked.question).0)?;
    out.extend_from_slice(&[0, 1])?;
    push_authority(&mut out, asked.question)?;
    Ok(out)
}

/// How many records the authority section has.
fn authorities_asked(question: Question) -> u8
    ensures { result ≡ authorities_asked question }
{
    match question {
        Question::Changes(_) => 1,
        Question::Soa | Question::Zone => 0,
    }
}

/// Appends the authority section.
fn push_authority(out: &mut Vec<u8>, question: Question) -> Result<(), AllocError>
    ensures { OnOk result (out.new.items ≡ out.old.items ++ authority_text question) }
{
    match question {
        Question::Changes(held) => push_soa(out, held),
        Question::Soa | Question::Zone => Ok(()),
    }
}

/// Appends an SOA record with a serial, whose owner is the name of the question.
fn push_soa(out: &mut Vec<u8>, serial: u32) -> Result<(), AllocError>
    ensures { OnOk result (out.new.items ≡ out.old.items ++ authority_text (Changes serial)) }
{
    out.extend_from_slice(&[192, 12, 0, 6, 0, 1, 0, 0, 0, 0, 0, 22, 0, 0])?;
    push_long(out, serial)?;
    out.extend_from_slice(&[0, 0, 0, 0, 0, 0, 0, 0, 0, 0, 0, 0, 0, 0, 0, 0])?;
    Ok(())
}

/// Appends a number of 32 bits, the high half first.
fn push_long(out: &mut Vec<u8>, number: u32) -> Result<(), AllocError>
    ensures { OnOk result (out.new.items ≡ out.old.items ++ long_text number) }
{
    push_short(out, (number / 65536) as u16)?;
    push_short(out, (number % 65536) as u16)
}

/// Appends a number of 16 bits, the high octet first.
fn push_short(out: &mut Vec<u8>, number: u16) -> Result<(), AllocError>
    ensures { OnOk result (out.new.items ≡ out.old.items ++ short_text number) }
{
    out.push((number / 256) as u8)?;
    out.push((number % 256) as u8)?;
    Ok(())
}
