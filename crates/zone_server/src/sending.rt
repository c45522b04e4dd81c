//! Responses of a zone written as messages.
ghost use Rattle.std.specs.Prelude.{◌≡◌, ◌≤◌, OnOk};
ghost use Rattle.zone_response.specs.Responses.{bare};
ghost use Rattle.zone_response.specs.Sections.{sections};
ghost use Rattle.zone_server.specs.Answers.{code_number, GoesOut, IsSent};
ghost use Rattle.zone_server.specs.Sending.{Sends};
ghost use Rattle.zone_server.specs.Transfers.{soa_sections};

use crate::groups::put_sections;
use crate::transfer_records::soa_alone;
use crate::transport::DATAGRAM_SIZE;
use message_reading::Query;
use message_writing::{
    Response as Message, ResponseHead, ResponseWriter, WriteError, write_response,
};
use std::alloc::{AllocError, Global};
use zone_proto::{LowerName, RecordSet, ResponseCode};
use zone_response::Response;

/// Writes the response to a query within a limit, in place of the octets of `out`; where no message has its code, or the data of one
/// of its records, one of `ServFail`. `name` is that of the question in lower case.
pub(crate) fn send(
    alloc: Global,
    out: &mut Vec<u8>,
    query: &Query,
    name: &LowerName,
    response: &Response<'_>,
    limit: u16,
) -> Result<(), AllocError>
    requires { 512 ≤ limit }
    ensures { OnOk result (GoesOut limit query.now (sections response.now) out.new.items) }
{
    match send_sections(alloc, out, query, name, response, limit) {
        Ok(()) => Ok(()),
        Err(WriteError::Unwritable | WriteError::BadCode) => {
            send_code(alloc, out, query, ResponseCode::ServFail, limit)
        }
        Err(WriteError::Memory) => Err(AllocError),
        // In 512 octets header, question and OPT record find room.
        Err(WriteError::NoRoom) => unreachable!(),
    }
}

/// Writes the response to a query.
fn send_sections(
    alloc: Global,
    out: &mut Vec<u8>,
    query: &Query,
    name: &LowerName,
    response: &Response<'_>,
    limit: u16,
) -> Result<(), WriteError>
    requires { 512 ≤ limit }
    ensures { Sends limit query.now (sections response.now) out.new.items result }
{
    let head = ResponseHead {
        query,
        authoritative: response.authoritative,
        code: number_of(response.code),
        size: DATAGRAM_SIZE,
    };
    let mut writer = ResponseWriter::begin(alloc, out, head, Some(name), limit)?;
    put_sections(alloc, &mut writer, out, response)?;
    writer.finish(out)?;
    Ok(())
}

/// Writes a response of a code alone, with the question, within a limit of octets, in place of the octets of `out`. Fails only for lack
/// of memory.
pub fn send_code(
    alloc: Global,
    out: &mut Vec<u8>,
    query: &Query,
    code: ResponseCode,
    limit: u16,
) -> Result<(), AllocError>
    requires room { 512 ≤ limit }
    requires code { code_number code ≤ 4095 }
    ensures { OnOk result (IsSent limit query.now (bare code) out.new.items) }
{
    match send_bare(alloc, out, query, code, limit) {
        Ok(()) => Ok(()),
        Err(WriteError::Memory) => Err(AllocError),
        // It has no records, its code has twelve bits, and header, question and OPT record find room in 512 octets.
        Err(WriteError::Unwritable) => unreachable!(),
        Err(WriteError::BadCode) => unreachable!(),
        Err(WriteError::NoRoom) => unreachable!(),
    }
}

/// Writes a response of a code alone.
fn send_bare(
    alloc: Global,
    out: &mut Vec<u8>,
    query: &Query,
    code: ResponseCode,
    limit: u16,
) -> Result<(), WriteError>
    requires { 512 ≤ limit }
    ensures { Sends limit query.now (bare code) out.new.items result }
{
    let message = Message {
        query,
        authoritative: false,
        code: number_of(code),
        size: DATAGRAM_SIZE,
        answers: &[],
        authorities: &[],
        glue: &[],
        additionals: &[],
    };
    write_response(alloc, out, &message, limit)
}

/// Writes a response of the zone's SOA alone, within a limit of octets, in place of the octets of `out`; where no octets are its data, one
/// of `ServFail`. Fails only for lack of memory.
pub fn send_soa(
    alloc: Global,
    out: &mut Vec<u8>,
    query: &Query,
    soa: &RecordSet,
    limit: u16,
) -> Result<(), AllocError>
    requires { 512 ≤ limit }
    ensures { OnOk result (GoesOut limit query.now (soa_sections soa.now) out.new.items) }
{
    match send_soa_alone(alloc, out, query, soa, limit) {
        Ok(()) => Ok(()),
        Err(WriteError::Unwritable | WriteError::BadCode) => {
            send_code(alloc, out, query, ResponseCode::ServFail, limit)
        }
        Err(WriteError::Memory) => Err(AllocError),
        // In 512 octets header, question and OPT record find room.
        Err(WriteError::NoRoom) => unreachable!(),
    }
}

/// Writes a response of the zone's SOA alone.
fn send_soa_alone(
    alloc: Global,
    out: &mut Vec<u8>,
    query: &Query,
    soa: &RecordSet,
    limit: u16,
) -> Result<(), WriteError>
    requires { 512 ≤ limit }
    ensures { Sends limit query.now (soa_sections soa.now) out.new.items result }
{
    let answers = [soa_alone(soa)];
    let message = Message {
        query,
        authoritative: true,
        code: 0,
        size: DATAGRAM_SIZE,
        answers: &answers,
        authorities: &[],
        glue: &[],
        additionals: &[],
    };
    write_response(alloc, out, &message, limit)
}

/// The number of a response code (RFC 1035 section 4.1.1).
fn number_of(code: ResponseCode) -> u16
    ensures { result ≡ code_number code }
{
    match code {
        ResponseCode::NoError => 0,
        ResponseCode::FormErr => 1,
        ResponseCode::ServFail => 2,
        ResponseCode::NXDomain => 3,
        ResponseCode::NotImp => 4,
        ResponseCode::Refused => 5,
        ResponseCode::Other(number) => number,
    }
}
