//! Messages that may ask for a zone, or be signed.
ghost use Rattle.std.specs.Prelude.{◌≡◌, ◌<◌, option_copied, IfOk, Ok};
ghost use Rattle.message_reading.specs.Headers.{header_of};
ghost use Rattle.message_reading.specs.Queries.{query_of};
ghost use Rattle.message_tsig.specs.Checking.{checked_kept};
ghost use Rattle.message_tsig.specs.Signing.{refused_text};
ghost use Rattle.transfer_messages.specs.Opening.{four_bits, IsAsked, IsAuthenticRequest, Opens, OpensBy, OpensHeader, OpensRefused, OpensSigned, OpensUnsigned};

use crate::sealing::Sealing;
use message_reading::{Header, Query, ReadError, read_header, read_query};
use message_tsig::{Checked, Key, Tsig, TsigError, check_request, refuse};
use std::alloc::{AllocError, Global};
use zone_server::{MALFORMED, Transport, asks_for_transfer, write_bare_header};

/// What a message is found to be.
#[derive(Drop)]
pub enum Opened<'k> {
    /// It has no TSIG, and asks for no transfer: it is answered as any message is.
    Other,
    /// Its TSIG can't be read, or is refused, and the response is there.
    Refused,
    /// It was found signed, and asks for no transfer: the octets are the message without its TSIG, and `seal` signs the response to it.
    Signed(Vec<u8>, Sealing),
    /// It asks for a transfer.
    Transfer(Request<'k>),
}

/// A request for a zone, or for its changes.
#[derive(Drop)]
pub struct Request<'k> {
    /// The message without its TSIG.
    pub message: Vec<u8>,
    /// What it was read as.
    pub query: Query,
    /// The key under which it was found signed, if it was.
    pub key: Option<&'k Key>,
    /// How the response is signed, if the request was.
    pub sealing: Option<Sealing>,
}

/// Checks the TSIG of a message, if it has one, with the keys of a server, at a moment in seconds since 1970, and finds out whether the
/// message asks for a transfer: IXFR does, and AXFR over TCP.
///
/// Where the TSIG can't be read, FORMERR is written in place of the octets of `out`, a header alone (RFC 8945 section 5.2); where it is refused,
/// NOTAUTH with the error, signed for BADTIME and BADTRUNC (section 5.3.2). Fails only for lack of memory.
pub fn open<'k>(
    alloc: Global,
    keys: &'k [Key],
    now: u64,
    transport: Transport,
    message: &[u8],
    out: &mut Vec<u8>,
) -> Result<Opened<'k>, AllocError>
    ensures opens { IfOk result
        (λ opened. Opens keys.now now transport message.now opened out.new.items) }
    ensures authentic { IfOk result (IsAuthenticRequest keys.now now message.now) }
{
    match check_request(alloc, keys, now, message) {
        Ok(checked) => open_checked(alloc, now, transport, message, checked, out),
        Err(_) => Err(AllocError),
    }
}

/// Reads a message by what its TSIG is found to be.
fn open_checked<'k>(
    alloc: Global,
    now: u64,
    transport: Transport,
    message: &[u8],
    checked: Checked<'k>,
    out: &mut Vec<u8>,
) -> Result<Opened<'k>, AllocError>
    ensures { IfOk result (λ opened. OpensBy now transport message.now
        (checked_kept checked.entry) opened out.new.items) }
{
    match checked {
        Checked::Unsigned => open_unsigned(alloc, transport, message),
        Checked::Malformed => refuse_malformed(message, out),
        Checked::Refused(tsig, error, key, rest) => {
            refuse_tsig(alloc, &tsig, error, key, now, rest.as_slice(), out)
        }
        Checked::Signed(tsig, key, rest) => open_signed(alloc, transport, &tsig, key, rest),
    }
}

/// Reads a message without a TSIG.
#[tactic(auto, using(crate::proofs::Asked::unsigned_request, crate::proofs::Asked::unsigned_other))]
fn open_unsigned<'k>(
    alloc: Global,
    transport: Transport,
    message: &[u8],
) -> Result<Opened<'k>, AllocError>
    ensures { IfOk result (OpensUnsigned transport message.now (query_of message.now)) }
{
    match asked(alloc, transport, message)? {
        Some(query) => Ok(Opened::Transfer(Request {
            message: Vec::from_slice(alloc, message)?,
            query,
            key: None,
            sealing: None,
        })),
        None => Ok(Opened::Other),
    }
}

/// Reads a message that was found signed, without its TSIG.
#[tactic(auto, using(crate::proofs::Asked::signed_request, crate::proofs::Asked::signed_other))]
fn open_signed<'k>(
    alloc: Global,
    transport: Transport,
    tsig: &Tsig,
    key: &'k Key,
    message: Vec<u8>,
) -> Result<Opened<'k>, AllocError>
    ensures { IfOk result
        (OpensSigned transport tsig.now key.now message.items (query_of message.items)) }
{
    let Ok(sealing) = Sealing::new(alloc, tsig, key) else {
        return Err(AllocError);
    };
    match asked(alloc, transport, message.as_slice())? {
        Some(query) => Ok(Opened::Transfer(Request {
            message,
            query,
            key: Some(key),
            sealing: Some(sealing),
        })),
        None => Ok(Opened::Signed(message, sealing)),
    }
}

/// The query that a message is read as, if it asks for a transfer.
#[tactic(auto, using(crate::proofs::Asked::asked_read, crate::proofs::Asked::none_asked))]
fn asked(alloc: Global, transport: Transport, message: &[u8]) -> Result<Option<Query>, AllocError>
    ensures { IfOk result (IsAsked transport (query_of message.now)) }
{
    match read_query(alloc, message) {
        Ok(query) => Ok(if_transfer(transport, query)),
        Err(ReadError::Memory) => Err(AllocError),
        Err(_) => Ok(None),
    }
}

/// A query, if it asks for a transfer.
fn if_transfer(transport: Transport, query: Query) -> Option<Query>
    ensures { IsAsked transport (Ok query) result }
{
    if asks_for_transfer(transport, &query) {
        Some(query)
    } else {
        None
    }
}

/// Answers a message whose TSIG can't be read.
fn refuse_malformed<'k>(message: &[u8], out: &mut Vec<u8>) -> Result<Opened<'k>, AllocError>
    ensures { IfOk result
        (λ opened. OpensHeader (header_of message.now) opened out.new.items) }
{
    match read_header(message) {
        Some((header, _)) => {
            write_bare_header(out, four_bits(header), MALFORMED)?;
            Ok(Opened::Refused)
        }
        None => Ok(Opened::Other),
    }
}

/// The same header, whose opcode has four bits.
fn four_bits(header: Header) -> Header
    ensures value { result ≡ four_bits header }
    ensures small { result.opcode < 16 }
{
    Header {
        opcode: header.opcode % 16,
        ..header
    }
}

/// Answers a message whose TSIG is refused.
fn refuse_tsig<'k>(
    alloc: Global,
    tsig: &Tsig,
    error: TsigError,
    key: Option<&Key>,
    now: u64,
    message: &[u8],
    out: &mut Vec<u8>,
) -> Result<Opened<'k>, AllocError>
    ensures { IfOk result (λ opened. OpensRefused
        (refused_text tsig.now error (option_copied key.entry) now message.now)
        opened out.new.items) }
{
    match refuse(alloc, tsig, error, key, now, message) {
        Ok(text) => {
            *out = text;
            Ok(Opened::Refused)
        }
        Err(_) => Err(AllocError),
    }
}
