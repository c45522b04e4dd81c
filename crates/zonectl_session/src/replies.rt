//! What is written of answers, denials and transfers of the zone.
ghost use Rattle.std.specs.Prelude.{◌≡◌, ◌≢◌, [], ◌∷◌, ◌++◌, codes, IfOk, OnOk, IsOkUnless, Some};
ghost use Rattle.std.specs.String.{string_bytes};
ghost use Rattle.zone_handler.specs.Answers.{left_in};
ghost use Rattle.zone_handler.specs.AuthLookup.{records_of};
ghost use Rattle.zone_handler.specs.Transfers.{transfer_records};
ghost use Rattle.zonectl_session.specs.Replies.{lookup_word, records_text, reply_text};
ghost use Rattle.zonectl_session.specs.Steps.{additionals_beside, found_reply, transfer_query, AsksFor, IsDenialOf, IsDenied, IsLookedUp, IsTransferAnswer, IsTransferred, AddsTo};

use crate::session::{Served, Zone};
use line_text::RecordText;
use std::alloc::AllocError;
use std::fmt;
use zone_handler::{
    AuthLookup, LookupControlFlow, LookupError, LookupOptions, LookupRecordsIter, Nsec3QueryInfo,
    Request, ZoneHandler, ZoneTransfer,
};
use zone_proto::{DNSClass, LowerName, NxProofKind, ProtoError, Query, RecordType, RrKey};

/// Answers a query at the moment of the last `secure`.
pub fn lookup(
    served: &Served,
    name: &LowerName,
    record_type: RecordType,
    options: LookupOptions,
    answer: &mut String,
) -> Result<(), AllocError>
    ensures { OnOk result
        (AddsTo (IsLookedUp served.now name.now record_type.0 options) answer.old answer.new) }
{
    let step = served
        .zone
        .lookup(name, record_type, None, options, served.moment);
    match step {
        LookupControlFlow::Continue(Ok(found)) => write_found(&found, answer),
        LookupControlFlow::Break(Ok(found)) => write_found(&found, answer),
        LookupControlFlow::Continue(Err(error)) => writeln!(answer, "error {}", ErrorWord(&error)),
        LookupControlFlow::Break(Err(error)) => writeln!(
            answer,
            "break error {}",
            ErrorWord(&error)
        ),
        LookupControlFlow::Skip => write_found(&AuthLookup::Empty, answer),
    }
}

/// Writes the records that answer a question, and those that may help beside them, each after their count.
fn write_found(found: &AuthLookup, answer: &mut String) -> Result<(), AllocError>
    ensures { OnOk result
        (string_bytes answer.new ≡ string_bytes answer.old ++ reply_text (found_reply found.now)) }
{
    write_records("answer", found, answer)?;
    match found.additionals() {
        Some(_) => write_additionals(found, answer),
        // Most answers have no such section: its line is written in one piece.
        None => answer.push_str("additional 0\n"),
    }
}

/// Writes the records of an answer after a word and their count.
fn write_records(word: &str, found: &AuthLookup, answer: &mut String) -> Result<(), AllocError>
    ensures { OnOk result
        (string_bytes answer.new
        ≡ string_bytes answer.old ++ records_text word.now (records_of found.now)) }
{
    let mut count = 0u64;
    for _ in found.iter() {
        count = count.saturating_add(1);
    }
    writeln!(answer, "{word} {count}")?;
    for record in found.iter() {
        writeln!(answer, "{}", RecordText(record))?;
    }
    Ok(())
}

/// Writes the records that may help beside an answer after their count.
fn write_additionals(found: &AuthLookup, answer: &mut String) -> Result<(), AllocError>
    ensures { OnOk result
        (string_bytes answer.new
        ≡ string_bytes answer.old
        ++ records_text (codes "additional") (additionals_beside found.now)) }
{
    let mut count = 0u64;
    for _ in additionals_of(found) {
        count = count.saturating_add(1);
    }
    writeln!(answer, "additional {count}")?;
    for record in additionals_of(found) {
        writeln!(answer, "{}", RecordText(record))?;
    }
    Ok(())
}

/// Lends the records that may help beside an answer, none if it has no such section.
fn additionals_of(found: &AuthLookup) -> LookupRecordsIter<'_>
    ensures { left_in result ≡ additionals_beside found.now }
{
    match found.additionals() {
        Some(additionals) => additionals,
        None => LookupRecordsIter::Empty,
    }
}

/// Lists the records that deny a name, or that it owns a type.
pub fn deny(served: &Served, key: &RrKey, answer: &mut String) -> Result<(), AllocError>
    ensures { OnOk result (AddsTo (IsDenied served.now key.now) answer.old answer.new) }
{
    match denial(served, key) {
        Ok(proof) => write_records("proof", &proof, answer),
        Err(error) => writeln!(answer, "error {}", ErrorWord(&error)),
    }
}

/// The records that deny a name, or a type of it.
fn denial(served: &Served, key: &RrKey) -> Result<AuthLookup, LookupError>
    ensures { IsDenialOf served.now.zone key.now served.now.zone.kind
        (LookupControlFlow.Continue result) }
{
    match ask_denial(&served.zone, key).map_result() {
        Some(answer) => answer,
        None => unreachable!(),
    }
}

/// What the zone answers to one who asks for these, whichever that is: NSEC3 records, with the zone's own parameters, where the
/// zone is of that kind; else NSEC records.
fn ask_denial(zone: &Zone, key: &RrKey) -> LookupControlFlow<AuthLookup>
    ensures answer { IsDenialOf zone.now key.now zone.now.kind result }
    ensures there { result ≢ LookupControlFlow.Skip }
{
    let options = LookupOptions { dnssec_ok: false };
    match zone.nx_proof_kind() {
        Some(
            NxProofKind::Nsec3 {
                algorithm,
                salt,
                iterations,
                ..
            },
        ) => {
            let query = denial_query(key, *algorithm, salt.as_slice(), *iterations);
            zone.nsec3_records(query, options)
        }
        _ => zone.nsec_records(&key.name, options),
    }
}

/// The query for the NSEC3 records that deny a name, or a type of it, with a zone's parameters.
fn denial_query<'q>(
    key: &'q RrKey,
    algorithm: u8,
    salt: &'q [u8],
    iterations: u16,
) -> Nsec3QueryInfo<'q>
    ensures { AsksFor key.now algorithm salt.now iterations result }
{
    Nsec3QueryInfo {
        qname: &key.name,
        qtype: key.record_type,
        has_wildcard_match: false,
        algorithm,
        salt,
        iterations,
    }
}

/// Lists the zone as one query for a transfer of it is answered.
pub fn transfer(
    served: &Served,
    options: LookupOptions,
    answer: &mut String,
) -> Result<(), AllocError>
    ensures { OnOk result (AddsTo (IsTransferred served.now options) answer.old answer.new) }
{
    match ask_transfer(served, options) {
        Ok(transfer) => write_transfer(&transfer, answer),
        Err(error) => writeln!(answer, "error {}", ErrorWord(&error)),
    }
}

/// What the zone answers to a query for its transfer.
fn ask_transfer(served: &Served, options: LookupOptions) -> Result<ZoneTransfer, LookupError>
    ensures { IsTransferAnswer served.now options result }
{
    let request = transfer_request(served.zone.origin())?;
    match served.zone.zone_transfer(&request, options, served.moment) {
        Some((reply, _)) => reply,
        None => unreachable!(),
    }
}

/// A request of one query, for the transfer of the zone of this name (AXFR, RFC 5936 section 2.1).
fn transfer_request(zone: &LowerName) -> Result<Request, ProtoError>
    ensures ok { IfOk result (λ request. request.queries.items ≡ transfer_query zone.now ∷ []) }
    ensures err { IsOkUnless result ProtoError.Memory }
{
    let query = Query {
        name: zone.clone()?,
        query_type: RecordType::AXFR,
        query_class: DNSClass::IN,
    };
    let mut queries = Vec::new(zone.alloc());
    queries.push(query)?;
    Ok(Request { queries })
}

/// Writes the records of a transfer after their count.
fn write_transfer(transfer: &ZoneTransfer, answer: &mut String) -> Result<(), AllocError>
    ensures { OnOk result
        (string_bytes answer.new
        ≡ string_bytes answer.old
        ++ records_text (codes "transfer") (transfer_records transfer.now)) }
{
    let mut count = 0u64;
    for _ in transfer {
        count = count.saturating_add(1);
    }
    writeln!(answer, "transfer {count}")?;
    for record in transfer {
        writeln!(answer, "{}", RecordText(record))?;
    }
    Ok(())
}

/// The word for an error: the name of its case, and for a response code the code's own word.
#[derive(Drop)]
struct ErrorWord<'e>(&'e LookupError);

impl fmt::Display for ErrorWord<'_> {
    ghost output = { λ word. Some (lookup_word word.0.now) };

    fn fmt<W: fmt::Write>(&self, f: &mut fmt::Formatter<W>) -> fmt::Result {
        match self.0 {
            LookupError::BadQueryCount(_) => write!(f, "BadQueryCount"),
            LookupError::NameExists => write!(f, "NameExists"),
            LookupError::ResponseCode(code) => write!(f, "{code}"),
            LookupError::NetError(_) => write!(f, "NetError"),
            LookupError::Io(_) => write!(f, "Io"),
            LookupError::Memory => write!(f, "Memory"),
        }
    }
}
