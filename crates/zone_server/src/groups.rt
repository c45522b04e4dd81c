//! The sets of a response as groups of records, each of which is sent whole or not at all.
ghost use Rattle.std.specs.Prelude.{◌≡◌, [], ◌∷◌, map, IfErr, IfNone, IfOk, IfSome, OnOk};
ghost use Rattle.std.specs.List.{flat_map, list_all};
ghost use Rattle.zone_proto.specs.declared.record.Record.{Record as RecordData};
ghost use Rattle.zone_lookup.specs.FoundSets.{found_set};
ghost use Rattle.zone_response.specs.Sections.{covers, own_signatures, sections, sent_set};
ghost use Rattle.message_writing.specs.Outcomes.{FailsToPutAny};
ghost use Rattle.message_writing.specs.KeptText.{AreKept};
ghost use Rattle.message_writing.specs.Responses.{records_of, with_ttl};
ghost use Rattle.message_writing.specs.Writers.{CanGoOn};
ghost use Rattle.zone_server.specs.Answers.{records_in, records_sent};
ghost use Rattle.zone_server.specs.Sending.{PutsSections, PutsSets};

use message_writing::{Group, KeptRecords, ResponseWriter, Section, WriteError, keep_records};
use std::alloc::Global;
use zone_proto::{LowerName, ProtoError, Record};
use zone_response::{Part, Response, Sent};

/// Appends the sets of a response, section by section, to what is written of it.
pub(crate) fn put_sections(
    alloc: Global,
    writer: &mut ResponseWriter<'_>,
    out: &mut Vec<u8>,
    response: &Response<'_>,
) -> Result<(), WriteError>
    requires { CanGoOn writer.old out.old.items }
    ensures put { OnOk result (PutsSections (sections response.now)
        writer.old out.old.items writer.new out.new.items) }
    ensures going { OnOk result (CanGoOn writer.new out.new.items) }
    ensures err { IfErr result (FailsToPutAny (records_in (sections response.now))) }
{
    put_sets(
        alloc,
        writer,
        out,
        Section::Answers,
        response.answers.as_slice(),
    )?;
    put_sets(
        alloc,
        writer,
        out,
        Section::Authorities,
        response.authorities.as_slice(),
    )?;
    put_sets(alloc, writer, out, Section::Glue, response.glue.as_slice())?;
    put_sets(
        alloc,
        writer,
        out,
        Section::Additionals,
        response.additionals.as_slice(),
    )?;
    Ok(())
}

/// Appends sets to a section, each as one group.
fn put_sets(
    alloc: Global,
    writer: &mut ResponseWriter<'_>,
    out: &mut Vec<u8>,
    section: Section,
    sets: &[Sent<'_>],
) -> Result<(), WriteError>
    requires { CanGoOn writer.old out.old.items }
    ensures put { OnOk result (PutsSets section (map sent_set sets.now)
        writer.old out.old.items writer.new out.new.items) }
    ensures going { OnOk result (CanGoOn writer.new out.new.items) }
    ensures err { IfErr result (FailsToPutAny (flat_map records_sent (map sent_set sets.now))) }
{
    for sent in sets {
        put_set(alloc, writer, out, section, sent)?;
    }
    Ok(())
}

/// Appends a set to a section, whole or not at all, as [`ResponseWriter::put`] appends a group. `Unwritable` if no octets are the data of one of its records, and
/// `Memory`; the response can't go on then.
pub fn put_set(
    alloc: Global,
    writer: &mut ResponseWriter<'_>,
    out: &mut Vec<u8>,
    section: Section,
    sent: &Sent<'_>,
) -> Result<(), WriteError>
    requires { CanGoOn writer.old out.old.items }
    ensures put { OnOk result (PutsSets section (sent_set sent.now ∷ [])
        writer.old out.old.items writer.new out.new.items) }
    ensures going { OnOk result (CanGoOn writer.new out.new.items) }
    ensures err { IfErr result (FailsToPutAny (records_sent (sent_set sent.now))) }
{
    match signatures_lent(sent) {
        Some(signatures) => put_records(writer, out, section, sent, signatures),
        None => {
            let own = own_signatures(alloc, sent)?;
            put_records(writer, out, section, sent, own.as_slice())
        }
    }
}

/// Appends what is sent of a set, with these signatures, to a section.
fn put_records(
    writer: &mut ResponseWriter<'_>,
    out: &mut Vec<u8>,
    section: Section,
    sent: &Sent<'_>,
    signatures: &[Record],
) -> Result<(), WriteError>
    requires going { CanGoOn writer.old out.old.items }
    requires signatures { map (with_ttl sent.now.ttl) signatures.now
        ≡ (sent_set sent.now).signatures }
    ensures put { OnOk result (PutsSets section (sent_set sent.now ∷ [])
        writer.old out.old.items writer.new out.new.items) }
    ensures going { OnOk result (CanGoOn writer.new out.new.items) }
    ensures err { IfErr result (FailsToPutAny (records_sent (sent_set sent.now))) }
{
    writer.put(out, section, &group_of(sent, signatures))
}

/// What is sent of a set, with these signatures, as a group.
fn group_of<'s>(sent: &'s Sent<'_>, signatures: &'s [Record]) -> Group<'s>
    requires { map (with_ttl sent.now.ttl) signatures.now ≡ (sent_set sent.now).signatures }
    ensures { records_of result ≡ records_sent (sent_set sent.now) }
{
    Group {
        records: records_out(sent),
        signatures,
        ttl: sent.ttl,
    }
}

/// Keeps what is sent of a set, below an origin, as the octets that go out. None if no octets are the data of one of its records. Its only error is `Memory`.
pub fn keep_set(
    alloc: Global,
    origin: &LowerName,
    sent: &Sent<'_>,
) -> Result<Option<KeptRecords>, ProtoError>
    ensures { IfOk result (λ kept. IfSome kept
        (AreKept origin.now (records_sent (sent_set sent.now)))) }
{
    match signatures_lent(sent) {
        Some(signatures) => Ok(keep_records(alloc, origin, &group_of(sent, signatures))?),
        None => {
            let own = own_signatures(alloc, sent)?;
            Ok(keep_records(alloc, origin, &group_of(sent, own.as_slice()))?)
        }
    }
}

/// The records of a set that are sent.
fn records_out<'s>(sent: &'s Sent<'_>) -> &'s [Record]
    ensures { map (with_ttl sent.now.ttl) result.now ≡ (sent_set sent.now).records }
{
    match sent.part {
        Part::Signatures => &[],
        Part::Records | Part::Signed => sent.set.set().as_slice(),
    }
}

/// The signatures of a set that are sent, if these are all that it has, or none.
fn signatures_lent<'s>(sent: &'s Sent<'_>) -> Option<&'s [Record]>
    ensures lent { IfSome result (λ signatures. map (with_ttl sent.now.ttl) signatures.now
        ≡ (sent_set sent.now).signatures) }
    ensures others { IfNone result (map (with_ttl sent.now.ttl)
        (own_signatures (found_set sent.now.set)) ≡ (sent_set sent.now).signatures) }
{
    match sent.part {
        Part::Records => Some(&[]),
        Part::Signed | Part::Signatures => all_if_own(sent),
    }
}

/// The signatures of a set, if all cover its type.
fn all_if_own<'s>(sent: &'s Sent<'_>) -> Option<&'s [Record]>
    ensures { IfSome result
        (λ signatures. signatures.now ≡ own_signatures (found_set sent.now.set)) }
{
    if are_own(sent) {
        return Some(sent.set.set().rrsigs());
    }
    None
}

/// Whether all signatures of a set cover its type.
fn are_own(sent: &Sent<'_>) -> bool
    ensures { result
        ≡ list_all (λ (r : RecordData). covers (found_set sent.now.set).record_type r.rdata)
        (found_set sent.now.set).signatures }
{
    for rrsig in sent.set.set().rrsigs() {
        if !sent.covers(rrsig) {
            return false;
        }
    }
    true
}

/// Copies of the signatures of a set that cover its type.
fn own_signatures(alloc: Global, sent: &Sent<'_>) -> Result<Vec<Record>, ProtoError>
    ensures { IfOk result (λ v. v.items ≡ own_signatures (found_set sent.now.set)) }
{
    let mut signatures = Vec::new(alloc);
    for rrsig in sent.set.set().rrsigs() {
        if sent.covers(rrsig) {
            signatures.push(rrsig.clone()?)?;
        }
    }
    Ok(signatures)
}
