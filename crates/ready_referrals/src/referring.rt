//! Names at and below the zone cuts of a zone, referred by what is kept of the zone.
ghost use Rattle.std.specs.Prelude.{◌≡◌, IfOk, IsTrue, OnOk};
ghost use Rattle.zone_proto.specs.Names.{lower};
ghost use Rattle.zone_proto.specs.Sets.{RRset};
ghost use Rattle.message_writing.specs.Writers.{CanGoOn};
ghost use Rattle.zone_response.specs.Queries.{Zone};
ghost use Rattle.zone_server.specs.Answers.{asked_of, IsSent};
ghost use Rattle.zone_server.specs.Sending.{PutsSections};
ghost use Rattle.ready_referrals.specs.Referrals.{referral, AreReferrals, IsReferral, IsReferralBy, IsReferred};

use crate::keeping::ReadyReferral;
use crate::kept_cuts::ReadyReferrals;
use crate::kept_sets::put_kept_sets;
use message_reading::{Query, read_header};
use message_writing::{ResponseHead, ResponseWriter, Section, WriteError};
use std::alloc::{AllocError, Global};
use zone_proto::{DNSClass, LowerName, RecordType};
use zone_response::is_no_data;
use zone_server::{DATAGRAM_SIZE, asks_for_dnssec};

/// Answers a query for a name at or below a zone cut that is kept, in place of the octets of `out`. Whether it did; if not, the octets of `out` are no
/// response. `name` is that of the question in lower case. A query for DS isn't answered, which at the cut itself is for the zone to answer (RFC 4035
/// section 3.1.4.1), nor one whose question has upper-case letters in the name of the cut, nor one whose limit cuts the response: names are shortened to the
/// cut alone here, and the zone may find one that is shorter. Fails only for lack of memory.
pub fn put_referral(
    alloc: Global,
    referrals: &ReadyReferrals,
    query: &Query,
    name: &LowerName,
    limit: u16,
    out: &mut Vec<u8>,
) -> Result<bool, AllocError>
    requires kept { (z : Zone) × AreReferrals z referrals.now }
    requires name { name.now ≡ lower query.now.question.name }
    ensures { IfOk result (λ referred. IsTrue referred → (z : Zone) → AreReferrals z referrals.now
        → IsReferred z limit query.now out.new.items) }
{
    let question = &query.question;
    if question.query_class != DNSClass::IN
        || is_no_data(question.query_type)
        || question.query_type == RecordType::DS
    {
        return Ok(false);
    }
    let Some(referral) = referrals.find(name) else {
        return Ok(false);
    };
    match write_referral(alloc, referral, query, limit, out) {
        Ok(written) => Ok(written),
        Err(WriteError::Memory) => Err(AllocError),
        Err(_) => Ok(false),
    }
}

/// Writes a referral, and says whether it did, and none of it was cut.
fn write_referral(
    alloc: Global,
    kept: &ReadyReferral,
    query: &Query,
    limit: u16,
    out: &mut Vec<u8>,
) -> Result<bool, WriteError>
    requires { (z : Zone) × IsReferral z kept.now }
    ensures { IfOk result (λ written. IsTrue written → (z : Zone) (soa ns : RRset)
        → IsReferralBy z soa ns kept.now
        → IsSent limit query.now (referral z soa (asked_of query.now).signed ns)
        out.new.items) }
{
    let head = ResponseHead {
        query,
        authoritative: false,
        code: 0,
        size: DATAGRAM_SIZE,
    };
    let mut writer = ResponseWriter::begin(alloc, out, head, None, limit)?;
    let signed = asks_for_dnssec(query);
    if !put_sections(&mut writer, out, kept, signed)? {
        return Ok(false);
    }
    writer.finish(out)?;
    Ok(!is_truncated(out.as_slice()))
}

/// Whether a message was cut.
fn is_truncated(message: &[u8]) -> bool {
    match read_header(message) {
        Some((header, _)) => header.truncated,
        None => false,
    }
}

/// Appends the sections of a referral, and says whether it did: whether the zone cut stands at the end of the question's name.
fn put_sections(
    writer: &mut ResponseWriter<'_>,
    out: &mut Vec<u8>,
    kept: &ReadyReferral,
    signed: bool,
) -> Result<bool, AllocError>
    requires kept { (z : Zone) × IsReferral z kept.now }
    requires going { CanGoOn writer.old out.old.items }
    ensures put { IfOk result (λ put. IsTrue put → (z : Zone) (soa ns : RRset)
        → IsReferralBy z soa ns kept.now
        → PutsSections (referral z soa signed ns)
        writer.old out.old.items writer.new out.new.items) }
    ensures going { OnOk result (CanGoOn writer.new out.new.items) }
{
    let Some(place) = writer.place_of(out, &kept.cut) else {
        return Ok(false);
    };
    put_kept_sets(
        writer,
        out,
        Section::Authorities,
        place,
        kept.authorities(signed),
    )?;
    put_kept_sets(writer, out, Section::Glue, place, kept.glue.as_slice())?;
    put_kept_sets(
        writer,
        out,
        Section::Additionals,
        place,
        kept.additional.sets(signed),
    )?;
    Ok(true)
}
