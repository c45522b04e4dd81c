//! What is kept of a zone to refer what is asked at and below a name.
ghost use Rattle.std.specs.Prelude.{◌≡◌, [], false, IfOk, IfSome};
ghost use Rattle.zone_proto.specs.declared.response_code.ResponseCode.TheVariants.{NoError};
ghost use Rattle.zone_response.specs.Queries.{zone_of};
ghost use Rattle.zone_response.specs.Sections.{sections};
ghost use Rattle.ready_referrals.specs.Referrals.{authorities_for, IsKeptReferral, IsReferral, SaysReferral};

use crate::additional::{Additional, keep_additional};
use crate::kept_sets::keep_sets;
use lookup_types::LookupOptions;
use message_writing::KeptRecords;
use std::alloc::{AllocError, Global};
use zone_proto::{DNSClass, LowerName, Nsec3Hash, ProtoError, RecordType, ResponseCode, Signer};
use zone_response::{Question, Response, ServedZone, respond};

/// What is kept of a zone to refer what is asked at and below a name.
#[derive(Drop)]
pub struct ReadyReferral {
    /// The name.
    pub(crate) cut: LowerName,
    /// The authority section with DNSSEC, which begins with the NS set of the zone cut.
    pub(crate) authorities: Vec<KeptRecords>,
    /// The glue, which has to go (RFC 9471 section 3.1).
    pub(crate) glue: Vec<KeptRecords>,
    /// What else goes into the additional section (RFC 9471 section 3.2).
    pub(crate) additional: Additional,
}

impl ReadyReferral {
    /// The authority section, with DNSSEC, or without: then it is the NS set alone.
    pub(crate) fn authorities(&self, signed: bool) -> &[KeptRecords]
        ensures { result.now ≡ authorities_for signed self.now }
    {
        let all = self.authorities.as_slice();
        if signed || all.is_empty() {
            all
        } else {
            &all[..1]
        }
    }
}

/// Keeps what refers at and below a name, if the response of the zone to a query for its NS is a referral. None where it isn't, and where no octets are
/// the data of a record. Fails only for lack of memory.
pub(crate) fn ready_referral<S: Signer, H: Nsec3Hash>(
    alloc: Global,
    zone: &ServedZone<'_, S, H>,
    cut: &LowerName,
) -> Result<Option<ReadyReferral>, AllocError>
    ensures { IfOk result (λ referral. IfSome referral
        (IsReferral (zone_of S.signature_of H.digest_of zone.now))) }
{
    let Some(response) = referral_of(zone, cut)? else {
        return Ok(None);
    };
    match kept_referral(alloc, cut, &response) {
        Ok(referral) => Ok(referral),
        Err(_) => Err(AllocError),
    }
}

/// The response to a query for the NS of a name, if it is a referral.
fn referral_of<'z, S: Signer, H: Nsec3Hash>(
    zone: &ServedZone<'z, S, H>,
    cut: &LowerName,
) -> Result<Option<Response<'z>>, AllocError>
    ensures { IfOk result (λ referral. IfSome referral (λ r.
        SaysReferral (zone_of S.signature_of H.digest_of zone.now) cut.now (sections r))) }
{
    let question = Question {
        name: cut,
        query_type: RecordType::NS,
        query_class: DNSClass::IN,
    };
    match respond(lent(zone), question, LookupOptions { dnssec_ok: true }) {
        Ok(response) => Ok(if_referral(response)),
        Err(_) => Err(AllocError),
    }
}

/// A response, if it is a referral: without an error and without answers, and the server is no authority for the name.
fn if_referral(response: Response<'_>) -> Option<Response<'_>>
    ensures same { IfSome result (λ r. r ≡ response.entry) }
    ensures code { IfSome result (λ r. (sections r).code ≡ NoError) }
    ensures authority { IfSome result (λ r. (sections r).authoritative ≡ false) }
    ensures answers { IfSome result (λ r. (sections r).answers ≡ []) }
{
    if response.code == ResponseCode::NoError
        && !response.authoritative
        && response.answers.is_empty()
    {
        return Some(response);
    }
    None
}

/// A zone, lent once more.
fn lent<'z, S: Signer, H: Nsec3Hash>(zone: &ServedZone<'z, S, H>) -> ServedZone<'z, S, H>
    ensures { result ≡ zone.now }
{
    ServedZone {
        origin: zone.origin,
        inner: zone.inner,
        denials: zone.denials,
        nx_proof_kind: zone.nx_proof_kind,
        hash: zone.hash,
        moment: zone.moment,
    }
}

/// Keeps the sets of a referral below a name. None where no octets are the data of a record.
fn kept_referral(
    alloc: Global,
    cut: &LowerName,
    response: &Response<'_>,
) -> Result<Option<ReadyReferral>, ProtoError>
    ensures { IfOk result (λ referral. IfSome referral (λ kept.
        IsKeptReferral cut.now (sections response.now) kept)) }
{
    let Some(authorities) = keep_sets(alloc, cut, response.authorities.as_slice())? else {
        return Ok(None);
    };
    let Some(glue) = keep_sets(alloc, cut, response.glue.as_slice())? else {
        return Ok(None);
    };
    let sets = response.additionals.as_slice();
    let Some(additional) = keep_additional(alloc, cut, sets)? else {
        return Ok(None);
    };
    Ok(Some(ReadyReferral {
        cut: cut.clone()?,
        authorities,
        glue,
        additional,
    }))
}
