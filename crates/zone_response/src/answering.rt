//! What a query is answered with.
ghost use Rattle.std.specs.Prelude.{◌≡◌, ◌≢◌, ◌≤◌, ◌+◌, ◌&&◌, length, is_some, option_copied, IfOk, IsOkUnless};
ghost use Rattle.zone_response.specs.Paths.{path, path_of};
ghost use Rattle.zone_response.specs.Queries.{zone_of, query_of, inquiry_of};
ghost use Rattle.zone_response.specs.Responses.{bare, refusal, outcome_of, outcome_along, outcome_proven, path_hashed, query_hashed, IsResponse, IsResponseTo, IsResponseBy};
ghost use Rattle.zone_response.specs.Searches.{most_for_path, most_searches};
ghost use Rattle.zone_response.specs.Sections.{sections, sent_sets};

use crate::names::is_at_or_above;
use crate::node_sets::read_apex;
use crate::paths::{Path, walk};
use crate::query_types::is_no_data;
use crate::question::{Question, ServedZone};
use crate::response::{Response, Sent};
use crate::sections::{authorities, code_at, fails, is_authority, left_at, send_additionals};
use crate::steps::Asked;
use lookup_types::{LookupError, LookupOptions};
use std::alloc::Global;
use zone_lookup::InnerInMemory;
use zone_map::Counter;
use zone_proto::{
    DNSClass, LowerName, Nsec3Hash, RecordSet, RecordType, ResponseCode, RrKey, Signer,
};

/// The response of a zone to a question, with signatures and the NSEC or NSEC3 sets that prove it if `options` ask for DNSSEC
/// (RFC 1034 section 4.3.2). Its only error is `Memory`, a signer's included. Its sets are lent from the zone, except those
/// that a wildcard gives the name, the CNAME synthesized from a DNAME, and the addresses that an ANAME gives.
///
/// - For a class other than IN, and outside the zone, the code is `Refused`; for a type that no record has, except ANY,
///   `NotImp`; and for a zone without SOA, `ServFail`.
/// - The first zone cut on the way from the origin down to the name refers (RFC 1034 section 4.3.2 step 3b), except for DS at
///   the cut itself (RFC 4035 section 3.1.4.1). A name that exists is answered with its own sets, and otherwise the wildcard at
///   its closest encloser answers, if that exists (RFC 4592 section 3.3.1); a name that begins with `*` is a name like any
///   other.
/// - For ANY one set is chosen (RFC 8482 section 4.1), and for RRSIG the signatures of that set are sent.
/// - Below a DNAME the answer has that set and the CNAME synthesized from it for the name, with its TTL and without signatures,
///   and the search continues at the CNAME's target (RFC 6672 section 3.2), except in a query for CNAME or ANY. If that name
///   would have more than 255 octets, the code is YXDOMAIN, `Other(6)`; and `ServFail` if the set has several records (section
///   2.4), or its octets aren't the wire form of a name.
/// - An alias is followed as long as its target is a name in the zone that wasn't searched, up to 8 names. If DNAME is asked
///   for, and the alias leads back to the owner of a DNAME that the search passed, that set is the answer, since an RRset
///   appears once in a section (RFC 2181 section 5.5); the same goes for the set's signatures if RRSIG is asked for with
///   DNSSEC.
/// - With DNSSEC, the authority section has the NSEC sets (RFC 4035 section 3.1.3) or NSEC3 sets (RFC 5155 section 7.2), each
///   once, that prove a name error, absent data, an unsigned child, and each answer from a wildcard. If the zone denies by
///   NSEC3 and its hash has no digest of a name that is hashed for this, or one that makes no owner name, the code is
///   `ServFail`.
/// - A name that owns an ANAME, and neither addresses of the type that is asked for nor an alias, has those of the ANAME's
///   target, as a lookup finds them in the zone along aliases and ANAMEs: under the owner of the ANAME, with the lesser of the
///   TTLs of the ANAME and of the addresses. There is no data if the last target is a name in the zone without such addresses,
///   and the code is `ServFail` if it is outside the zone, below a zone cut or below a DNAME, since the zone can't know.
/// - With DNSSEC, each signer of the zone signs these addresses at the time `zone.moment`, as it does for a lookup; none does
///   once that is past the year 9999. If they then have no signature, and the zone has a kind of denial, the code is
///   `ServFail`, since a validator would find them bogus (RFC 4035 section 4.3).
pub fn respond<'z, S: Signer, H: Nsec3Hash>(
    zone: ServedZone<'z, S, H>,
    question: Question<'_>,
    options: LookupOptions,
) -> Result<Response<'z>, LookupError>
    ensures response { IfOk result
        (λ r. IsResponse (zone_of S.signature_of H.digest_of zone.entry)
        (query_of question.entry options.dnssec_ok) (sections r)) }
    ensures err { IsOkUnless result LookupError.Memory }
{
    respond_counted(
        zone,
        question,
        options,
        &mut Counter::new(),
        &mut Counter::new(),
    )
}

/// The response of [`respond`], and how many names are hashed for it: each adds one to `hashes`. Without DNSSEC there are none,
/// nor if the zone doesn't deny by NSEC3. Otherwise it is one for each answer from a wildcard, and for the end of the search at
/// most three for a name error and for a wildcard without the set that is asked for, and one for absent data and for a referral
/// without DS. Names that opt-out leaves out of the chain cost more: one for each ancestor of the name that exists without an
/// NSEC3 set, and two more for a name that has none itself.
///
/// And how often the zone's map is searched for the names of the search: each of these searches adds one to `searches`. It is once
/// for the origin, and for the name that is asked for, and for each that an alias or a DNAME leads on to, at most twelve times,
/// and twice more for each name between the origin and this one that is in the zone's tree (RFC 4592 section 2.2.2), and three
/// times more for each of its ancestors at and below which NSEC or NSEC3 sets are all that there is. So names of many labels cost
/// what others do. Other searches aren't counted: those for the sets that prove what is said, for a child's DS set, for the
/// targets of an ANAME and for the additional section.
pub fn respond_counted<'z, S: Signer, H: Nsec3Hash>(
    zone: ServedZone<'z, S, H>,
    question: Question<'_>,
    options: LookupOptions,
    hashes: &mut Counter,
    searches: &mut Counter,
) -> Result<Response<'z>, LookupError>
    ensures response { IfOk result
        (λ r. IsResponse (zone_of S.signature_of H.digest_of zone.entry)
        (query_of question.entry options.dnssec_ok) (sections r)) }
    ensures counted { hashes.new
        ≤ hashes.old
        + length
        (query_hashed (zone_of S.signature_of H.digest_of zone.entry)
        (query_of question.entry options.dnssec_ok)) }
    ensures searched { searches.new
        ≤ searches.old
        + most_searches (zone_of S.signature_of H.digest_of zone.entry)
        (query_of question.entry options.dnssec_ok) }
    ensures err { IsOkUnless result LookupError.Memory }
{
    let asked = Asked {
        origin: zone.origin,
        record_type: question.query_type,
        signed: options.dnssec_ok,
        is_proved: is_proved(&zone, options.dnssec_ok),
        moment: zone.moment,
    };
    let name = question.name;
    match refusal(question.query_class, asked, name) {
        Some(code) => Ok(bare(name.alloc(), code)),
        None => searched(&zone, asked, name, hashes, searches),
    }
}

/// Whether what is said to a query has to be proved.
fn is_proved<S: Signer, H: Nsec3Hash>(zone: &ServedZone<'_, S, H>, signed: bool) -> bool
    ensures { result ≡ (signed && is_some (option_copied zone.now.nx_proof_kind)) }
{
    signed && zone.nx_proof_kind.is_some()
}

/// The response to a query that is searched.
fn searched<'z, S: Signer, H: Nsec3Hash>(
    zone: &ServedZone<'z, S, H>,
    asked: Asked<'_>,
    name: &LowerName,
    hashes: &mut Counter,
    searches: &mut Counter,
) -> Result<Response<'z>, LookupError>
    requires { asked.origin.now ≡ zone.now.origin.now }
    ensures response { IfOk result
        (λ r. IsResponseTo (inquiry_of S.signature_of asked.entry zone.now.inner.now)
        (outcome_of (zone_of S.signature_of H.digest_of zone.now)
        (inquiry_of S.signature_of asked.entry zone.now.inner.now) name.now)
        (sections r)) }
    ensures counted { hashes.new
        ≤ hashes.old
        + length
        (path_hashed (zone_of S.signature_of H.digest_of zone.now) asked.entry.signed
        (path (inquiry_of S.signature_of asked.entry zone.now.inner.now) name.now)) }
    ensures searched { searches.new
        ≤ searches.old + 1
        + most_for_path (inquiry_of S.signature_of asked.entry zone.now.inner.now) name.now }
    ensures err { IsOkUnless result LookupError.Memory }
{
    searches.add_one();
    let apex = read_apex(zone.inner, zone.origin)?;
    match apex.first_asked {
        Some(soa) => along(
            zone,
            asked,
            soa,
            walk(zone.inner, asked, apex, name, searches)?,
            hashes,
        ),
        None => Ok(bare(name.alloc(), ResponseCode::ServFail)),
    }
}

/// The response along a path, in a zone with this SOA set.
fn along<'z, S: Signer, H: Nsec3Hash>(
    zone: &ServedZone<'z, S, H>,
    asked: Asked<'_>,
    soa: &'z RecordSet,
    path: Path<'z>,
    hashes: &mut Counter,
) -> Result<Response<'z>, LookupError>
    ensures response { IfOk result
        (λ r. IsResponseTo (inquiry_of S.signature_of asked.entry zone.now.inner.now)
        (outcome_along (zone_of S.signature_of H.digest_of zone.now) asked.entry.signed soa.now
        (path_of path.entry)) (sections r)) }
    ensures counted { hashes.new
        ≤ hashes.old
        + length
        (path_hashed (zone_of S.signature_of H.digest_of zone.now) asked.entry.signed
        (path_of path.entry)) }
    ensures err { IsOkUnless result LookupError.Memory }
{
    if fails(&path.end) {
        return Ok(bare(*path.answers.allocator(), ResponseCode::ServFail));
    }
    proven(zone, asked, soa, path, hashes)
}

/// The response of a path that doesn't fail.
fn proven<'z, S: Signer, H: Nsec3Hash>(
    zone: &ServedZone<'z, S, H>,
    asked: Asked<'_>,
    soa: &'z RecordSet,
    path: Path<'z>,
    hashes: &mut Counter,
) -> Result<Response<'z>, LookupError>
    ensures response { IfOk result
        (λ r. IsResponseTo (inquiry_of S.signature_of asked.entry zone.now.inner.now)
        (outcome_proven (zone_of S.signature_of H.digest_of zone.now) asked.entry.signed soa.now
        (path_of path.entry)) (sections r)) }
    ensures counted { hashes.new
        ≤ hashes.old
        + length
        (path_hashed (zone_of S.signature_of H.digest_of zone.now) asked.entry.signed
        (path_of path.entry)) }
    ensures err { IsOkUnless result LookupError.Memory }
{
    match authorities(
        zone,
        asked.signed,
        soa,
        path.made.as_slice(),
        &path.end,
        hashes,
    ) {
        Ok(authorities) => by_path(zone.inner, asked, path, authorities),
        Err(error) => unproven(path, error),
    }
}

/// The response of a path that says what can't be proved for this error; or lack of memory, if it is that.
fn unproven<'z>(path: Path<'z>, error: LookupError) -> Result<Response<'z>, LookupError>
    ensures response { IfOk result
        (λ r. (sections r ≡ bare ResponseCode.ServFail) × (error ≢ LookupError.Memory)) }
    ensures err { IsOkUnless result LookupError.Memory }
{
    match error {
        LookupError::Memory => Err(LookupError::Memory),
        _ => Ok(bare(*path.answers.allocator(), ResponseCode::ServFail)),
    }
}

/// The response of a path with this authority section.
fn by_path<'z, S: Signer>(
    inner: &'z InnerInMemory<S>,
    asked: Asked<'_>,
    path: Path<'z>,
    authorities: Vec<Sent<'z>>,
) -> Result<Response<'z>, LookupError>
    ensures response { IfOk result
        (λ r. IsResponseBy (inquiry_of S.signature_of asked.entry inner.now) (path_of path.entry)
        (sent_sets authorities.entry) (sections r)) }
    ensures err { IsOkUnless result LookupError.Memory }
{
    let Path {
        answers,
        made: _,
        end,
    } = path;
    let alloc = *answers.allocator();
    let mut additionals = Vec::new(alloc);
    let mut glue = Vec::new(alloc);
    send_additionals(inner, asked, &answers, &end, &mut additionals, &mut glue)?;
    Ok(Response {
        code: code_at(&end),
        authoritative: is_authority(&end, &answers),
        answers,
        authorities,
        additionals,
        glue,
        left_at: left_at(end),
    })
}

/// The code of a query that isn't searched.
fn refusal(query_class: DNSClass, asked: Asked<'_>, name: &LowerName) -> Option<ResponseCode>
    ensures { result
        ≡ refusal asked.entry.origin.now
        (record {
          name = name.now;
          record_type = asked.entry.record_type.0;
          class = query_class.0;
          signed = asked.entry.signed;
        }) }
{
    if query_class != DNSClass::IN || !is_at_or_above(asked.origin, name) {
        return Some(ResponseCode::Refused);
    }
    if is_no_data(asked.record_type) {
        return Some(ResponseCode::NotImp);
    }
    None
}

/// A response of a code alone.
fn bare<'z>(alloc: Global, code: ResponseCode) -> Response<'z>
    ensures { sections result ≡ bare code }
{
    Response {
        code,
        authoritative: false,
        answers: Vec::new(alloc),
        authorities: Vec::new(alloc),
        additionals: Vec::new(alloc),
        glue: Vec::new(alloc),
        left_at: None,
    }
}
