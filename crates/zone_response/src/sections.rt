//! The parts of a response by how its search ends.
ghost use Rattle.std.specs.Prelude.{◌≡◌, ◌≤◌, ◌+◌, ◌⊎◌, ◌++◌, false, true, None, cond, length, map, IfOk, IfErr, OnOk, IsOkUnless, option_copied};
ghost use Rattle.zone_response.specs.Responses.{code_at, is_authority, negative_ttl, ds_at, referral_sets, end_sets, proof_sets, lacks_proofs, lacks_proofs_with, hashed_for, hashed_with, authority_sets, authority_sets_with, beside_last, additional_sets, glue_at, left_at, fails};
ghost use Rattle.zone_response.specs.Additional.{beside};
ghost use Rattle.zone_response.specs.Queries.{inquiry_of, zone_of};
ghost use Rattle.zone_response.specs.Sections.{sent_set, sent_sets};
ghost use Rattle.zone_response.specs.Steps.{end_of};

use crate::additional::{send_beside, send_servers};
use crate::denials::{proofs, send_proofs};
use crate::lists::{lend, lend_for};
use crate::question::ServedZone;
use crate::response::{Part, Sent};
use crate::steps::{Asked, End, part_for};
use lookup_types::LookupError;
use zone_lookup::InnerInMemory;
use zone_lookup::start_of_authority::first_soa;
use zone_map::Counter;
use zone_proto::{
    LowerName, Nsec3Hash, ProtoError, RecordSet, RecordType, ResponseCode, RrKey, Signer,
};

// The code of a name that a DNAME makes too long (RFC 6672 section 2.2).
const YXDOMAIN: ResponseCode = ResponseCode::Other(6);

/// Whether a search fails at what this server doesn't answer.
pub(crate) fn fails(end: &End<'_>) -> bool
    ensures { result ≡ fails (end_of end.now) }
{
    match end {
        End::Failed => true,
        _ => false,
    }
}

/// The code: that of the last name.
pub(crate) fn code_at(end: &End<'_>) -> ResponseCode
    ensures { result ≡ code_at (end_of end.now) }
{
    match end {
        End::Missing(missing) if !missing.is_there => ResponseCode::NXDomain,
        End::TooLong => YXDOMAIN,
        _ => ResponseCode::NoError,
    }
}

/// Whether the server is an authority for the first name.
pub(crate) fn is_authority(end: &End<'_>, answers: &[Sent<'_>]) -> bool
    ensures { result ≡ is_authority (end_of end.now) (map sent_set answers.now) }
{
    match end {
        End::Referred(_) => !answers.is_empty(),
        _ => true,
    }
}

/// Where a chain leaves the zone.
pub(crate) fn left_at(end: End<'_>) -> Option<LowerName>
    ensures { result ≡ left_at (end_of end.entry) }
{
    match end {
        End::Outside(name) => Some(name),
        _ => None,
    }
}

/// The TTL of a negative response, from the zone's SOA set.
pub fn negative_ttl(soa: &RecordSet) -> u32
    ensures { result ≡ negative_ttl soa.now }
{
    match first_soa(soa) {
        Some(start) => soa.ttl().min(start.minimum),
        None => soa.ttl(),
    }
}

/// The authority section. It counts the names that are hashed for it. Refused by `Memory`, and as the hash of a zone that denies by
/// NSEC3 refuses a name.
pub(crate) fn authorities<'z, S: Signer, H: Nsec3Hash>(
    zone: &ServedZone<'z, S, H>,
    signed: bool,
    soa: &'z RecordSet,
    made: &[LowerName],
    end: &End<'z>,
    hashes: &mut Counter,
) -> Result<Vec<Sent<'z>>, LookupError>
    ensures ok { IfOk result
        (λ list. sent_sets list
        ≡ authority_sets (zone_of S.signature_of H.digest_of zone.now) signed soa.now made.now
        (end_of end.now)) }
    ensures provable { OnOk result
        (lacks_proofs (zone_of S.signature_of H.digest_of zone.now) signed made.now
        (end_of end.now)
        ≡ false) }
    ensures counted { hashes.new
        ≤ hashes.old
        + length
        (hashed_for (zone_of S.signature_of H.digest_of zone.now) signed made.now
        (end_of end.now)) }
    ensures err { IfErr result
        (λ e. (e ≡ LookupError.Memory)
        ⊎ (lacks_proofs (zone_of S.signature_of H.digest_of zone.now) signed made.now
        (end_of end.now)
        ≡ true)) }
{
    let ds = sent_ds(zone.inner, signed, end)?;
    authorities_with(zone, ds, signed, soa, made, end, hashes)
}

/// The authority section, where a child to which the search is referred has this DS set.
fn authorities_with<'z, S: Signer, H: Nsec3Hash>(
    zone: &ServedZone<'z, S, H>,
    ds: Option<&'z RecordSet>,
    signed: bool,
    soa: &'z RecordSet,
    made: &[LowerName],
    end: &End<'z>,
    hashes: &mut Counter,
) -> Result<Vec<Sent<'z>>, LookupError>
    ensures ok { IfOk result
        (λ list. sent_sets list
        ≡ authority_sets_with (zone_of S.signature_of H.digest_of zone.now)
        (option_copied ds.entry) signed soa.now made.now (end_of end.now)) }
    ensures provable { OnOk result
        (lacks_proofs_with (zone_of S.signature_of H.digest_of zone.now)
        (option_copied ds.entry) signed made.now (end_of end.now)
        ≡ false) }
    ensures counted { hashes.new
        ≤ hashes.old
        + length
        (hashed_with (zone_of S.signature_of H.digest_of zone.now) (option_copied ds.entry)
        signed made.now (end_of end.now)) }
    ensures err { IfErr result
        (λ e. (e ≡ LookupError.Memory)
        ⊎ (lacks_proofs_with (zone_of S.signature_of H.digest_of zone.now)
        (option_copied ds.entry) signed made.now (end_of end.now)
        ≡ true)) }
{
    let mut list = Vec::new(zone.origin.alloc());
    send_end(soa, end, ds, signed, &mut list)?;
    let sets = proof_sets(zone, signed, made, end, ds, hashes)?;
    send_proofs(sets, negative_ttl(soa), &mut list)?;
    Ok(list)
}

/// The sets that prove what is said, where the query asks for DNSSEC.
fn proof_sets<'z, S: Signer, H: Nsec3Hash>(
    zone: &ServedZone<'z, S, H>,
    signed: bool,
    made: &[LowerName],
    end: &End<'_>,
    ds: Option<&RecordSet>,
    hashes: &mut Counter,
) -> Result<Vec<&'z RecordSet>, LookupError>
    ensures ok { IfOk result
        (λ sets. map (λ s. s.now) sets.items
        ≡ proof_sets (zone_of S.signature_of H.digest_of zone.now) (option_copied ds.entry)
        signed made.now (end_of end.now)) }
    ensures provable { OnOk result
        (lacks_proofs_with (zone_of S.signature_of H.digest_of zone.now)
        (option_copied ds.entry) signed made.now (end_of end.now)
        ≡ false) }
    ensures counted { hashes.new
        ≤ hashes.old
        + length
        (hashed_with (zone_of S.signature_of H.digest_of zone.now) (option_copied ds.entry)
        signed made.now (end_of end.now)) }
    ensures err { IfErr result
        (λ e. (e ≡ LookupError.Memory)
        ⊎ (lacks_proofs_with (zone_of S.signature_of H.digest_of zone.now)
        (option_copied ds.entry) signed made.now (end_of end.now)
        ≡ true)) }
{
    if !signed {
        return Ok(Vec::new(zone.origin.alloc()));
    }
    proofs(zone, ds, made, end, hashes)
}

/// The DS set that is sent: without DNSSEC none, so that none is looked up.
fn sent_ds<'z, S: Signer>(
    inner: &'z InnerInMemory<S>,
    signed: bool,
    end: &End<'_>,
) -> Result<Option<&'z RecordSet>, ProtoError>
    ensures ok { IfOk result
        (λ ds. option_copied ds ≡ cond signed (ds_at inner.now.records (end_of end.now)) None) }
    ensures err { IsOkUnless result ProtoError.Memory }
{
    if !signed {
        return Ok(None);
    }
    let ds = ds_at(inner, end)?;
    Ok(ds)
}

/// The DS set of the child to which a search is referred.
fn ds_at<'z, S: Signer>(
    inner: &'z InnerInMemory<S>,
    end: &End<'_>,
) -> Result<Option<&'z RecordSet>, ProtoError>
    ensures ok { IfOk result
        (λ ds. option_copied ds ≡ ds_at inner.now.records (end_of end.now)) }
    ensures err { IsOkUnless result ProtoError.Memory }
{
    match end {
        End::Referred(cut) => {
            let key = RrKey::new(LowerName::new(cut.name())?, RecordType::DS);
            Ok(inner.get(&key))
        }
        _ => Ok(None),
    }
}

/// Puts the sets last that the authority section begins with.
fn send_end<'z>(
    soa: &'z RecordSet,
    end: &End<'z>,
    ds: Option<&'z RecordSet>,
    signed: bool,
    list: &mut Vec<Sent<'z>>,
) -> Result<(), ProtoError>
    ensures ok { OnOk result
        (sent_sets list.new
        ≡ sent_sets list.old
        ++ end_sets (option_copied ds.entry) signed soa.now (end_of end.now)) }
    ensures err { IsOkUnless result ProtoError.Memory }
{
    match end {
        End::Missing(_) => lend_for(list, soa, negative_ttl(soa), part_for(signed)),
        End::Referred(cut) => send_referral(cut, ds, signed, list),
        _ => Ok(()),
    }
}

/// Puts the NS set of a child last, and with DNSSEC its DS set, if it has one.
fn send_referral<'z>(
    cut: &'z RecordSet,
    ds: Option<&'z RecordSet>,
    signed: bool,
    list: &mut Vec<Sent<'z>>,
) -> Result<(), ProtoError>
    ensures ok { OnOk result
        (sent_sets list.new
        ≡ sent_sets list.old ++ referral_sets (option_copied ds.entry) signed cut.now) }
    ensures err { IsOkUnless result ProtoError.Memory }
{
    lend(list, cut, Part::Records)?;
    if !signed {
        return Ok(());
    }
    match ds {
        Some(ds) => lend(list, ds, Part::Signed),
        None => Ok(()),
    }
}

/// Puts what goes beside an answer or a referral last, and the glue that a referral has to have.
pub(crate) fn send_additionals<'z, S: Signer>(
    inner: &'z InnerInMemory<S>,
    asked: Asked<'_>,
    answers: &[Sent<'z>],
    end: &End<'z>,
    list: &mut Vec<Sent<'z>>,
    glue: &mut Vec<Sent<'z>>,
) -> Result<(), ProtoError>
    ensures additionals { OnOk result
        (sent_sets list.new
        ≡ sent_sets list.old
        ++ additional_sets (inquiry_of S.signature_of asked.entry inner.now)
        (map sent_set answers.now) (end_of end.now)) }
    ensures glue { OnOk result
        (sent_sets glue.new
        ≡ sent_sets glue.old ++ glue_at inner.now.records (end_of end.now)) }
    ensures err { IsOkUnless result ProtoError.Memory }
{
    match end {
        End::Complete => send_beside_last(inner, asked, answers, list),
        End::Referred(cut) => send_servers(inner, asked, cut, list, glue),
        _ => Ok(()),
    }
}

/// Puts the sets last that go beside the last one of an answer.
fn send_beside_last<'z, S: Signer>(
    inner: &'z InnerInMemory<S>,
    asked: Asked<'_>,
    answers: &[Sent<'z>],
    list: &mut Vec<Sent<'z>>,
) -> Result<(), ProtoError>
    ensures ok { OnOk result
        (sent_sets list.new
        ≡ sent_sets list.old
        ++ beside_last (inquiry_of S.signature_of asked.entry inner.now)
        (map sent_set answers.now)) }
    ensures err { IsOkUnless result ProtoError.Memory }
{
    match answers.last() {
        Some(last) => send_beside_sent(inner, asked, last, list),
        None => Ok(()),
    }
}

/// Puts the sets last that go beside a set that is sent; beside signatures alone there are none.
fn send_beside_sent<'z, S: Signer>(
    inner: &'z InnerInMemory<S>,
    asked: Asked<'_>,
    last: &Sent<'z>,
    list: &mut Vec<Sent<'z>>,
) -> Result<(), ProtoError>
    ensures ok { OnOk result
        (sent_sets list.new
        ≡ sent_sets list.old
        ++ beside asked.entry.origin.now inner.now.records asked.entry.signed
        (sent_set last.now)) }
    ensures err { IsOkUnless result ProtoError.Memory }
{
    match last.part {
        Part::Signatures => Ok(()),
        Part::Records | Part::Signed => {
            send_beside(inner, asked.origin, asked.signed, last.set.set(), list)
        }
    }
}
