//! The addresses for which an ANAME set stands in.
ghost use Rattle.std.specs.Prelude.{◌≡◌, map, IfOk, IsOkUnless};
ghost use Rattle.zone_lookup.specs.FoundSets.{found_set};
ghost use Rattle.zone_response.specs.Queries.{inquiry_of};
ghost use Rattle.zone_response.specs.Aname.{target_sets, at_last_target, by_addresses, by_last_set, stand_in_answer, answer_of};
ghost use Rattle.zone_response.specs.Steps.{stand_in_step, stood_in_step, addresses_step, Takes};

use crate::descent::diversion;
use crate::lists::send_made;
use crate::names::is_at_or_above;
use crate::response::is_signed;
use crate::steps::{Asked, End, Next, SoFar, add_made, at_missing, found_for, keeps, part_for};
use lookup_types::{LookupError, LookupOptions};
use zone_lookup::{Found, InnerInMemory, flattened, next_name, run_target};
use zone_map::Searches;
use zone_proto::{LowerName, ProtoError, RecordSet, RecordType, Signer};

/// What an ANAME set stands for, where addresses are asked for.
#[derive(Drop)]
pub(crate) enum StandInAnswer {
    /// These addresses.
    Addresses(RecordSet),
    /// None: the last target is a name of the zone for which none are found.
    NoAddresses,
    /// Those of a name that the zone doesn't tell.
    Untold,
}

/// The step from a name for whose addresses an ANAME set stands in, its own or that of its wildcard.
pub(crate) fn stand_in_step<'z, S: Signer>(
    inner: &'z InnerInMemory<S>,
    set: &'z RecordSet,
    wildcard: Option<LowerName>,
    name: &LowerName,
    asked: Asked<'_>,
    so_far: &mut SoFar<'z>,
) -> Result<Next<'z>, LookupError>
    ensures ok { IfOk result
        (λ next. Takes
        (stand_in_step (inquiry_of S.signature_of asked.entry inner.now) wildcard name.now set.now)
        so_far.old so_far.new next) }
    ensures err { IsOkUnless result LookupError.Memory }
{
    let under = copy_of(&wildcard)?;
    let aname = found_for(set, under, name, keeps(asked))?;
    let answer = stand_in_answer(inner, asked, name, aname.set())?;
    Ok(stood_in_step(answer, wildcard, name, asked, so_far)?)
}

/// The same name, if there is one.
fn copy_of(name: &Option<LowerName>) -> Result<Option<LowerName>, ProtoError>
    ensures ok { IfOk result (λ copy. copy ≡ name.now) }
    ensures err { IsOkUnless result ProtoError.Memory }
{
    match name {
        Some(name) => Ok(Some(name.clone()?)),
        None => Ok(None),
    }
}

/// The step from a name by what its ANAME set, or that of its wildcard, stands for.
fn stood_in_step<'z>(
    answer: StandInAnswer,
    wildcard: Option<LowerName>,
    name: &LowerName,
    asked: Asked<'_>,
    so_far: &mut SoFar<'z>,
) -> Result<Next<'z>, ProtoError>
    ensures ok { IfOk result
        (λ next. Takes
        (stood_in_step asked.entry.is_proved asked.entry.signed wildcard name.now
        (answer_of answer)) so_far.old so_far.new next) }
    ensures err { IsOkUnless result ProtoError.Memory }
{
    match answer {
        StandInAnswer::Addresses(addresses) => {
            addresses_step(addresses, &wildcard, name, asked, so_far)
        }
        StandInAnswer::NoAddresses => at_missing(name, wildcard, true),
        StandInAnswer::Untold => Ok(Next::Ends(End::Failed)),
    }
}

/// The step from a name that its ANAME set, or that of its wildcard, gives these addresses.
fn addresses_step<'z>(
    addresses: RecordSet,
    wildcard: &Option<LowerName>,
    name: &LowerName,
    asked: Asked<'_>,
    so_far: &mut SoFar<'z>,
) -> Result<Next<'z>, ProtoError>
    ensures ok { IfOk result
        (λ next. Takes
        (addresses_step asked.entry.is_proved asked.entry.signed wildcard.now name.now addresses)
        so_far.old so_far.new next) }
    ensures err { IsOkUnless result ProtoError.Memory }
{
    if asked.is_proved && !is_signed(&addresses) {
        return Ok(Next::Ends(End::Failed));
    }
    add_made(wildcard, name, &mut so_far.made)?;
    send_made(&mut so_far.answers, addresses, part_for(asked.signed))?;
    Ok(Next::Ends(End::Complete))
}

/// What an ANAME set of a name stands for.
fn stand_in_answer<S: Signer>(
    inner: &InnerInMemory<S>,
    asked: Asked<'_>,
    name: &LowerName,
    aname: &RecordSet,
) -> Result<StandInAnswer, LookupError>
    ensures ok { IfOk result
        (λ answer. answer_of answer
        ≡ stand_in_answer (inquiry_of S.signature_of asked.entry inner.now) name.now aname.now) }
    ensures err { IsOkUnless result LookupError.Memory }
{
    let sets = target_sets(inner, asked, name, aname)?;
    match sets.last() {
        Some(last) => Ok(by_last_set(inner, asked, aname, last.set())?),
        None => Ok(by_last_set(inner, asked, aname, aname)?),
    }
}

/// The sets along the targets of an ANAME set of a name.
fn target_sets<'z, S: Signer>(
    inner: &'z InnerInMemory<S>,
    asked: Asked<'_>,
    name: &LowerName,
    aname: &RecordSet,
) -> Result<Vec<Found<'z>>, LookupError>
    ensures ok { IfOk result
        (λ sets. map found_set sets.items
        ≡ target_sets inner.now.records asked.entry.signed name.now asked.entry.record_type.0
        aname.now) }
    ensures err { IsOkUnless result LookupError.Memory }
{
    // (what the map promises of the zone is needed here by the proof alone)
    let _records = inner.as_map();
    let Some(from) = next_name(aname, asked.record_type)? else {
        return Ok(Vec::new(name.alloc()));
    };
    let options = LookupOptions {
        dnssec_ok: asked.signed,
    };
    let searches = &mut Searches::new();
    let record_type = asked.record_type;
    match inner.additional_search(name, record_type, from, record_type, options, searches)? {
        Some(sets) => Ok(sets),
        None => Ok(Vec::new(name.alloc())),
    }
}

/// What an ANAME set stands for by the last set along its targets.
fn by_last_set<S: Signer>(
    inner: &InnerInMemory<S>,
    asked: Asked<'_>,
    aname: &RecordSet,
    last: &RecordSet,
) -> Result<StandInAnswer, ProtoError>
    ensures ok { IfOk result
        (λ answer. answer_of answer
        ≡ by_last_set (inquiry_of S.signature_of asked.entry inner.now) aname.now last.now) }
    ensures err { IsOkUnless result ProtoError.Memory }
{
    match run_target(last, asked.record_type)? {
        Some(target) => at_last_target(inner, asked, &target),
        None => by_addresses(inner, asked, aname, last),
    }
}

/// What an ANAME set stands for by a last set that leads nowhere.
fn by_addresses<S: Signer>(
    inner: &InnerInMemory<S>,
    asked: Asked<'_>,
    aname: &RecordSet,
    last: &RecordSet,
) -> Result<StandInAnswer, ProtoError>
    ensures ok { IfOk result
        (λ answer. answer_of answer
        ≡ by_addresses (inquiry_of S.signature_of asked.entry inner.now) aname.now last.now) }
    ensures err { IsOkUnless result ProtoError.Memory }
{
    let record_type = asked.record_type;
    if last.record_type() != record_type {
        return Ok(StandInAnswer::Untold);
    }
    let options = LookupOptions {
        dnssec_ok: asked.signed,
    };
    let signers = inner.signers();
    let addresses = flattened(aname, record_type, last, signers, options, asked.moment)?;
    Ok(StandInAnswer::Addresses(addresses))
}

/// What an ANAME set stands for, where nothing is found for its last target.
fn at_last_target<S: Signer>(
    inner: &InnerInMemory<S>,
    asked: Asked<'_>,
    target: &LowerName,
) -> Result<StandInAnswer, ProtoError>
    ensures ok { IfOk result
        (λ answer. answer_of answer
        ≡ at_last_target (inquiry_of S.signature_of asked.entry inner.now) target.now) }
    ensures err { IsOkUnless result ProtoError.Memory }
{
    if !is_at_or_above(asked.origin, target) {
        return Ok(StandInAnswer::Untold);
    }
    match diversion(inner, asked.origin, target, asked.record_type)? {
        Some(_) => Ok(StandInAnswer::Untold),
        None => Ok(StandInAnswer::NoAddresses),
    }
}
