//! One step of a search: what a name of a chain is answered with.
ghost use Rattle.std.specs.Prelude.{◌≡◌, ◌+◌, ◌≤◌, ◌++◌, ◌∷◌, [], true, IfOk, IsTrue, OnOk, IsOkUnless, Some};
ghost use Rattle.zone_map.specs.Chains.{cname_target};
ghost use Rattle.zone_proto.specs.Names.{is_at_or_above};
ghost use Rattle.zone_proto.specs.Types.{CNAME, SOA, DNAME};
ghost use Rattle.zone_lookup.specs.FoundSets.{found_set};
ghost use Rattle.zone_response.specs.Nodes.{node_of};
ghost use Rattle.zone_response.specs.Sections.{as_it_is, sent_sets, part_for};
ghost use Rattle.zone_response.specs.Queries.{inquiry_of};
ghost use Rattle.zone_response.specs.Dname.{dname_target};
ghost use Rattle.zone_response.specs.NodeSets.{StandsAt};
ghost use Rattle.zone_response.specs.Steps.{step, diverted_step, target_step, new_name_step, after_renaming, name_step, wildcard_step, node_step, keeps, as_found_for, expanded_names, own_part, after_alias, missing as missing_at, ends, next_of, Takes};
ghost use Rattle.zone_response.specs.Descent.{diversion_at};
ghost use Rattle.zone_response.specs.Searches.{most_for_name, most_for_wildcard};
ghost use Rattle.zone_response.specs.Wildcards.{source_of_synthesis, IsUnderApex};

use crate::aname::stand_in_step;
use crate::descent::{Diverting, diversion_on_way, is_under_apex, own_cut};
use crate::dname::{dname_target, in_place_of, synthesized_alias};
use crate::lists::{push, send, send_made, send_unless_among};
use crate::names::is_at_or_above;
use crate::node_sets::{NodeSets, exists, read_near_origin, read_node_sets};
use crate::nodes::{Node, at_node};
use crate::response::{Part, Sent};
use crate::wildcards::source_of_synthesis;
use lookup_types::LookupError;
use zone_lookup::{Found, InnerInMemory, cname_target};
use zone_map::Counter;
use zone_map::wildcard::renamed;
use zone_proto::{LowerName, Name, ProtoError, RecordSet, RecordType, RrKey, Signer};

/// What is asked, apart from the name.
#[derive(Clone, Copy)]
pub(crate) struct Asked<'z> {
    /// The zone's origin.
    pub(crate) origin: &'z LowerName,
    /// The type.
    pub(crate) record_type: RecordType,
    /// Whether the query asks for DNSSEC.
    pub(crate) signed: bool,
    /// Whether what is said has to be proved: the query asks for DNSSEC, and the zone has denials.
    pub(crate) is_proved: bool,
    /// The moment, in seconds since 1970.
    pub(crate) moment: u64,
}

/// A name of the zone without the set that is asked for.
#[derive(Drop)]
pub(crate) struct Missing {
    pub(crate) name: LowerName,
    /// The wildcard that was asked for it, if the name doesn't exist.
    pub(crate) wildcard: Option<LowerName>,
    /// Whether the name or this wildcard exists.
    pub(crate) is_there: bool,
}

/// How a search ends.
#[derive(Drop)]
pub(crate) enum End<'z> {
    /// With the set that is asked for.
    Complete,
    /// At a zone cut, of which this is the NS set.
    Referred(&'z RecordSet),
    /// At a name of the zone without such a set.
    Missing(Missing),
    /// At a name outside the zone.
    Outside(LowerName),
    /// At an alias that isn't followed any farther.
    Unfollowed,
    /// At a name to which a DNAME gives a name that is too long.
    TooLong,
    /// At what this server doesn't answer.
    Failed,
}

/// What comes after a step.
#[derive(Drop)]
pub(crate) enum Next<'z> {
    /// The search of another name.
    On(LowerName),
    /// The end.
    Ends(End<'z>),
}

/// What a search has found so far.
#[derive(Drop)]
pub(crate) struct SoFar<'z> {
    /// The sets of the answer section.
    pub(crate) answers: Vec<Sent<'z>>,
    /// The names for which a wildcard answered.
    pub(crate) made: Vec<LowerName>,
}

/// A step from a name, by what is at the zone's origin: it puts the step's sets and names behind those so far. It counts the
/// searches for the name and for its wildcard, but not those for the targets of an ANAME. Its only error is `Memory`.
pub(crate) fn step<'z, S: Signer>(
    inner: &'z InnerInMemory<S>,
    asked: Asked<'_>,
    apex: NodeSets<'z>,
    name: &LowerName,
    so_far: &mut SoFar<'z>,
    searches: &mut Counter,
) -> Result<Next<'z>, LookupError>
    requires { StandsAt inner.now.records asked.origin.now SOA DNAME apex }
    ensures ok { IfOk result
        (λ next. Takes
        (step (inquiry_of S.signature_of asked.entry inner.now) (sent_sets so_far.old.answers)
        name.now) so_far.old so_far.new next) }
    ensures counted { searches.new
        ≤ searches.old + most_for_name asked.entry.origin.now inner.now.records name.now }
    ensures err { IsOkUnless result LookupError.Memory }
{
    if !is_at_or_above(asked.origin, name) {
        return Ok(Next::Ends(End::Outside(name.clone()?)));
    }
    let under_apex = is_under_apex(asked.origin, apex, name);
    match diversion_on_way(inner, asked.origin, apex, name, under_apex, searches)? {
        Some(Diverting::Cut(cut)) => Ok(Next::Ends(End::Referred(cut))),
        Some(Diverting::Renaming(dname)) => target_step(dname, name, asked, so_far),
        None => own_step(inner, asked, name, under_apex, so_far, searches),
    }
}

/// The step from a name of the zone above which nothing turns. It may be known that the name is one label below the origin, which exists.
fn own_step<'z, S: Signer>(
    inner: &'z InnerInMemory<S>,
    asked: Asked<'_>,
    name: &LowerName,
    under_apex: bool,
    so_far: &mut SoFar<'z>,
    searches: &mut Counter,
) -> Result<Next<'z>, LookupError>
    requires inside { is_at_or_above asked.origin.now name.now ≡ true }
    requires apex { IsTrue under_apex
        → IsUnderApex inner.now.records asked.origin.now name.now }
    ensures ok { IfOk result
        (λ next. Takes
        (diverted_step (inquiry_of S.signature_of asked.entry inner.now)
        (sent_sets so_far.old.answers) name.now
        (diversion_at asked.entry.origin.now inner.now.records name.now asked.entry.record_type.0
        name.now)) so_far.old so_far.new next) }
    ensures counted { searches.new
        ≤ searches.old + 7 + most_for_wildcard inner.now.records name.now }
    ensures err { IsOkUnless result LookupError.Memory }
{
    let key = RrKey::first_of(name)?;
    searches.add_one();
    let here = read_node_sets(inner, &key, asked.record_type, RecordType::CNAME);
    if let Some(cut) = own_cut(here.ns, asked.origin, name, asked.record_type) {
        return Ok(Next::Ends(End::Referred(cut)));
    }
    name_step(inner, asked, name, key, here, under_apex, so_far, searches)
}

/// The step from a name below the owner of a DNAME set.
fn target_step<'z>(
    dname: &'z RecordSet,
    name: &LowerName,
    asked: Asked<'_>,
    so_far: &mut SoFar<'z>,
) -> Result<Next<'z>, LookupError>
    ensures ok { IfOk result
        (λ next. Takes
        (target_step asked.entry.signed asked.entry.record_type.0
        (sent_sets so_far.old.answers) name.now dname.now (dname_target dname.now)) so_far.old
        so_far.new next) }
    ensures err { IsOkUnless result LookupError.Memory }
{
    let Some(target) = dname_target(dname)? else {
        return Ok(Next::Ends(End::Failed));
    };
    let new = in_place_of(dname.name(), &target, name)?;
    Ok(new_name_step(dname, name, new, asked, so_far)?)
}

/// The step from a name below the owner of a DNAME set by its new name, none if that is too long.
fn new_name_step<'z>(
    dname: &'z RecordSet,
    name: &LowerName,
    new: Option<Name>,
    asked: Asked<'_>,
    so_far: &mut SoFar<'z>,
) -> Result<Next<'z>, ProtoError>
    ensures ok { IfOk result
        (λ next. Takes
        (new_name_step asked.entry.signed asked.entry.record_type.0
        (sent_sets so_far.old.answers) name.now dname.now new) so_far.old so_far.new next) }
    ensures err { IsOkUnless result ProtoError.Memory }
{
    send_unless_among(&mut so_far.answers, dname, part_for(asked.signed))?;
    let Some(new) = new else {
        return Ok(Next::Ends(End::TooLong));
    };
    let next = after_renaming(asked.record_type, &new)?;
    let alias = synthesized_alias(dname, name, new)?;
    send_made(&mut so_far.answers, alias, Part::Records)?;
    Ok(next)
}

/// What comes behind the CNAME of a new name.
fn after_renaming<'z>(record_type: RecordType, new: &Name) -> Result<Next<'z>, ProtoError>
    ensures ok { IfOk result (λ next. next_of next ≡ after_renaming record_type.0 new.now) }
    ensures err { IsOkUnless result ProtoError.Memory }
{
    if record_type == RecordType::CNAME || record_type == RecordType::ANY {
        return Ok(Next::Ends(End::Complete));
    }
    Ok(Next::On(LowerName::new(new)?))
}

/// The step from a name that nothing turns, by its least key and what is there.
fn name_step<'z, S: Signer>(
    inner: &'z InnerInMemory<S>,
    asked: Asked<'_>,
    name: &LowerName,
    key: RrKey,
    here: NodeSets<'z>,
    under_apex: bool,
    so_far: &mut SoFar<'z>,
    searches: &mut Counter,
) -> Result<Next<'z>, LookupError>
    requires name { key.name ≡ name.now }
    requires least { key.record_type.0 ≡ 0 }
    requires here { StandsAt inner.now.records key.name asked.record_type.0 CNAME here }
    requires apex { IsTrue under_apex
        → IsUnderApex inner.now.records asked.origin.now name.now }
    ensures ok { IfOk result
        (λ next. Takes (name_step (inquiry_of S.signature_of asked.entry inner.now) name.now)
        so_far.old so_far.new next) }
    ensures counted { searches.new
        ≤ searches.old + 6 + most_for_wildcard inner.now.records name.now }
    ensures err { IsOkUnless result LookupError.Memory }
{
    let mut key = key;
    if exists(inner, &key, here, searches) {
        let node = at_node(inner, &mut key, asked.record_type, here, searches)?;
        return node_step(inner, node, None, name, asked, so_far);
    }
    if under_apex {
        return under_apex_step(inner, asked, name, so_far, searches);
    }
    let wildcard = source_of_synthesis(inner, name, searches)?;
    wildcard_step(inner, asked, name, wildcard, so_far, searches)
}

/// The step from a name that doesn't exist, one label below the origin, which does: by the wildcard below the origin.
fn under_apex_step<'z, S: Signer>(
    inner: &'z InnerInMemory<S>,
    asked: Asked<'_>,
    name: &LowerName,
    so_far: &mut SoFar<'z>,
    searches: &mut Counter,
) -> Result<Next<'z>, LookupError>
    requires { IsUnderApex inner.now.records asked.origin.now name.now }
    ensures ok { IfOk result
        (λ next. Takes (wildcard_step (inquiry_of S.signature_of asked.entry inner.now) name.now
        (source_of_synthesis inner.now.records name.now))
        so_far.old so_far.new next) }
    ensures counted { searches.new ≤ searches.old + 6 }
    ensures err { IsOkUnless result LookupError.Memory }
{
    let wildcard = name.clone()?.into_wildcard();
    let key = RrKey::first_of(&wildcard)?;
    let here = read_near_origin(
        inner,
        asked.origin,
        &key,
        asked.record_type,
        RecordType::CNAME,
        searches,
    )?;
    starred_step(inner, asked, name, wildcard, key, here, so_far, searches)
}

/// The step from a name that doesn't exist, by the wildcard at its closest encloser.
fn wildcard_step<'z, S: Signer>(
    inner: &'z InnerInMemory<S>,
    asked: Asked<'_>,
    name: &LowerName,
    wildcard: Option<LowerName>,
    so_far: &mut SoFar<'z>,
    searches: &mut Counter,
) -> Result<Next<'z>, LookupError>
    ensures ok { IfOk result
        (λ next. Takes (wildcard_step (inquiry_of S.signature_of asked.entry inner.now) name.now
        wildcard)
        so_far.old so_far.new next) }
    ensures counted { searches.new ≤ searches.old + 5 }
    ensures err { IsOkUnless result LookupError.Memory }
{
    let Some(wildcard) = wildcard else {
        return Ok(at_missing(name, None, false)?);
    };
    let key = RrKey::first_of(&wildcard)?;
    searches.add_one();
    let here = read_node_sets(inner, &key, asked.record_type, RecordType::CNAME);
    starred_step(inner, asked, name, wildcard, key, here, so_far, searches)
}

/// The step from a name that doesn't exist, by the least key of the wildcard at its closest encloser, and what is there.
fn starred_step<'z, S: Signer>(
    inner: &'z InnerInMemory<S>,
    asked: Asked<'_>,
    name: &LowerName,
    wildcard: LowerName,
    key: RrKey,
    here: NodeSets<'z>,
    so_far: &mut SoFar<'z>,
    searches: &mut Counter,
) -> Result<Next<'z>, LookupError>
    requires name { key.name ≡ wildcard }
    requires least { key.record_type.0 ≡ 0 }
    requires here { StandsAt inner.now.records key.name asked.record_type.0 CNAME here }
    ensures ok { IfOk result
        (λ next. Takes (wildcard_step (inquiry_of S.signature_of asked.entry inner.now) name.now
        (Some wildcard))
        so_far.old so_far.new next) }
    ensures counted { searches.new ≤ searches.old + 4 }
    ensures err { IsOkUnless result LookupError.Memory }
{
    let mut key = key;
    if !exists(inner, &key, here, searches) {
        return Ok(at_missing(name, Some(wildcard), false)?);
    }
    let node = at_node(inner, &mut key, asked.record_type, here, searches)?;
    node_step(inner, node, Some(wildcard), name, asked, so_far)
}

/// The step from a name by what it has itself, or what the wildcard has that is asked for it.
fn node_step<'z, S: Signer>(
    inner: &'z InnerInMemory<S>,
    node: Node<'z>,
    wildcard: Option<LowerName>,
    name: &LowerName,
    asked: Asked<'_>,
    so_far: &mut SoFar<'z>,
) -> Result<Next<'z>, LookupError>
    ensures ok { IfOk result
        (λ next. Takes
        (node_step (inquiry_of S.signature_of asked.entry inner.now) wildcard name.now
        (node_of node.entry)) so_far.old so_far.new next) }
    ensures err { IsOkUnless result LookupError.Memory }
{
    match node {
        Node::Own(set) => {
            let part = own_part(asked);
            answer(set, wildcard, name, part, keeps(asked), so_far)?;
            Ok(Next::Ends(End::Complete))
        }
        Node::Alias(set) => {
            let part = part_for(asked.signed);
            answer(set, wildcard, name, part, keeps(asked), so_far)?;
            Ok(after_alias(set)?)
        }
        Node::StandIn(set) => stand_in_step(inner, set, wildcard, name, asked, so_far),
        Node::Nothing => Ok(at_missing(name, wildcard, true)?),
    }
}

/// Signatures are of use where the query asks for DNSSEC, and where it asks for them.
pub(crate) fn keeps(asked: Asked<'_>) -> bool
    ensures { result ≡ keeps asked.entry.signed asked.entry.record_type.0 }
{
    asked.signed || asked.record_type == RecordType::RRSIG
}

/// What is sent of the set that is asked for.
fn own_part(asked: Asked<'_>) -> Part
    ensures { result ≡ own_part asked.entry.signed asked.entry.record_type.0 }
{
    if asked.record_type == RecordType::RRSIG {
        return Part::Signatures;
    }
    part_for(asked.signed)
}

/// Signatures go with the records where the query asks for DNSSEC.
pub(crate) fn part_for(signed: bool) -> Part
    ensures { result ≡ part_for signed }
{
    if signed { Part::Signed } else { Part::Records }
}

/// The end at a name without the set that is asked for.
pub(crate) fn at_missing<'z>(
    name: &LowerName,
    wildcard: Option<LowerName>,
    is_there: bool,
) -> Result<Next<'z>, ProtoError>
    ensures ok { IfOk result (λ next. next_of next ≡ ends (missing_at name.now wildcard is_there)) }
    ensures err { IsOkUnless result ProtoError.Memory }
{
    Ok(Next::Ends(End::Missing(Missing {
        name: name.clone()?,
        wildcard,
        is_there,
    })))
}

/// What comes after an alias: its target.
fn after_alias<'z>(set: &RecordSet) -> Result<Next<'z>, ProtoError>
    ensures ok { IfOk result (λ next. next_of next ≡ after_alias (cname_target set.now)) }
    ensures err { IsOkUnless result ProtoError.Memory }
{
    Ok(match cname_target(set)? {
        Some(target) => Next::On(target),
        None => Next::Ends(End::Complete),
    })
}

/// Appends a set as it is found for a name to the sets so far, and the name behind the names if a wildcard has the set.
fn answer<'z>(
    set: &'z RecordSet,
    wildcard: Option<LowerName>,
    name: &LowerName,
    part: Part,
    keep: bool,
    so_far: &mut SoFar<'z>,
) -> Result<(), ProtoError>
    ensures answers { OnOk result
        (sent_sets so_far.new.answers
        ≡ sent_sets so_far.old.answers
        ++ as_it_is part (as_found_for keep wildcard name.now set.now) ∷ []) }
    ensures made { OnOk result
        (so_far.new.made.items ≡ so_far.old.made.items ++ expanded_names wildcard name.now) }
    ensures err { IsOkUnless result ProtoError.Memory }
{
    add_made(&wildcard, name, &mut so_far.made)?;
    let found = found_for(set, wildcard, name, keep)?;
    let ttl = found.set().ttl();
    let item = Sent {
        set: found,
        ttl,
        part,
    };
    send(&mut so_far.answers, item)
}

/// Puts a name last if a wildcard has its set.
pub(crate) fn add_made(
    wildcard: &Option<LowerName>,
    name: &LowerName,
    made: &mut Vec<LowerName>,
) -> Result<(), ProtoError>
    ensures ok { OnOk result
        (made.new.items ≡ made.old.items ++ expanded_names wildcard.now name.now) }
    ensures err { IsOkUnless result ProtoError.Memory }
{
    match wildcard {
        Some(_) => push(made, name.clone()?),
        None => Ok(()),
    }
}

/// A set as it is found for a name.
pub(crate) fn found_for<'z>(
    set: &'z RecordSet,
    wildcard: Option<LowerName>,
    name: &LowerName,
    keep: bool,
) -> Result<Found<'z>, ProtoError>
    ensures ok { IfOk result
        (λ found. found_set found ≡ as_found_for keep wildcard name.now set.now) }
    ensures err { IsOkUnless result ProtoError.Memory }
{
    match wildcard {
        Some(wildcard) => Ok(Found::Made(renamed(set, &Name::from(wildcard), name, keep)?)),
        None => Ok(Found::Stored(set)),
    }
}
