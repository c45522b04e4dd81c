//! Rules of who may change what, as names and numbers tell them.
ghost use Rattle.std.specs.Prelude.{◌≡◌, IfErr, IfOk, map};
ghost use Rattle.update_calls.specs.Accesses.{scope_of, IsName, IsNoRule, IsRule, IsUnread};

use crate::outcome::UpdateOutcome;
use std::alloc::{AllocError, Global};
use update_policy::{Rule, RuleScope};
use zone_database::{Outcome, origin_of};
use zone_proto::{LowerName, RecordType};

/// A rule of a zone, as names and numbers tell it. A final dot of a name may be left out.
#[repr(C)]
#[derive(Clone, Copy, Drop)]
pub struct RuleTexts<'a> {
    /// The origin of the zone.
    pub origin: &'a [u8],
    /// The name of the key whose owner the rule is about.
    pub key: &'a [u8],
    /// The rule's own name; a scope that isn't about it doesn't look at it.
    pub name: &'a [u8],
    /// The types that it is about; 255 is each. Without any it is about each but SOA and NS.
    pub types: &'a [u16],
    /// Which names it is about: 0 for its own, 1 for that and all below it, 2 for the name of the key, and 3 for that and all below it.
    pub scope: u32,
    /// Whether it denies what it is about: 0 if it grants it.
    pub denies: u32,
}

/// A rule of a zone.
#[derive(Drop)]
pub(crate) struct ZoneRule {
    /// The origin of the zone.
    pub(crate) origin: LowerName,
    /// The rule.
    pub(crate) rule: Rule,
}

/// The rule that is told so. Refused by `BadScope`, `BadName` and `NoMemory`.
#[tactic(auto, using(crate::proofs::CallFacts::unread_origin, crate::proofs::CallFacts::unread_key, crate::proofs::CallFacts::unread_name))]
pub(crate) fn rule_of(alloc: Global, texts: &RuleTexts<'_>) -> Result<ZoneRule, UpdateOutcome>
    ensures rule { IfOk result (λ z. IsRule texts.now z.origin z.rule) }
    ensures refusal { IfErr result (IsNoRule texts.now) }
{
    let Some(scope) = scope_of(texts.scope) else {
        return Err(UpdateOutcome::BadScope);
    };
    let origin = match name_of(alloc, texts.origin) {
        Ok(origin) => origin,
        Err(outcome) => return Err(outcome),
    };
    let key = match name_of(alloc, texts.key) {
        Ok(key) => key,
        Err(outcome) => return Err(outcome),
    };
    let name = match name_of(alloc, texts.name) {
        Ok(name) => name,
        Err(outcome) => return Err(outcome),
    };
    let Ok(types) = types_of(alloc, texts.types) else {
        return Err(UpdateOutcome::Usual(Outcome::NoMemory));
    };
    let rule = Rule {
        grants: texts.denies == 0,
        key,
        scope,
        name,
        types,
    };
    Ok(ZoneRule { origin, rule })
}

/// The scope of a number.
fn scope_of(number: u32) -> Option<RuleScope>
    ensures { result ≡ scope_of number }
{
    match number {
        0 => Some(RuleScope::Name),
        1 => Some(RuleScope::Subdomain),
        2 => Some(RuleScope::OwnName),
        3 => Some(RuleScope::OwnSubdomain),
        _ => None,
    }
}

/// The types of these numbers.
fn types_of(alloc: Global, numbers: &[u16]) -> Result<Vec<RecordType>, AllocError>
    ensures { IfOk result (λ types. map (λ t. t.0) types.items ≡ numbers.now) }
{
    let mut types = Vec::with_capacity(alloc, numbers.len())?;
    for number in numbers {
        types.push(RecordType(*number))?;
    }
    Ok(types)
}

/// The name that octets are (RFC 1035 section 5.1), in lower case; a final dot may be left out.
fn name_of(alloc: Global, octets: &[u8]) -> Result<LowerName, UpdateOutcome>
    ensures name { IfOk result (IsName octets.now) }
    ensures refusal { IfErr result (IsUnread octets.now) }
{
    match origin_of(alloc, octets) {
        Ok(name) => Ok(LowerName::from(name)),
        Err(outcome) => Err(UpdateOutcome::Usual(outcome)),
    }
}
