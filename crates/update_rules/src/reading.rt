//! The rules of a text.
ghost use Rattle.std.specs.Prelude.{◌≡◌, ◌∷◌, IfErr, IfOk, Ok, OnOk, map};
ghost use Rattle.zone_scanner.specs.Signs.{place_along, place_behind};
ghost use Rattle.line_text.specs.Parts.{parts, parts_left};
ghost use Rattle.update_rules.specs.Rules.{said_line};
ghost use Rattle.update_rules.specs.Texts.{at_place, line_rules, placed, rules_of, said_placed, FailsBy, Pushes, ReportsFault};

use crate::fault::{RuleFault, RulesError, WordError};
use crate::rule::{LineRule, rule_of};
use std::alloc::Global;
use update_policy::Rule;
use zone_proto::LowerName;
use zone_scanner::Place;

/// A rule of a zone, and where it stands.
#[derive(Drop)]
pub struct PlacedRule {
    /// The origin of the zone.
    pub origin: LowerName,
    /// The rule. Where its scope isn't about its own name that is the root.
    pub rule: Rule,
    /// Where the word for the origin begins.
    pub origin_place: Place,
    /// Where the word for the key of the rule begins.
    pub key_place: Place,
}

/// The rules of a text, in their order. Its first fault refuses it, with the place of the word that is at fault, and so does want of memory.
#[tactic(auto, unfolding(crate::specs::Texts::rules_of), using(crate::proofs::Texts::line_fails, crate::proofs::Texts::line_read, crate::proofs::Texts::none_left))]
pub fn read_rules(alloc: Global, text: &[u8]) -> Result<Vec<PlacedRule>, RulesError>
    ensures rules { IfOk result (λ rules. rules_of text.now ≡ Ok (map said_placed rules.items)) }
    ensures fault { IfErr result (ReportsFault text.now) }
{
    let mut rules = Vec::new(alloc);
    let mut place = Place::first();
    let mut rest = Some(text);
    while let Some(octets) = rest {
        let (line, behind) = first_line(octets);
        push_rule(alloc, &mut rules, place, line)?;
        place = next_line(place);
        rest = behind;
    }
    Ok(rules)
}

/// The first line of a text, and what stands behind the line feed that ends it; none where none does.
fn first_line(text: &[u8]) -> (&[u8], Option<&[u8]>)
    ensures { parts 10 text.now ≡ result.0.now ∷ parts_left 10 result.1 }
{
    match text.iter().position(|octet| *octet == b'\n') {
        None => (text, None),
        Some(at) => {
            let (line, from) = text.split_at(at);
            (line, Some(&from[1..]))
        }
    }
}

/// Appends the rule of a line that begins at a place, if it has one.
fn push_rule(
    alloc: Global,
    rules: &mut Vec<PlacedRule>,
    place: Place,
    line: &[u8],
) -> Result<(), RulesError>
    ensures pushed { OnOk result (Pushes place line.now rules.old.items rules.new.items) }
    ensures fault { IfErr result (FailsBy (line_rules place line.now)) }
{
    match rule_of(alloc, line) {
        Ok(None) => Ok(()),
        Ok(Some(rule)) => {
            rules.push(placed_rule(place, rule))?;
            Ok(())
        }
        Err(error) => Err(placed(place, error)),
    }
}

/// A rule of a line that begins at a place.
fn placed_rule(place: Place, read: LineRule) -> PlacedRule
    ensures { said_placed result ≡ at_place place (said_line read) }
{
    let LineRule {
        origin,
        rule,
        origin_at,
        key_at,
    } = read;
    PlacedRule {
        origin,
        rule,
        origin_place: along(place, origin_at),
        key_place: along(place, key_at),
    }
}

/// A fault, told by line and column.
fn placed(place: Place, error: WordError) -> RulesError
    ensures { result ≡ placed place error }
{
    match error {
        WordError::Wrong(at, reason) => RulesError::Fault(RuleFault {
            place: along(place, at),
            reason,
        }),
        WordError::Memory => RulesError::Memory,
    }
}

/// The place so many octets further in the same line.
fn along(place: Place, count: usize) -> Place
    ensures { result ≡ place_along place count }
{
    Place {
        line: place.line,
        column: place.column.saturating_add(count as u64),
    }
}

/// The beginning of the line behind the one of a place.
fn next_line(place: Place) -> Place
    ensures { result ≡ place_behind place 10 }
{
    Place {
        line: place.line.saturating_add(1),
        column: 1,
    }
}
