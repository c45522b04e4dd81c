//! Rules of who may change what, read.

use crate::keys::with_line_breaks;
use line_text::TextError;
use std::alloc::{AllocError, Global};
use update_policy::RuleScope;
use update_rules::{PlacedRule, RulesError, read_rules};

/// The rules of a text, or its first fault.
pub fn rules_answer(alloc: Global, words: &str) -> Result<String, TextError> {
    let text = with_line_breaks(alloc, words.as_bytes())?;
    match read_rules(alloc, text.as_slice()) {
        Ok(rules) => Ok(placed_answer(alloc, rules.as_slice())?),
        Err(RulesError::Memory) => Err(TextError::Memory),
        Err(RulesError::Fault(fault)) => Ok(format!(in alloc; "{fault}")?),
    }
}

/// Rules, as rows write them.
fn placed_answer(alloc: Global, rules: &[PlacedRule]) -> Result<String, AllocError> {
    let mut text = String::new(alloc);
    for placed in rules {
        let (at, key_at, rule) = (placed.origin_place, placed.key_place, &placed.rule);
        let verb = if rule.grants { "grant" } else { "deny" };
        let scope = scope_word(rule.scope);
        write!(
            text,
            "{}:{} {}:{} {} {verb} {} {scope} {}",
            at.line, at.column, key_at.line, key_at.column, placed.origin, rule.key, rule.name
        )?;
        for record_type in rule.types.iter() {
            write!(text, " {record_type}")?;
        }
        write!(text, ";")?;
    }
    Ok(text)
}

/// The word of a scope.
fn scope_word(scope: RuleScope) -> &'static str {
    match scope {
        RuleScope::Name => "name",
        RuleScope::Subdomain => "subdomain",
        RuleScope::OwnName => "self",
        RuleScope::OwnSubdomain => "selfsub",
    }
}
