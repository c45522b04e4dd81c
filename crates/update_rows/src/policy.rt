//! Rules and what they permit.

use line_text::{TextError, Words, read_name, read_type};
use std::alloc::Global;
use update_policy::{Rule, RuleScope, permits};
use zone_proto::LowerName;

/// How many types a rule has at most in a row.
const MOST_TYPES: usize = 16;

/// Reads a name, in lower case.
fn read_lower(alloc: Global, words: &mut Words<'_>) -> Result<LowerName, TextError> {
    Ok(LowerName::new(&read_name(alloc, words)?)?)
}

/// Reads a rule.
pub fn read_rule(alloc: Global, words: &mut Words<'_>) -> Result<Rule, TextError> {
    let grants = match words.take_needed()? {
        b"grant" => true,
        b"deny" => false,
        _ => return Err(TextError::BadText),
    };
    let key = read_lower(alloc, words)?;
    let scope = match words.take_needed()? {
        b"name" => RuleScope::Name,
        b"subdomain" => RuleScope::Subdomain,
        b"own-name" => RuleScope::OwnName,
        b"own-subdomain" => RuleScope::OwnSubdomain,
        _ => return Err(TextError::BadText),
    };
    let name = read_lower(alloc, words)?;
    let mut types = Vec::new(alloc);
    for _ in 0..MOST_TYPES {
        match read_type(words) {
            Ok(record_type) => types.push(record_type)?,
            Err(_) => break,
        }
    }
    Ok(Rule {
        grants,
        key,
        scope,
        name,
        types,
    })
}

/// Whether who has a key may change the sets of a name and a type.
pub fn permit_answer(alloc: Global, rules: &[Rule], words: &str) -> Result<String, TextError> {
    let mut words = Words::new(words.as_bytes());
    let key = read_lower(alloc, &mut words)?;
    permitted_text(alloc, rules, Some(&key), words)
}

/// Whether who has no key may.
pub fn unsigned_answer(alloc: Global, rules: &[Rule], words: &str) -> Result<String, TextError> {
    permitted_text(alloc, rules, None, Words::new(words.as_bytes()))
}

/// Whether the sets of the name and the type that words write may be changed.
fn permitted_text(
    alloc: Global,
    rules: &[Rule],
    key: Option<&LowerName>,
    mut words: Words<'_>,
) -> Result<String, TextError> {
    let name = read_lower(alloc, &mut words)?;
    let record_type = read_type(&mut words)?;
    words.end()?;
    Ok(if permits(rules, key, &name, record_type) {
        format!(in alloc; "yes")?
    } else {
        format!(in alloc; "no")?
    })
}
