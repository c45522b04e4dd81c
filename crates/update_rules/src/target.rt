//! Which names and types a rule is about.
ghost use Rattle.std.specs.Prelude.{◌≡◌, ◌≢◌, IfErr, IfOk, None, Ok, OnOk};
ghost use Rattle.line_text.specs.Reading.{name_of_word};
ghost use Rattle.update_rules.specs.Rules.{is_own, scope_of, target_of, types_of, FailsBy};

use crate::fault::{RuleReason, WordError};
use crate::rule::RuleWords;
use crate::words::{says, word_at};
use std::alloc::{AllocError, Global};
use std::str;
use update_policy::RuleScope;
use zone_proto::{LowerName, Name, ProtoError, RecordType};
use zone_tokens::read_type_word;

/// Which names a rule is about.
#[derive(Drop)]
pub(crate) struct RuleTarget {
    pub scope: RuleScope,
    pub name: LowerName,
}

/// Which names a rule is about by its scope and the words behind that, and the words behind the name.
pub(crate) fn target_of<'w>(
    alloc: Global,
    line: &[u8],
    words: RuleWords,
    more: &'w [usize],
) -> Result<(RuleTarget, &'w [usize]), WordError>
    ensures target { IfOk result (λ t. target_of line.now words more.now ≡ Ok (t.0, t.1.now)) }
    ensures fault { IfErr result (FailsBy (target_of line.now words more.now)) }
{
    let Some(scope) = scope_of(word_at(line, words.scope)) else {
        return Err(WordError::Wrong(words.scope, RuleReason::ScopeWanted));
    };
    if is_own(scope) {
        let name = LowerName::root(alloc);
        return Ok((RuleTarget { scope, name }, more));
    }
    let Some((at, types)) = more.split_first() else {
        return Err(WordError::Wrong(words.directive, RuleReason::Incomplete));
    };
    let Some(name) = read_name(alloc, word_at(line, *at))? else {
        return Err(WordError::Wrong(*at, RuleReason::BadName));
    };
    let name = LowerName::from(name);
    Ok((RuleTarget { scope, name }, types))
}

/// The scope of a rule, by its word.
fn scope_of(word: &[u8]) -> Option<RuleScope>
    ensures { result ≡ scope_of word.now }
{
    if says(word, b"name") {
        Some(RuleScope::Name)
    } else if says(word, b"subdomain") {
        Some(RuleScope::Subdomain)
    } else if says(word, b"self") {
        Some(RuleScope::OwnName)
    } else if says(word, b"selfsub") {
        Some(RuleScope::OwnSubdomain)
    } else {
        None
    }
}

/// Whether a scope is about the name of the key, so that no name follows it.
fn is_own(scope: RuleScope) -> bool
    ensures { result ≡ is_own scope }
{
    match scope {
        RuleScope::Name | RuleScope::Subdomain => false,
        RuleScope::OwnName | RuleScope::OwnSubdomain => true,
    }
}

/// The types that the words name which begin at these offsets.
#[tactic(auto, using(crate::proofs::Types::type_fails, crate::proofs::Types::type_read))]
pub(crate) fn types_of(
    alloc: Global,
    line: &[u8],
    words: &[usize],
) -> Result<Vec<RecordType>, WordError>
    ensures types { IfOk result (λ types. types_of line.now words.now ≡ Ok types.items) }
    ensures fault { IfErr result (FailsBy (types_of line.now words.now)) }
{
    let mut types = Vec::with_capacity(alloc, words.len())?;
    for at in words {
        let Some(record_type) = read_type_word(alloc, word_at(line, *at))? else {
            return Err(WordError::Wrong(*at, RuleReason::UnknownType));
        };
        types.push(record_type)?;
    }
    Ok(types)
}

/// The name that a word is; none if it is none.
#[tactic(auto, using(crate::proofs::WordNames::naming))]
pub(crate) fn read_name(alloc: Global, word: &[u8]) -> Result<Option<Name>, AllocError>
    ensures { IfOk result (λ name. name ≡ name_of_word word.now) }
{
    let Ok(text) = str::from_utf8(word) else {
        return Ok(None);
    };
    match Name::parse(alloc, text) {
        Ok(name) => Ok(Some(name)),
        Err(error) => no_name(error),
    }
}

/// No name, unless there was no memory to read it.
fn no_name(error: ProtoError) -> Result<Option<Name>, AllocError>
    ensures none { IfOk result (λ name. name ≡ None) }
    ensures fault { OnOk result (error ≢ ProtoError.Memory) }
{
    match error {
        ProtoError::Memory => Err(AllocError),
        _ => Ok(None),
    }
}
