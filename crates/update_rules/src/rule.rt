//! The rule of a line.
ghost use Rattle.std.specs.Prelude.{◌≡◌, [], IfErr, IfOk, MatchOption, Ok, option_map};
ghost use Rattle.update_rules.specs.Rules.{few_words, head_of, is_plain, names_file, rule_by, rule_of, said_line, verb_of, words_before, FailsBy, IsCut};

use crate::fault::{RuleReason, WordError};
use crate::target::{RuleTarget, read_name, target_of, types_of};
use crate::words::{open_quote, says, word_at, words_of};
use std::alloc::Global;
use update_policy::Rule;
use zone_proto::LowerName;

/// Where the five words begin with which a line begins that is a rule.
#[derive(Clone, Copy, PartialEq, Eq, Debug)]
pub(crate) struct RuleWords {
    pub directive: usize,
    pub origin: usize,
    pub verb: usize,
    pub key: usize,
    pub scope: usize,
}

/// What the first four of these say.
#[derive(Drop)]
pub(crate) struct RuleHead {
    pub origin: LowerName,
    pub grants: bool,
    pub key: LowerName,
}

/// A rule of the zone of an origin, and where the words for this and for the key of the rule begin in their line.
#[derive(Drop)]
pub(crate) struct LineRule {
    pub origin: LowerName,
    pub rule: Rule,
    pub origin_at: usize,
    pub key_at: usize,
}

/// The rule of a line; none where it has no word.
#[tactic(auto, using(crate::proofs::Lines::few_fail, crate::proofs::Lines::five_read, crate::proofs::Lines::five_fail))]
pub(crate) fn rule_of(alloc: Global, line: &[u8]) -> Result<Option<LineRule>, WordError>
    ensures rule { IfOk result (λ rule. rule_of line.now ≡ Ok (option_map said_line rule)) }
    ensures fault { IfErr result (FailsBy (rule_of line.now)) }
{
    if let Some(at) = open_quote(line) {
        return Err(WordError::Wrong(at, RuleReason::OpenQuote));
    }
    let words = words_of(alloc, line)?;
    match five_words(words.as_slice()) {
        Ok(None) => Ok(None),
        Ok(Some((words, more))) => {
            let rule = rule_by(alloc, line, words, more)?;
            Ok(Some(rule))
        }
        Err(directive) => Err(few_words(line, directive)),
    }
}

/// The first five words of a line, and those behind them; none where there is no word. Where there are fewer, the first of these.
fn five_words(words: &[usize]) -> Result<Option<(RuleWords, &[usize])>, usize>
    ensures words { IfOk result (λ found. MatchOption found (words.now ≡ [])
        (λ x. words.now ≡ words_before x.0 x.1.now)) }
    ensures few { IfErr result (IsCut words.now) }
{
    match words {
        [] => Ok(None),
        [directive, origin, verb, key, scope, more @ ..] => {
            let words = RuleWords {
                directive: *directive,
                origin: *origin,
                verb: *verb,
                key: *key,
                scope: *scope,
            };
            Ok(Some((words, more)))
        }
        [directive, ..] => Err(*directive),
    }
}

/// What is wrong with a line that has fewer than five words, of which this is the first.
fn few_words(line: &[u8], directive: usize) -> WordError
    ensures { result ≡ few_words line.now directive }
{
    if says(word_at(line, directive), b"update") {
        WordError::Wrong(directive, RuleReason::Incomplete)
    } else {
        WordError::Wrong(directive, RuleReason::DirectiveWanted)
    }
}

/// The rule that these five words and those behind them say.
#[tactic(auto, using(crate::proofs::Steps::no_head, crate::proofs::Steps::no_target, crate::proofs::Steps::no_types, crate::proofs::Steps::said))]
fn rule_by(
    alloc: Global,
    line: &[u8],
    words: RuleWords,
    more: &[usize],
) -> Result<LineRule, WordError>
    ensures rule { IfOk result (λ rule. rule_by line.now words more.now ≡ Ok (said_line rule)) }
    ensures fault { IfErr result (FailsBy (rule_by line.now words more.now)) }
{
    let RuleHead {
        origin,
        grants,
        key,
    } = head_of(alloc, line, words)?;
    let (target, type_words) = target_of(alloc, line, words, more)?;
    let types = types_of(alloc, line, type_words)?;
    let RuleTarget { scope, name } = target;
    let rule = Rule {
        grants,
        key,
        scope,
        name,
        types,
    };
    Ok(LineRule {
        origin,
        rule,
        origin_at: words.origin,
        key_at: words.key,
    })
}

/// What the first four words say.
fn head_of(alloc: Global, line: &[u8], words: RuleWords) -> Result<RuleHead, WordError>
    ensures head { IfOk result (λ head. head_of line.now words ≡ Ok head) }
    ensures fault { IfErr result (FailsBy (head_of line.now words)) }
{
    if !says(word_at(line, words.directive), b"update") {
        return Err(WordError::Wrong(words.directive, RuleReason::DirectiveWanted));
    }
    if !names_file(word_at(line, words.origin)) {
        return Err(WordError::Wrong(words.origin, RuleReason::BadOrigin));
    }
    let Some(origin) = read_name(alloc, word_at(line, words.origin))? else {
        return Err(WordError::Wrong(words.origin, RuleReason::BadName));
    };
    let Some(grants) = verb_of(word_at(line, words.verb)) else {
        return Err(WordError::Wrong(words.verb, RuleReason::VerbWanted));
    };
    let Some(key) = read_name(alloc, word_at(line, words.key))? else {
        return Err(WordError::Wrong(words.key, RuleReason::BadName));
    };
    Ok(RuleHead {
        origin: LowerName::from(origin),
        grants,
        key: LowerName::from(key),
    })
}

/// Whether a rule grants what it is about, by its word for that.
fn verb_of(word: &[u8]) -> Option<bool>
    ensures { result ≡ verb_of word.now }
{
    if says(word, b"grant") {
        Some(true)
    } else if says(word, b"deny") {
        Some(false)
    } else {
        None
    }
}

/// Whether a file can be named by a word.
fn names_file(word: &[u8]) -> bool
    ensures { result ≡ names_file word.now }
{
    word.iter().all(|octet| is_plain(*octet))
}

/// Whether an octet may stand in the name of a file.
fn is_plain(octet: u8) -> bool
    ensures { result ≡ is_plain octet }
{
    octet.is_ascii_alphanumeric() || octet == b'-' || octet == b'_' || octet == b'.'
}
