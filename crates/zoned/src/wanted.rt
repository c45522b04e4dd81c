//! What the words behind the program's name ask for.

use std::alloc::Global;
use zone_proto::{Name, ProtoError};
use zone_server::{Mode, TransferPolicy};

/// The word behind which the zones stand that are sent to anybody.
const TRANSFERS: &str = "--transfers";

/// The word behind which those stand that are sent to who has a key.
const SIGNED: &str = "--signed";

/// The word behind which the file of the rules stands by which updates are taken, and that before the folder of their journals.
const RULES: &str = "--update-rules";

const JOURNALS: &str = "--journals";

/// A file that is served.
#[derive(Drop)]
pub struct WantedZone<'w> {
    /// The origin, if it is named.
    pub origin: Option<Name>,
    /// The name of the file.
    pub file: &'w str,
    /// Who may transfer the zone.
    pub policy: TransferPolicy,
}

/// What updates are taken by.
#[derive(Clone, Copy, Drop)]
pub struct WantedUpdates<'w> {
    /// The name of the file of rules.
    pub rules: &'w str,
    /// The name of the folder of the zones' journals.
    pub journals: &'w str,
}

/// What is wanted of the program.
#[derive(Drop)]
pub struct Wanted<'w> {
    /// Whether the program ends once the zones are loaded.
    pub is_check: bool,
    /// How frames stand on the input.
    pub mode: Mode,
    /// The name of the file of keys, if requests may be signed.
    pub keys: Option<&'w str>,
    /// What updates are taken by, if they are.
    pub updates: Option<WantedUpdates<'w>>,
    /// The zones, one at least.
    pub zones: Vec<WantedZone<'w>>,
}

/// What words ask for: `--check` or nothing, `--limits` or nothing, `--keys` and a file or nothing, with keys `--update-rules` and a file and
/// `--journals` and a folder or nothing, and zones, before some of which `--transfers` or, with keys, `--signed` may stand. None if they aren't that.
pub fn wanted_by(alloc: Global, words: &[String]) -> Result<Option<Wanted<'_>>, ProtoError> {
    let (is_check, words) = flag(words, "--check");
    let (is_limits, words) = flag(words, "--limits");
    let mode = if is_limits {
        Mode::Limits
    } else {
        Mode::Stream
    };
    let (keys, words) = keys_file(words);
    let (updates, words) = wanted_updates(words, keys.is_some());
    let zones = wanted_zones(alloc, words, keys.is_some())?;
    Ok(zones.map(|zones| Wanted {
        is_check,
        mode,
        keys,
        updates,
        zones,
    }))
}

/// The file that words begin with behind `--keys`, if they do, and those behind it.
fn keys_file(words: &[String]) -> (Option<&str>, &[String]) {
    match words {
        [first, file, others @ ..] if first.as_str() == "--keys" => (Some(file.as_str()), others),
        _ => (None, words),
    }
}

/// What updates are taken by, if there are keys and words begin so, and those behind it.
fn wanted_updates(words: &[String], has_keys: bool) -> (Option<WantedUpdates<'_>>, &[String]) {
    match words {
        [first, rules, second, journals, others @ ..]
            if has_keys && first.as_str() == RULES && second.as_str() == JOURNALS => {
            let updates = WantedUpdates {
                rules: rules.as_str(),
                journals: journals.as_str(),
            };
            (Some(updates), others)
        }
        _ => (None, words),
    }
}

/// Whether words begin with this one, and those behind it.
fn flag<'w>(words: &'w [String], wanted: &str) -> (bool, &'w [String]) {
    match words.split_first() {
        Some((first, others)) if first.as_str() == wanted => (true, others),
        _ => (false, words),
    }
}

/// The zones that words ask for, each with who may have it: those behind `--transfers` anybody, and those behind `--signed`, where there are
/// keys, who signs with one. None if no zone is asked for, or none behind one of these, or a word is no zone.
fn wanted_zones(
    alloc: Global,
    words: &[String],
    has_keys: bool,
) -> Result<Option<Vec<WantedZone<'_>>>, ProtoError> {
    let mut zones = Vec::new(alloc);
    let mut policy = TransferPolicy::Deny;
    let mut is_due = true;
    for word in words {
        if let Some(behind) = policy_behind(word.as_str(), has_keys) {
            if is_due && policy != TransferPolicy::Deny {
                return Ok(None);
            }
            policy = behind;
            is_due = true;
            continue;
        }
        match wanted_zone(alloc, word.as_str(), policy)? {
            Some(zone) => zones.push(zone)?,
            None => return Ok(None),
        }
        is_due = false;
    }
    Ok(if is_due { None } else { Some(zones) })
}

/// Who may have the zones behind a word, if it says that.
fn policy_behind(word: &str, has_keys: bool) -> Option<TransferPolicy> {
    if word == TRANSFERS {
        Some(TransferPolicy::AllowAll)
    } else if word == SIGNED && has_keys {
        Some(TransferPolicy::AllowSigned)
    } else {
        None
    }
}

/// The zone that a word asks for: a file, or an origin and a file. None if the origin is no name, and where a word
/// begins as a flag does.
fn wanted_zone(
    alloc: Global,
    word: &str,
    policy: TransferPolicy,
) -> Result<Option<WantedZone<'_>>, ProtoError> {
    if word.starts_with("--") {
        return Ok(None);
    }
    let Some((origin, file)) = word.split_once("=") else {
        return Ok(Some(WantedZone {
            origin: None,
            file: word,
            policy,
        }));
    };
    match Name::parse(alloc, origin) {
        Ok(name) => Ok(Some(WantedZone {
            origin: Some(name),
            file,
            policy,
        })),
        Err(ProtoError::Memory) => Err(ProtoError::Memory),
        Err(_) => Ok(None),
    }
}
