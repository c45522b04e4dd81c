//! Signed zones and their updates, with signatures that are none.

use crate::calls::Case;
use crate::entries::read_update;
use crate::updating::code_word;
use compared_rows::octets_of;
use line_text::{HexText, TextError, Words, read_name};
use std::alloc::Global;
use update_denials::{CommitFault, PrepareFault, Prepared, Signing, commit, prepare};
use update_message::{UpdateError, UpdateMessage};
use update_signing::{SignedReply, answer_signed_update, prepare_if_permitted};
use zone_difference::copied;
use zone_keeping::Span;
use zone_planner::{Request, make_plan, planned_by_flags};
use zone_planning::{Plan, blank_number, finish};
use zone_proto::{DNSKEY, LowerName, NxProofKind, Seq};
use zone_update::Refusal;

/// When signatures are made, when they end, and until when they have to hold, in seconds since 1970.
const MADE: u64 = 1_000_000;

const END: u64 = 2_000_000;

const HELD: u64 = 1_500_000;

/// The algorithm of the key, ECDSA by P-256 and SHA-256, whose keys and signatures have 64 octets (RFC 6605 section 4).
const ALGORITHM: u8 = 13;

/// Chooses how the zone denies.
pub fn denials_answer(alloc: Global, case: &mut Case, words: &str) -> Result<String, TextError> {
    let mut words = Words::new(words.as_bytes());
    case.kind = match words.take_needed()? {
        b"nsec" => NxProofKind::Nsec,
        b"nsec3" => nsec3(alloc, false),
        b"opt-out" => nsec3(alloc, true),
        _ => return Err(TextError::BadText),
    };
    words.end()?;
    Ok(format!(in alloc; "chosen")?)
}

/// By NSEC3 without salt and iterations.
fn nsec3(alloc: Global, opt_out: bool) -> NxProofKind {
    NxProofKind::Nsec3 {
        algorithm: 1,
        salt: Seq::new(alloc),
        iterations: 0,
        opt_out,
    }
}

/// Signs the zone: which signatures are made.
pub fn sign_answer(alloc: Global, case: &mut Case) -> Result<String, TextError> {
    let origin = LowerName::new(&case.origin)?;
    let Signing { keys, request, .. } = signing_of(alloc, case)?;
    let zone = copied(alloc, &case.zone)?;
    let plan = match make_plan(alloc, origin, zone, keys, &request) {
        Ok(plan) => plan,
        Err(fault) => return Ok(format!(in alloc; "{fault:?}")?),
    };
    let told = blanks_text(alloc, &plan)?;
    let signatures = made_for(alloc, &plan)?;
    match finish(alloc, plan, signatures.as_slice()) {
        Ok(zone) => {
            case.zone = zone;
            Ok(told)
        }
        Err(unfinished) => Ok(format!(in alloc; "{:?}", unfinished.fault)?),
    }
}

/// Updates the signed zone: which signatures are made; or the code, or `nothing`.
pub fn signed_update_answer(
    alloc: Global,
    case: &mut Case,
    text: &str,
) -> Result<String, TextError> {
    match prepared(alloc, case, text)? {
        Err(told) => Ok(told),
        Ok(prepared) => committed_text(alloc, case, prepared),
    }
}

/// The same where the table of rules permits it to who has the key that is named first.
pub fn signed_ask_answer(alloc: Global, case: &mut Case, words: &str) -> Result<String, TextError> {
    let (key, text) = words.split_once(" ").ok_or(TextError::BadText)?;
    let key = key_of(alloc, key)?;
    let update = read_update(alloc, text)?;
    let origin = LowerName::new(&case.origin)?;
    let signing = signing_of(alloc, case)?;
    let rules = case.rules.as_slice();
    let outcome = prepare_if_permitted(
        alloc,
        rules,
        Some(&key),
        origin,
        &case.zone,
        update,
        signing,
    );
    match told(alloc, outcome)? {
        Err(told) => Ok(told),
        Ok(prepared) => committed_text(alloc, case, prepared),
    }
}

/// The response to octets in hex of who has the key that is named first, and which signatures are made; or why none are.
pub fn signed_reply_answer(
    alloc: Global,
    case: &mut Case,
    words: &str,
) -> Result<String, TextError> {
    let (key, octets) = words.split_once(" ").ok_or(TextError::BadText)?;
    let key = key_of(alloc, key)?;
    let octets = octets_of(alloc, octets)?;
    let asked = asked_of(alloc, octets.as_slice())?;
    let origin = LowerName::new(&case.origin)?;
    let signing = signing_of(alloc, case)?;
    let rules = case.rules.as_slice();
    let mut out = Vec::new(alloc);
    let reply = answer_signed_update(
        alloc,
        rules,
        Some(&key),
        origin,
        &case.zone,
        asked,
        signing,
        &mut out,
    )?;
    let hex = HexText(out.as_slice());
    match reply {
        SignedReply::Refused(_) => Ok(format!(in alloc; "{hex}")?),
        SignedReply::Unsigned(fault) => Ok(format!(in alloc; "{hex} {fault}")?),
        SignedReply::Unchanged => Ok(format!(in alloc; "{hex} unchanged")?),
        SignedReply::Prepared(prepared) => {
            let told = committed_text(alloc, case, prepared)?;
            Ok(format!(in alloc; "{hex} {told}")?)
        }
    }
}

/// The name of a key, in lower case.
fn key_of(alloc: Global, word: &str) -> Result<LowerName, TextError> {
    let name = read_name(alloc, &mut Words::new(word.as_bytes()))?;
    Ok(LowerName::new(&name)?)
}

/// What octets ask for that are an update.
fn asked_of(alloc: Global, octets: &[u8]) -> Result<UpdateMessage, TextError> {
    match update_message::read_update(alloc, octets) {
        Ok(asked) => Ok(asked),
        Err(UpdateError::Memory) => Err(TextError::Memory),
        Err(_) => Err(TextError::BadText),
    }
}

/// Commits an update: which signatures are made; or why it isn't.
fn committed_text(alloc: Global, case: &mut Case, prepared: Prepared) -> Result<String, TextError> {
    let told = blanks_text(alloc, &prepared.plan)?;
    match put_in(alloc, case, prepared)? {
        None => Ok(told),
        Some(fault) => Ok(format!(in alloc; "{fault:?}")?),
    }
}

/// Prepares an update twice, and commits both: what comes of the second.
pub fn overtaken_answer(alloc: Global, case: &mut Case, text: &str) -> Result<String, TextError> {
    let first = prepared(alloc, case, text)?;
    let second = prepared(alloc, case, text)?;
    let (Ok(first), Ok(second)) = (first, second) else {
        return Err(TextError::BadText);
    };
    if let Some(fault) = put_in(alloc, case, first)? {
        return Ok(format!(in alloc; "{fault:?}")?);
    }
    match put_in(alloc, case, second)? {
        None => Ok(format!(in alloc; "committed")?),
        Some(fault) => Ok(format!(in alloc; "{fault:?}")?),
    }
}

/// An update that is prepared, or what is told where it isn't.
fn prepared(alloc: Global, case: &Case, text: &str) -> Result<Result<Prepared, String>, TextError> {
    let update = read_update(alloc, text)?;
    let origin = LowerName::new(&case.origin)?;
    let signing = signing_of(alloc, case)?;
    told(alloc, prepare(alloc, origin, &case.zone, update, signing))
}

/// An update that ended so, if it is prepared, or what is told where it isn't.
fn told(
    alloc: Global,
    outcome: Result<Option<Prepared>, PrepareFault>,
) -> Result<Result<Prepared, String>, TextError> {
    match outcome {
        Ok(Some(prepared)) => Ok(Ok(prepared)),
        Ok(None) => Ok(Err(format!(in alloc; "nothing")?)),
        Err(PrepareFault::Refused(Refusal::Memory)) => Err(TextError::Memory),
        Err(PrepareFault::Refused(refusal)) => {
            Ok(Err(format!(in alloc; "{}", code_word(refusal))?))
        }
        Err(PrepareFault::Unsigned(fault)) => Ok(Err(format!(in alloc; "{fault}")?)),
        Err(PrepareFault::Memory) => Err(TextError::Memory),
    }
}

/// Commits an update; why it isn't.
fn put_in(
    alloc: Global,
    case: &mut Case,
    prepared: Prepared,
) -> Result<Option<CommitFault>, TextError> {
    let origin = LowerName::new(&case.origin)?;
    let signatures = made_for(alloc, &prepared.plan)?;
    match commit(alloc, &origin, &case.zone, prepared, signatures.as_slice()) {
        Ok(zone) => {
            case.zone = zone;
            Ok(None)
        }
        Err(uncommitted) => Ok(Some(uncommitted.fault)),
    }
}

/// How the zone is signed: by one key.
fn signing_of(alloc: Global, case: &Case) -> Result<Signing, TextError> {
    let mut keys = Vec::new(alloc);
    keys.push(DNSKEY {
        flags: 257,
        protocol: 3,
        algorithm: ALGORITHM,
        public_key: Seq::from_slice(alloc, &[1; 64])?,
    })?;
    Ok(Signing {
        keys: planned_by_flags(alloc, keys.as_slice(), false)?,
        request: Request {
            inception: MADE,
            expiration: END,
            jitter: 0,
            key_ttl: 3600,
            nx_proof_kind: case.kind.clone()?,
        },
        span: Span {
            from: MADE,
            until: HELD,
        },
    })
}

/// As many signatures as are blank in a plan.
fn made_for(alloc: Global, plan: &Plan) -> Result<Vec<Seq<u8>>, TextError> {
    let mut signatures = Vec::new(alloc);
    for (_, set) in plan.records.iter() {
        for record in set.rrsigs() {
            if blank_number(record).is_some() {
                signatures.push(Seq::from_slice(alloc, &[7; 64])?)?;
            }
        }
    }
    Ok(signatures)
}

/// The owners and types of the sets that have blank signatures.
fn blanks_text(alloc: Global, plan: &Plan) -> Result<String, TextError> {
    let mut text = String::new(alloc);
    for (_, set) in plan.records.iter() {
        for record in set.rrsigs() {
            if blank_number(record).is_some() {
                write!(text, "{} {}; ", set.name(), set.record_type())?;
            }
        }
    }
    write!(text, "made")?;
    Ok(text)
}
