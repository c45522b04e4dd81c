//! The TSIG of a request checked (RFC 8945 section 5.2).
ghost use Rattle.std.specs.Prelude.{◌≡◌, IfOk};
ghost use Rattle.message_tsig.specs.Checking.{by_key, by_place, by_tsig, by_verdict, checked_kept, checked_of, IsAuthenticIfSigned};
ghost use Rattle.message_tsig.specs.Places.{place_of};
ghost use Rattle.message_tsig.specs.Tsigs.{request_text};
ghost use Rattle.message_tsig.specs.Verdicts.{verdict_of};

use crate::key::{Key, key_for};
use crate::octets::{behind, short_at};
use crate::place::{Place, place_of, without};
use crate::texts::push_short;
use crate::tsig::{Tsig, tsig_at};
use crate::verdict::{TsigError, Verdict, verdict_of};
use message_reading::read_header;
use std::alloc::Global;
use zone_proto::ProtoError;

/// What the TSIG of a request is found to be.
#[derive(Drop)]
pub enum Checked<'k> {
    /// There is none; or the message is a response or no whole message. It is answered as one without TSIG, or not at all.
    Unsigned,
    /// It can't be read, stands elsewhere than last, isn't the only one, or its MAC has a length that none may have: FORMERR.
    Malformed,
    /// It is refused with an error, which `refuse` answers. The key is given where its MAC was right, so that the response is signed; the
    /// octets are the message without it.
    Refused(Tsig, TsigError, Option<&'k Key>, Vec<u8>),
    /// It is right: the message was signed under this key. The octets are the message without it, which is what a server answers.
    Signed(Tsig, &'k Key, Vec<u8>),
}

/// Looks for the TSIG of a request and checks it, with the keys of a server, at a moment in seconds since 1970.
///
/// The checks are those of RFC 8945 section 5.2 in their order: its place and its form, its key, its MAC, its time, and the length of the
/// MAC: the whole of it is asked for. Of keys of one name and algorithm the first counts. Records are passed over by their lengths, so
/// that requests of any opcode are checked. Refused for want of memory alone.
#[tactic(auto, using(crate::proofs::Authentic::signed_is_authentic), unfolding(crate::specs::Checking::checked_of))]
pub fn check_request<'k>(
    alloc: Global,
    keys: &'k [Key],
    now: u64,
    message: &[u8],
) -> Result<Checked<'k>, ProtoError>
    ensures checked { IfOk result
        (λ checked. checked_kept checked ≡ checked_of keys.now now message.now) }
    ensures authentic { IfOk result (IsAuthenticIfSigned keys.now now message.now) }
{
    match read_header(message) {
        Some((header, _)) if !header.is_response => by_place(alloc, keys, now, message),
        _ => Ok(Checked::Unsigned),
    }
}

/// Looks for the TSIG of a message, and checks it.
fn by_place<'k>(
    alloc: Global,
    keys: &'k [Key],
    now: u64,
    message: &[u8],
) -> Result<Checked<'k>, ProtoError>
    ensures { IfOk result (λ checked. checked_kept checked
        ≡ by_place keys.now now message.now (place_of message.now)) }
{
    match place_of(message) {
        Place::Absent => Ok(Checked::Unsigned),
        Place::Misplaced => Ok(Checked::Malformed),
        Place::Last(at) => {
            let tsig = tsig_at(alloc, message, at)?;
            let rest = without(alloc, short_at(message, 10), at, message)?;
            by_tsig(alloc, keys, now, tsig, rest)
        }
    }
}

/// Checks a TSIG that was read.
fn by_tsig<'k>(
    alloc: Global,
    keys: &'k [Key],
    now: u64,
    tsig: Option<Tsig>,
    rest: Vec<u8>,
) -> Result<Checked<'k>, ProtoError>
    ensures { IfOk result (λ checked. checked_kept checked ≡ by_tsig keys.now now tsig rest.items) }
{
    match tsig {
        None => Ok(Checked::Malformed),
        Some(tsig) => match key_for(&tsig, keys)? {
            None => Ok(Checked::Refused(tsig, TsigError::BadKey, None, rest)),
            Some(key) => {
                let verdict = verdict_for(alloc, now, &tsig, key, rest.as_slice())?;
                Ok(by_verdict(tsig, key, rest, verdict))
            }
        },
    }
}

/// What is found of the TSIG of a request, of which `rest` is the message without it.
fn verdict_for(
    alloc: Global,
    now: u64,
    tsig: &Tsig,
    key: &Key,
    rest: &[u8],
) -> Result<Verdict, ProtoError>
    ensures { IfOk result (λ verdict. verdict
        ≡ verdict_of key.now now tsig.now (request_text tsig.now rest.now)) }
{
    let mut prefix = Vec::new(alloc);
    push_short(&mut prefix, tsig.original_id)?;
    let variables = tsig.variables()?;
    Ok(verdict_of(
        alloc,
        key,
        now,
        tsig,
        prefix.as_slice(),
        behind(rest, 2),
        variables.as_slice(),
    )?)
}

/// What a request is found to be by what is found of its TSIG.
fn by_verdict<'k>(tsig: Tsig, key: &'k Key, rest: Vec<u8>, verdict: Verdict) -> Checked<'k>
    ensures { checked_kept result ≡ by_verdict tsig key.now rest.items verdict }
{
    match verdict {
        Verdict::Right => Checked::Signed(tsig, key, rest),
        Verdict::Malformed => Checked::Malformed,
        Verdict::Wrong(TsigError::BadTime) => {
            Checked::Refused(tsig, TsigError::BadTime, Some(key), rest)
        }
        Verdict::Wrong(TsigError::BadTrunc) => {
            Checked::Refused(tsig, TsigError::BadTrunc, Some(key), rest)
        }
        Verdict::Wrong(error) => Checked::Refused(tsig, error, None, rest),
    }
}
