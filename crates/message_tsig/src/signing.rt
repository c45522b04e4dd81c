//! Responses signed (RFC 8945 section 5.3).
ghost use Rattle.std.specs.Prelude.{◌≡◌, ◌≤◌, ◌+◌, ◌-◌, IfOk, OnErr, OnOk, length, option_copied};
ghost use Rattle.zone_proto.specs.Names.{wire_length};
ghost use Rattle.message_tsig.specs.Signing.{behind_signed, error_number, fitting, has_room, of_request, refusal_mac, refusal_stamp, refused_text, response_stamp, signed_message, stamp, text_in, tsig_size, with_tsig};
ghost use Rattle.message_tsig.specs.Tsigs.{signed_text};
ghost use Rattle.message_tsig.specs.Texts.{counted_text};
ghost use Rattle.message_tsig.specs.Verdicts.{mac_under};

use crate::key::{Key, algorithm_name, algorithm_text};
use crate::octets::{behind, short_at};
use crate::replies::{header_alone, refusal, truncated};
use crate::texts::{push_counted, push_short, push_time, with_additionals};
use crate::tsig::Tsig;
use crate::verdict::TsigError;
use message_hmac::mac;
use std::alloc::Global;
use std::marker::Model;
use zone_proto::{LowerName, Name, ProtoError, Seq};

/// How far apart the clocks of both sides may be, in seconds (RFC 8945 section 10).
pub const FUDGE: u16 = 300;

/// NOTAUTH (RFC 8945 section 3).
const NOT_AUTHENTIC: u8 = 9;

/// How many octets the TSIG of a response has at most.
const MOST_ROOM: usize = 358;

/// Signs the messages of a response, one after the other: a single one, or those of a transfer. The MAC of the first covers that of the
/// request, and the MAC of each further one that of the message before (RFC 8945 sections 5.3 and 5.3.1).
#[derive(Drop)]
pub struct ResponseSigner {
    original_id: u16,
    is_first: bool,
    prior: Vec<u8>,
}

impl Model for ResponseSigner {
    ghost use Rattle.message_tsig.specs.Signing.{prior_at, Signing};

    ghost Value = { Signing };

    ghost view = { λ s. record {
      original_id = s.original_id;
      prior = prior_at s.is_first s.prior.items;
    } };
}

impl ResponseSigner {
    /// The signer of the response to a request with this TSIG, which `check_request` found signed. Refused for want of memory alone.
    pub fn new(alloc: Global, request: &Tsig) -> Result<ResponseSigner, ProtoError>
        ensures { IfOk result (λ s. s ≡ record {
          original_id = request.now.original_id;
          prior = of_request request.now.mac;
        }) }
    {
        Ok(ResponseSigner {
            original_id: request.original_id,
            is_first: true,
            prior: Vec::from_slice(alloc, request.mac.as_slice())?,
        })
    }

    /// The next message of the response with its TSIG under a key, which is to be that of the request, at a moment in seconds since 1970.
    /// The message has its header, and is without a TSIG.
    ///
    /// `limit` is how many octets may go out, 512 at least: where it leaves no room for the TSIG behind the message, the result is the
    /// questions alone with TC and the TSIG (RFC 8945 section 5.3), and where there is none for these, the header with TC and the TSIG.
    /// The messages of a transfer have to leave room for `tsig_size`, so that none of them is cut. Refused for want of memory alone; then
    /// the signer is as before.
    pub fn sign(
        &mut self,
        alloc: Global,
        key: &Key,
        now: u64,
        limit: usize,
        message: &[u8],
    ) -> Result<Vec<u8>, ProtoError>
        ensures signed { IfOk result (λ text. text.items
            ≡ signed_message key.now now self.old (fitting limit (tsig_size key.now) message.now)) }
        ensures next { OnOk result (self.new
            ≡ behind_signed key.now now self.old (fitting limit (tsig_size key.now) message.now)) }
        ensures within { 512 ≤ limit → IfOk result (λ text. length text.items ≤ limit) }
        ensures err { OnErr result (self.new ≡ self.old) }
    {
        if has_room(key, limit, message) {
            return self.sign_fitting(alloc, key, now, message);
        }
        let short = truncated(alloc, message)?;
        if has_room(key, limit, short.as_slice()) {
            return self.sign_fitting(alloc, key, now, short.as_slice());
        }
        let header = header_alone(alloc, message)?;
        self.sign_fitting(alloc, key, now, header.as_slice())
    }

    /// A message with its TSIG.
    #[tactic(auto, using(crate::proofs::SignedLengths::length_of_signed))]
    fn sign_fitting(
        &mut self,
        alloc: Global,
        key: &Key,
        now: u64,
        message: &[u8],
    ) -> Result<Vec<u8>, ProtoError>
        ensures signed { IfOk result
            (λ text. text.items ≡ signed_message key.now now self.old message.now) }
        ensures next { OnOk result
            (self.new ≡ behind_signed key.now now self.old message.now) }
        ensures length { IfOk result (λ text. length text.items
            ≤ 12 + (length message.now - 12) + tsig_size key.now) }
        ensures err { OnErr result (self.new ≡ self.old) }
    {
        let mut tsig = self.stamp(alloc, key, now)?;
        let code = self.mac(alloc, key, &tsig, message)?;
        tsig.mac = Seq::from_slice(alloc, code.as_slice())?;
        let text = with_tsig(alloc, message, &tsig)?;
        self.prior = code;
        self.is_first = false;
        Ok(text)
    }

    /// The TSIG of a message, without its MAC.
    fn stamp(&self, alloc: Global, key: &Key, now: u64) -> Result<Tsig, ProtoError>
        ensures { IfOk result (λ tsig. tsig ≡ response_stamp key.now now self.now) }
    {
        let name = Name::from(key.name.clone()?);
        let algorithm = algorithm_name(alloc, key.algorithm)?;
        Ok(stamp(alloc, name, algorithm, self.original_id, now, 0))
    }

    /// The MAC of a message, which is to have this TSIG.
    fn mac(
        &self,
        alloc: Global,
        key: &Key,
        tsig: &Tsig,
        message: &[u8],
    ) -> Result<Vec<u8>, ProtoError>
        ensures { IfOk result (λ code. code.items
            ≡ mac_under key.now (text_in self.now.prior tsig.now message.now)) }
    {
        let end = if self.is_first {
            tsig.variables()?
        } else {
            tsig.timers()?
        };
        mac_behind(
            alloc,
            key,
            self.prior.as_slice(),
            tsig,
            message,
            end.as_slice(),
        )
    }
}

/// Whether a limit leaves room for a TSIG under a key behind a message.
fn has_room(key: &Key, limit: usize, message: &[u8]) -> bool
    ensures value { result ≡ has_room limit (tsig_size key.now) message.now }
    ensures small { tsig_size key.now ≤ 358 }
{
    let size = tsig_size(key);
    size <= limit && message.len() <= limit - size
}

/// How many octets the TSIG of a response under a key has: 358 at most, since the name of a key has 255 in wire form, those of algorithms
/// 13, and a MAC 64. Takes no memory.
pub fn tsig_size(key: &Key) -> usize
    ensures size { result ≡ tsig_size key.now }
    ensures small { result ≤ 358 }
{
    wire_length(&key.name) + algorithm_text(key.algorithm).len() + key.algorithm.size() + 26
}

/// How many octets the wire form of a name has.
fn wire_length(name: &LowerName) -> usize
    ensures length { result ≡ wire_length name.now }
    ensures short { result ≤ 255 }
{
    let mut octets = 1usize;
    for label in name.labels() {
        octets += label.len() + 1;
    }
    octets
}

/// The MAC of a message behind another MAC, and before an end.
fn mac_behind(
    alloc: Global,
    key: &Key,
    prior: &[u8],
    tsig: &Tsig,
    message: &[u8],
    end: &[u8],
) -> Result<Vec<u8>, ProtoError>
    ensures { IfOk result (λ code. code.items
        ≡ mac_under key.now (signed_text (counted_text prior.now) tsig.now message.now end.now)) }
{
    let mut prefix = Vec::new(alloc);
    push_counted(&mut prefix, prior)?;
    push_short(&mut prefix, tsig.original_id)?;
    Ok(mac(
        alloc,
        key.algorithm,
        key.secret.as_slice(),
        prefix.as_slice(),
        behind(message, 2),
        end,
    )?)
}

/// A TSIG of these names at a moment, without its MAC.
pub(crate) fn stamp(
    alloc: Global,
    name: Name,
    algorithm: Name,
    original_id: u16,
    now: u64,
    error: u16,
) -> Tsig
    ensures { result ≡ stamp name algorithm original_id now error }
{
    Tsig {
        name,
        algorithm,
        time: now,
        fudge: FUDGE,
        mac: Seq::new(alloc),
        original_id,
        error,
        other: Seq::new(alloc),
    }
}

/// A message with a TSIG behind its records.
pub(crate) fn with_tsig(alloc: Global, message: &[u8], tsig: &Tsig) -> Result<Vec<u8>, ProtoError>
    ensures { IfOk result (λ text. text.items ≡ with_tsig message.now tsig.now) }
{
    let count = short_at(message, 10).wrapping_add(1);
    let mut out = with_additionals(alloc, count, message, MOST_ROOM)?;
    tsig.push_record(&mut out)?;
    Ok(out)
}

/// The number of an error.
fn error_number(error: TsigError) -> u16
    ensures { result ≡ error_number error }
{
    match error {
        TsigError::BadSig => 16,
        TsigError::BadKey => 17,
        TsigError::BadTime => 18,
        TsigError::BadTrunc => 22,
    }
}

/// The TSIG of the response to a request that is refused, without its MAC.
fn refusal_stamp(
    alloc: Global,
    request: &Tsig,
    now: u64,
    error: TsigError,
) -> Result<Tsig, ProtoError>
    ensures { IfOk result (λ tsig. tsig ≡ refusal_stamp request.now now error) }
{
    let (name, algorithm) = (request.name.clone()?, request.algorithm.clone()?);
    let number = error_number(error);
    let mut tsig = stamp(alloc, name, algorithm, request.original_id, now, number);
    if error == TsigError::BadTime {
        let mut other = Vec::new(alloc);
        push_time(&mut other, now)?;
        tsig.time = request.time;
        tsig.fudge = request.fudge;
        tsig.other = Seq::from_vec(other);
    }
    Ok(tsig)
}

/// The response to a request whose TSIG is refused: NOTAUTH, its questions, and a TSIG with the error, which is signed where the key is given
/// (RFC 8945 section 5.3.2). All but `now`, a moment in seconds since 1970, is as `check_request` found it: the TSIG of the request, the
/// error, the key, and the request without its TSIG. With BADTIME the TSIG has the time and the fudge of the request, and the server's time
/// as other data (section 5.2.3). Refused for want of memory alone.
pub fn refuse(
    alloc: Global,
    request: &Tsig,
    error: TsigError,
    key: Option<&Key>,
    now: u64,
    message: &[u8],
) -> Result<Vec<u8>, ProtoError>
    ensures { IfOk result (λ text. text.items
        ≡ refused_text request.now error (option_copied key.entry) now message.now) }
{
    let answer = refusal(alloc, message, NOT_AUTHENTIC)?;
    let mut tsig = refusal_stamp(alloc, request, now, error)?;
    let code = refusal_mac(alloc, key, request, &tsig, answer.as_slice())?;
    tsig.mac = Seq::from_vec(code);
    with_tsig(alloc, answer.as_slice(), &tsig)
}

/// The MAC of a refusal; no octets where it isn't signed.
fn refusal_mac(
    alloc: Global,
    key: Option<&Key>,
    request: &Tsig,
    tsig: &Tsig,
    message: &[u8],
) -> Result<Vec<u8>, ProtoError>
    ensures { IfOk result (λ code. code.items
        ≡ refusal_mac (option_copied key.entry) request.now tsig.now message.now) }
{
    match key {
        None => Ok(Vec::new(alloc)),
        Some(key) => {
            let end = tsig.variables()?;
            mac_behind(
                alloc,
                key,
                request.mac.as_slice(),
                tsig,
                message,
                end.as_slice(),
            )
        }
    }
}
