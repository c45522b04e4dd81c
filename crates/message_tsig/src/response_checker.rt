//! The messages of a response checked by those who signed the request (RFC 8945 sections 5.3.1 and 5.4).
ghost use Rattle.std.specs.Prelude.{◌≡◌, IfOk, List, ℕ, [], OnErr};
ghost use Rattle.message_tsig.specs.Checkings.{Checking, is_complete};
ghost use Rattle.message_tsig.specs.Responses.{checked_text, checking_behind, found_by_tsig, found_by_verdict, found_kept, found_of, found_unsigned, found_unverified, IsAuthenticResponseIfSigned, is_refusal, text_before, text_behind};
ghost use Rattle.message_tsig.specs.Signing.{of_request};
ghost use Rattle.message_tsig.specs.Verdicts.{verdict_of};

use crate::key::{Key, names_key};
use crate::octets::{behind, octet_at, short_at};
use crate::place::{Place, place_of, without};
use crate::texts::{push_counted, push_short};
use crate::tsig::{Tsig, tsig_at};
use crate::verdict::{TsigError, Verdict, verdict_of};
use std::alloc::{AllocError, Global};
use std::marker::Model;
use zone_proto::ProtoError;

/// How many messages in a row may be without a TSIG (RFC 8945 section 5.3.1).
const MOST_UNSIGNED: u8 = 99;

/// What a message of a response is found to be.
#[derive(Drop)]
pub enum CheckedResponse {
    /// Its TSIG is right. The octets are the message without it.
    Signed(Tsig, Vec<u8>),
    /// It has no TSIG, and comes behind one that has. It can be relied on once the next message that has one is found signed.
    Unsigned,
    /// The server refused the request, and says so in a TSIG that is right: its error is 18 (BADTIME), and its other data the server's time;
    /// or 22 (BADTRUNC).
    Refused(Tsig),
    /// The message says that the server refused the request, NOTAUTH with the error of this TSIG, which isn't right: BADSIG and BADKEY are
    /// answered so. Anybody may have written it.
    RefusedUnsigned(Tsig),
    /// It isn't what was asked for: whoever asked by UDP waits for another, and whoever asked by TCP closes the connection.
    Wrong(ResponseFault),
}

/// What is wrong with a message of a response.
#[derive(Clone, Copy, PartialEq, Eq, Debug)]
pub enum ResponseFault {
    /// It has no TSIG, and is the first; or 99 before it had none.
    Missing,
    /// Its TSIG can't be read, stands elsewhere than last, isn't the only one, or its MAC has a length that none may have.
    Malformed,
    /// Its TSIG names another key, or is wrong under this one.
    Tsig(TsigError),
}

/// Checks the messages of a response to a signed request, one after the other: a single one, or those of a transfer, of which all but the
/// first and the last may be without a TSIG (RFC 8945 sections 5.3.1 and 5.4). The octets of up to 99 messages without one are kept until the
/// next with one.
#[derive(Drop)]
pub struct ResponseChecker {
    is_first: bool,
    prior: Vec<u8>,
    since: Vec<u8>,
    count: u8,
}

impl Model for ResponseChecker {
    ghost use Rattle.message_tsig.specs.Checkings.{Checking};
    ghost use Rattle.message_tsig.specs.Signing.{prior_at};

    ghost Value = { Checking };

    ghost view = { λ c. record {
      prior = prior_at c.is_first c.prior.items;
      since = c.since.items;
      count = c.count;
    } };
}

impl ResponseChecker {
    /// The checker of the response to a request that has this MAC, which `sign_request` gives. Refused for want of memory alone.
    pub fn new(alloc: Global, request_mac: &[u8]) -> Result<ResponseChecker, AllocError>
        ensures { IfOk result (λ c. c ≡ record {
          prior = of_request request_mac.now;
          since = [];
          count = 0;
        }) }
    {
        Ok(ResponseChecker {
            is_first: true,
            prior: Vec::from_slice(alloc, request_mac)?,
            since: Vec::new(alloc),
            count: 0,
        })
    }

    /// Checks the next message of the response under the key of the request, at a moment in seconds since 1970. Behind one that is refused or
    /// wrong the checker is as before. Whether the message is a response to the request at all, by its header and its question, is for those to
    /// say who read it. Refused for want of memory alone; then too the checker is as before.
    #[tactic(auto, using(crate::proofs::AuthenticResponses::found_is_authentic), unfolding(crate::specs::Responses::found_of))]
    pub fn check(
        &mut self,
        alloc: Global,
        key: &Key,
        now: u64,
        message: &[u8],
    ) -> Result<CheckedResponse, ProtoError>
        ensures found { IfOk result
            (λ found. found_kept found ≡ found_of key.now now self.old message.now) }
        ensures next { IfOk result
            (λ found. self.new ≡ checking_behind self.old message.now (found_kept found)) }
        ensures authentic { IfOk result
            (IsAuthenticResponseIfSigned key.now now self.old message.now) }
        ensures err { OnErr result (self.new ≡ self.old) }
    {
        match place_of(message) {
            Place::Absent => self.pass_unsigned(message),
            Place::Misplaced => Ok(CheckedResponse::Wrong(ResponseFault::Malformed)),
            Place::Last(at) => {
                let tsig = tsig_at(alloc, message, at)?;
                let rest = without(alloc, short_at(message, 10), at, message)?;
                self.check_tsig(alloc, key, now, tsig, rest)
            }
        }
    }

    /// Whether the last message that came was found signed. A transfer that ends otherwise isn't to be relied on.
    pub fn is_complete(&self) -> bool
        ensures { result ≡ is_complete self.now }
    {
        !self.is_first && self.count == 0
    }

    /// Passes over a message without a TSIG, where it may have none.
    fn pass_unsigned(&mut self, message: &[u8]) -> Result<CheckedResponse, ProtoError>
        ensures found { IfOk result (λ found. found_kept found ≡ found_unsigned self.old) }
        ensures next { IfOk result
            (λ found. self.new ≡ checking_behind self.old message.now (found_kept found)) }
        ensures err { OnErr result (self.new ≡ self.old) }
    {
        if self.is_first || self.count >= MOST_UNSIGNED {
            return Ok(CheckedResponse::Wrong(ResponseFault::Missing));
        }
        self.since.extend_from_slice(message)?;
        self.count += 1;
        Ok(CheckedResponse::Unsigned)
    }

    /// Checks a TSIG that was read; the octets are the message without it.
    fn check_tsig(
        &mut self,
        alloc: Global,
        key: &Key,
        now: u64,
        tsig: Option<Tsig>,
        rest: Vec<u8>,
    ) -> Result<CheckedResponse, ProtoError>
        ensures found { IfOk result (λ found. found_kept found
            ≡ found_by_tsig key.now now self.old tsig rest.items) }
        ensures next { (message : List ℕ) → IfOk result
            (λ found. self.new ≡ checking_behind self.old message (found_kept found)) }
        ensures err { OnErr result (self.new ≡ self.old) }
    {
        match tsig {
            None => Ok(CheckedResponse::Wrong(ResponseFault::Malformed)),
            Some(tsig) => {
                if !names_key(&tsig, key)? {
                    let fault = ResponseFault::Tsig(TsigError::BadKey);
                    return Ok(unverified(tsig, rest.as_slice(), fault));
                }
                let verdict = self.verdict_for(alloc, key, now, &tsig, rest.as_slice())?;
                self.by_verdict(alloc, tsig, rest, verdict)
            }
        }
    }

    /// What is found of the TSIG of a message, of which `rest` is the message without it.
    fn verdict_for(
        &self,
        alloc: Global,
        key: &Key,
        now: u64,
        tsig: &Tsig,
        rest: &[u8],
    ) -> Result<Verdict, ProtoError>
        ensures { IfOk result (λ verdict. verdict
            ≡ verdict_of key.now now tsig.now (checked_text self.now tsig.now rest.now)) }
    {
        let mut prefix = self.text_before(alloc)?;
        push_short(&mut prefix, tsig.original_id)?;
        let end = self.text_behind(tsig)?;
        Ok(verdict_of(
            alloc,
            key,
            now,
            tsig,
            prefix.as_slice(),
            behind(rest, 2),
            end.as_slice(),
        )?)
    }

    /// What comes before the next message in what its MAC is made of.
    fn text_before(&self, alloc: Global) -> Result<Vec<u8>, AllocError>
        ensures { IfOk result
            (λ text. text.items ≡ text_before self.now.prior self.now.since) }
    {
        let mut out = Vec::new(alloc);
        push_counted(&mut out, self.prior.as_slice())?;
        if self.is_first {
            return Ok(out);
        }
        out.extend_from_slice(self.since.as_slice())?;
        Ok(out)
    }

    /// What comes behind the next message in what its MAC is made of.
    fn text_behind(&self, tsig: &Tsig) -> Result<Vec<u8>, ProtoError>
        ensures { IfOk result (λ text. text.items ≡ text_behind self.now.prior tsig.now) }
    {
        if self.is_first {
            tsig.variables()
        } else {
            tsig.timers()
        }
    }

    /// What a message is found to be by what is found of its TSIG.
    fn by_verdict(
        &mut self,
        alloc: Global,
        tsig: Tsig,
        rest: Vec<u8>,
        verdict: Verdict,
    ) -> Result<CheckedResponse, ProtoError>
        ensures found { IfOk result (λ found. found_kept found
            ≡ found_by_verdict tsig rest.items verdict) }
        ensures next { (message : List ℕ) → IfOk result
            (λ found. self.new ≡ checking_behind self.old message (found_kept found)) }
        ensures err { OnErr result (self.new ≡ self.old) }
    {
        match verdict {
            Verdict::Malformed => Ok(unverified(tsig, rest.as_slice(), ResponseFault::Malformed)),
            Verdict::Wrong(error) => Ok(unverified(
                tsig,
                rest.as_slice(),
                ResponseFault::Tsig(error),
            )),
            Verdict::Right => {
                if tsig.error > 0 {
                    return Ok(CheckedResponse::Refused(tsig));
                }
                self.prior = Vec::from_slice(alloc, tsig.mac.as_slice())?;
                self.is_first = false;
                self.since.clear();
                self.count = 0;
                Ok(CheckedResponse::Signed(tsig, rest))
            }
        }
    }
}

/// What a message is found to be whose TSIG isn't right, by this fault; the octets are the message without it.
fn unverified(tsig: Tsig, rest: &[u8], fault: ResponseFault) -> CheckedResponse
    ensures found { found_kept result ≡ found_unverified tsig rest.now fault }
    ensures next { (c : Checking) (message : List ℕ)
        → checking_behind c message (found_kept result) ≡ c }
{
    if is_refusal(&tsig, rest) {
        CheckedResponse::RefusedUnsigned(tsig)
    } else {
        CheckedResponse::Wrong(fault)
    }
}

/// Whether the code of a message is NOTAUTH, and its TSIG has an error.
fn is_refusal(tsig: &Tsig, rest: &[u8]) -> bool
    ensures { result ≡ is_refusal tsig.now rest.now }
{
    octet_at(rest, 3) % 16 == 9 && tsig.error > 0
}
