//! Messages answered with options.
ghost use Rattle.std.specs.Prelude.{◌≡◌, IfOk, option_map};
ghost use Rattle.server_options.specs.Asking.{limit_by, state_of};
ghost use Rattle.server_options.specs.ServerAnswers.{AnswersByState, AnswersOptions, IsAnswerToArrival, cookie_state};
ghost use Rattle.server_options.specs.Telling.{TellsAnswer};

use crate::arrival::{Arrival, ServerOptions};
use crate::asking::{
    CookieState, comes_again, cookie_in, header_alone, limit_by, lowered, nsid_in, reserved,
    state_of,
};
use crate::bad_cookies::answer_or_send_back;
use crate::completing::complete;
use crate::responder::Responder;
use crate::summary::{Summary, summary_of};
use message_cookies::CookieSecrets;
use message_options::opt_of;
use std::alloc::{AllocError, Global};

/// Answers a message from the zones of a responder, in place of the octets of `out`, as [`answer`](zone_server::answer) does, and with
/// options in the OPT record of the response (RFC 6891 section 6.1.2):
///
/// - COOKIE, where the query has one and the server has secrets: the client cookie with a new server cookie (RFC 7873, RFC 9018). A
///   malformed one gets FORMERR, by a header alone.
/// - where the server wants cookies, BADCOOKIE with the COOKIE option alone, over UDP, where that of the query has no valid server cookie.
/// - an extended error (RFC 8914) where the code is REFUSED: 20, Not Authoritative; and where it is SERVFAIL: 0, Other.
/// - NSID, where the query asks for it and the server has an identifier (RFC 5001).
///
/// A response over UDP leaves room for cookie and identifier within what it may have, but no room below 512 octets; an option that still
/// finds none is left out.
///
/// Gives what the answer was; none where there is no answer. Fails only for lack of memory.
pub fn answer_arrival<R: Responder>(
    alloc: Global,
    responder: &R,
    options: &ServerOptions<'_>,
    arrival: &Arrival<'_>,
    out: &mut Vec<u8>,
) -> Result<Option<Summary>, AllocError>
    ensures { IfOk result (λ summary. TellsAnswer (R.zones responder.now) options.now arrival.now
        summary out.new.items) }
{
    let (cookie, labels) = answer_opt(alloc, responder, options, arrival, out)?;
    Ok(summary_of(cookie, labels, out.as_slice()))
}

/// The same: what the cookie tells, and how many labels the origin of the zone has that answers.
#[tactic(auto, using(crate::proofs::Steps::answers_opt, crate::proofs::Steps::told_opt))]
fn answer_opt<R: Responder>(
    alloc: Global,
    responder: &R,
    options: &ServerOptions<'_>,
    arrival: &Arrival<'_>,
    out: &mut Vec<u8>,
) -> Result<(CookieState, usize), AllocError>
    ensures answer { IfOk result (λ told. IsAnswerToArrival (R.zones responder.now) options.now
        arrival.now told.1 out.new.items) }
    ensures cookie { IfOk result (λ told. told.0 ≡ cookie_state options.now arrival.now) }
{
    match opt_of(arrival.message) {
        None => {
            let labels = responder.answer(alloc, arrival.message, arrival.transport, out)?;
            Ok((CookieState::Absent, labels))
        }
        Some((frame, data)) => {
            let cookie = cookie_in(options.secrets, data);
            let nsid = nsid_in(options.nsid, data);
            let required = options.cookies_required;
            answer_options(
                alloc,
                responder,
                arrival,
                required,
                cookie,
                nsid,
                frame.class,
                out,
            )
        }
    }
}

/// The same for a query with an OPT record, that takes so many octets.
#[tactic(auto, using(crate::proofs::Steps::answers_options))]
fn answer_options<R: Responder>(
    alloc: Global,
    responder: &R,
    arrival: &Arrival<'_>,
    required: bool,
    cookie: Option<(CookieSecrets, &[u8])>,
    nsid: &[u8],
    size: u16,
    out: &mut Vec<u8>,
) -> Result<(CookieState, usize), AllocError>
    ensures answer { IfOk result (λ told. AnswersOptions (R.zones responder.now) arrival.now
        required (option_map (λ x. (x.0, x.1.now)) cookie.entry) nsid.now size told.1
        out.new.items) }
    ensures cookie { IfOk result (λ told. told.0 ≡ state_of
        (option_map (λ x. (x.0, x.1.now)) cookie.entry) arrival.now) }
{
    let state = state_of(cookie, arrival);
    let limit = limit_by(arrival.transport, size);
    let labels = answer_by_state(
        alloc, responder, arrival, required, state, cookie, nsid, limit, out,
    )?;
    Ok((state, labels))
}

/// The same for what its cookie tells, within a limit.
#[tactic(auto, using(crate::proofs::Steps::answers_header, crate::proofs::Steps::completes))]
fn answer_by_state<R: Responder>(
    alloc: Global,
    responder: &R,
    arrival: &Arrival<'_>,
    required: bool,
    state: CookieState,
    cookie: Option<(CookieSecrets, &[u8])>,
    nsid: &[u8],
    limit: u16,
    out: &mut Vec<u8>,
) -> Result<usize, AllocError>
    ensures { IfOk result (λ labels. AnswersByState (R.zones responder.now) arrival.now required
        state (option_map (λ x. (x.0, x.1.now)) cookie.entry) nsid.now limit labels
        out.new.items) }
{
    match state {
        CookieState::Malformed => {
            let header = header_alone(arrival.message);
            responder.answer(alloc, header, arrival.transport, out)
        }
        CookieState::Absent | CookieState::Unknown | CookieState::Known => {
            let way = lowered(arrival.transport, limit, reserved(state, nsid));
            let again = comes_again(required, arrival.transport, state);
            let labels = answer_or_send_back(alloc, responder, arrival.message, way, again, out)?;
            complete(alloc, limit, cookie, nsid, arrival, out)?;
            Ok(labels)
        }
    }
}
