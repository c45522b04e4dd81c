//! Makes the calls of a handler through its trait: on the zone, and on a handler that leaves to its trait what it can.
ghost use Rattle.std.specs.Prelude.{◌≡◌};
ghost use Rattle.zone_proto.specs.Types.{AXFR};
ghost use Rattle.zone_handler.specs.Transfers.{IsNoLookup};

use crate::iterators::write_records;
use crate::texts::write_flow;
use crate::write::Answer;
use library_rows_arguments::Arguments;
use std::alloc::Global;
use zone_handler::{
    AuthLookup, AxfrPolicy, LookupControlFlow, LookupError, LookupOptions, NetError,
    Nsec3QueryInfo, Request, RequestInfo, TSigResponseContext, ZoneHandler, ZoneTransfer, ZoneType,
};
use zone_proto::{DNSClass, LowerName, NxProofKind, Query, RecordType, ResponseCode};

/// A zone that exists and owns nothing that anybody asks for.
#[derive(Drop)]
struct Parked {
    origin: LowerName,
    nx_proof_kind: Option<NxProofKind>,
}

impl Parked {
    /// The one at the root, which says that it denies by NSEC.
    fn new(alloc: Global) -> Parked {
        Parked {
            origin: LowerName::root(alloc),
            nx_proof_kind: Some(NxProofKind::Nsec),
        }
    }
}

impl ZoneHandler for Parked {
    ghost use Rattle.zone_handler.specs.declared.zone_type.ZoneType.TheVariants.{External};
    ghost use Rattle.zone_handler.specs.declared.axfr_policy.AxfrPolicy.TheVariants.{AllowSigned};
    ghost use Rattle.zone_handler.specs.ControlFlow.{is_break};
    ghost use Rattle.zone_handler.specs.declared.control_flow.LookupControlFlow.TheVariants.{Break, Skip};
    ghost use Rattle.lookup_types.specs.declared.lookup_error.LookupError.TheVariants.{NameExists};
    ghost use Rattle.std.specs.Prelude.{◌≡◌, ◌==◌, true, Err, None};
    ghost use Rattle.zone_proto.specs.Types.{AXFR};

    ghost zone_type_of = { λ _. External };

    ghost axfr_policy_of = { λ _. AllowSigned };

    ghost origin_of = { λ zone. zone.origin };

    ghost kind_of = { λ zone. zone.nx_proof_kind };

    ghost lookup_gives = { λ _ _ record_type _ _ flow. is_break flow ≡ (record_type == AXFR) };

    ghost consult_gives = { λ _ _ _ _ _ last answer.
        (last ≡ Skip) × (answer ≡ (Break (Err NameExists), None)) };

    ghost search_gives = { λ _ _ _ _ answer. is_break answer.0 ≡ true };

    ghost denial_gives = { λ _ _ _ flow. flow ≡ Skip };

    ghost hashed_denial_gives = { λ _ _ _ flow. flow ≡ Skip };

    fn zone_type(&self) -> ZoneType {
        ZoneType::External
    }

    fn axfr_policy(&self) -> AxfrPolicy {
        AxfrPolicy::AllowSigned
    }

    fn origin(&self) -> &LowerName {
        &self.origin
    }

    fn nx_proof_kind(&self) -> Option<&NxProofKind> {
        self.nx_proof_kind.as_ref()
    }

    fn lookup(
        &self,
        name: &LowerName,
        record_type: RecordType,
        _request_info: Option<&RequestInfo<'_>>,
        _lookup_options: LookupOptions,
        _now: u64,
    ) -> LookupControlFlow<AuthLookup> {
        if record_type == RecordType::AXFR {
            let error = NetError::from("AXFR must be handled with ZoneHandler::zone_transfer()");
            return LookupControlFlow::Break(Err(LookupError::from(error)));
        }
        if self.origin.zone_of(name) {
            LookupControlFlow::Continue(Err(LookupError::for_name_exists()))
        } else {
            LookupControlFlow::Skip
        }
    }

    fn consult(
        &self,
        _name: &LowerName,
        _record_type: RecordType,
        _request_info: Option<&RequestInfo<'_>>,
        _lookup_options: LookupOptions,
        last_result: LookupControlFlow<AuthLookup>,
    ) -> (LookupControlFlow<AuthLookup>, Option<TSigResponseContext>) {
        match last_result {
            LookupControlFlow::Skip => (
                LookupControlFlow::Break(Err(LookupError::NameExists)),
                None,
            ),
            step => (step, None),
        }
    }

    fn search(
        &self,
        _request: &Request,
        _lookup_options: LookupOptions,
        _now: u64,
    ) -> (LookupControlFlow<AuthLookup>, Option<TSigResponseContext>) {
        let refused = LookupError::from(ResponseCode::Refused);
        (LookupControlFlow::Break(Err(refused)), None)
    }

    fn nsec_records(
        &self,
        _name: &LowerName,
        _lookup_options: LookupOptions,
    ) -> LookupControlFlow<AuthLookup> {
        LookupControlFlow::Skip
    }

    fn nsec3_records(
        &self,
        _info: Nsec3QueryInfo<'_>,
        _lookup_options: LookupOptions,
    ) -> LookupControlFlow<AuthLookup> {
        LookupControlFlow::Skip
    }
}

/// Makes a call of a handler that exists and owns nothing.
pub fn make_parked_call(out: &mut Answer, verb: &str, arguments: &mut Arguments<'_>) {
    let mut parked = Parked::new(arguments.alloc);
    let verb = verb.strip_prefix("parked ").unwrap_or(verb);
    make_handler_call(out, &mut parked, verb, arguments);
}

/// Makes a call of any handler.
pub fn make_handler_call<Z: ZoneHandler>(
    out: &mut Answer,
    zone: &mut Z,
    verb: &str,
    arguments: &mut Arguments<'_>,
) {
    match verb {
        "lookup" | "at" => write_flow(out, asked(zone, arguments)),
        "request" => search(out, zone, arguments),
        "transfer" => transfer(out, zone, arguments),
        "consult" => write_flow(out, consulted(zone, arguments)),
        "is" => write_itself(out, zone),
        "kind" => write_denial_kind(out, zone),
        "update" => update(out, zone, arguments),
        "deny" => write_flow(out, denied(zone, arguments)),
        verb => write_flow(out, denied_by_hash(zone, verb == "expanded", arguments)),
    }
}

/// What any zone answers to a question, at a moment.
fn asked<Z: ZoneHandler>(zone: &Z, arguments: &mut Arguments<'_>) -> LookupControlFlow<AuthLookup> {
    let query = arguments.take_query();
    looked_up(zone, &query, arguments.options(), arguments.take_number())
}

fn looked_up<Z: ZoneHandler>(
    zone: &Z,
    query: &Query,
    options: LookupOptions,
    now: u64,
) -> LookupControlFlow<AuthLookup>
    ensures answer { Z.lookup_gives zone.now query.now.name query.now.query_type.0 options now
        result }
    ensures transfer { query.now.query_type.0 ≡ AXFR → IsNoLookup result }
{
    let info = RequestInfo { query };
    zone.lookup(query.name(), query.query_type(), Some(&info), options, now)
}

/// Writes what any zone answers to a request; no response is signed.
fn search<Z: ZoneHandler>(out: &mut Answer, zone: &Z, arguments: &mut Arguments<'_>) {
    let request = arguments.take_request();
    match alone(searched(zone, &request, LookupOptions::default())) {
        Some(flow) => write_flow(out, flow),
        None => out.say("signed"),
    }
}

/// What is in a pair, unless something is beside it. It is of any type, so that a proof has nothing to take apart.
fn alone<T: Drop, S: Drop>(pair: (T, Option<S>)) -> Option<T> {
    match pair {
        (value, None) => Some(value),
        _ => None,
    }
}

/// What any zone answers to a request.
fn searched<Z: ZoneHandler>(
    zone: &Z,
    request: &Request,
    options: LookupOptions,
) -> (LookupControlFlow<AuthLookup>, Option<TSigResponseContext>)
    ensures { Z.search_gives zone.now request.now options 0 result }
{
    zone.search(request, options, 0)
}

/// What any zone makes of a step, for a question.
fn consulted<Z: ZoneHandler>(
    zone: &Z,
    arguments: &mut Arguments<'_>,
) -> LookupControlFlow<AuthLookup> {
    let query = arguments.take_query();
    let (step, options) = (step_of(arguments.text), LookupOptions::default());
    zone.consult(query.name(), query.query_type(), None, options, step)
        .0
}

/// What any zone denies a name by.
fn denied<Z: ZoneHandler>(
    zone: &Z,
    arguments: &mut Arguments<'_>,
) -> LookupControlFlow<AuthLookup> {
    let name = arguments.take_lower();
    denial_of(zone, &name, arguments.options())
}

fn denial_of<Z: ZoneHandler>(
    zone: &Z,
    name: &LowerName,
    options: LookupOptions,
) -> LookupControlFlow<AuthLookup>
    ensures { Z.denial_gives zone.now name.now options result }
{
    zone.nsec_records(name, options)
}

/// What any zone denies a query by with hashed names, without salt and iterations.
fn denied_by_hash<Z: ZoneHandler>(
    zone: &Z,
    has_wildcard_match: bool,
    arguments: &mut Arguments<'_>,
) -> LookupControlFlow<AuthLookup> {
    let name = arguments.take_lower();
    let info = Nsec3QueryInfo {
        qname: &name,
        qtype: arguments.take_type(),
        has_wildcard_match,
        algorithm: 1,
        salt: b"",
        iterations: 0,
    };
    zone.nsec3_records(info, arguments.options())
}

/// Writes what any zone says of itself.
fn write_itself<Z: ZoneHandler>(out: &mut Answer, zone: &Z) {
    out.put(zone.origin());
    out.say(" ");
    out.show(&zone.zone_type());
    out.say(" ");
    out.show(&zone.axfr_policy());
    out.say(", validates: ");
    out.hold(zone.can_validate_dnssec());
}

/// Writes how any zone denies, as the type of the sets that deny.
fn write_denial_kind<Z: ZoneHandler>(out: &mut Answer, zone: &Z) {
    out.say(match zone.nx_proof_kind() {
        None => "nothing",
        Some(NxProofKind::Nsec) => "NSEC",
        Some(NxProofKind::Nsec3 { .. }) => "NSEC3",
    });
}

/// Writes what any zone answers to an update.
fn update<Z: ZoneHandler>(out: &mut Answer, zone: &mut Z, arguments: &mut Arguments<'_>) {
    let request = arguments.take_request();
    match alone(zone.update(&request, 5)) {
        Some(answer) => out.tell(answer),
        None => out.say("signed"),
    }
}

/// The step that a word stands for.
fn step_of(word: &str) -> LookupControlFlow<AuthLookup> {
    match word {
        "skip" => LookupControlFlow::Skip,
        "break" => LookupControlFlow::Break(Err(LookupError::NameExists)),
        "error" => LookupControlFlow::Continue(Err(LookupError::BadQueryCount(2))),
        _ => LookupControlFlow::Continue(Ok(AuthLookup::Empty)),
    }
}

/// Writes what any zone answers to a request for a transfer.
fn transfer<Z: ZoneHandler>(out: &mut Answer, zone: &Z, arguments: &mut Arguments<'_>) {
    let request = arguments.take_request();
    match zone.zone_transfer(&request, arguments.options(), 0) {
        Some(answer) => write_first(out, alone(answer)),
        None => out.say("nothing"),
    }
}

/// Writes a transfer that isn't signed.
fn write_first(out: &mut Answer, answer: Option<Result<ZoneTransfer, LookupError>>) {
    match answer {
        Some(answer) => write_transfer(out, answer),
        None => out.say("signed"),
    }
}

/// Writes a transfer, or its error.
fn write_transfer(out: &mut Answer, answer: Result<ZoneTransfer, LookupError>) {
    match answer {
        Ok(transfer) => {
            write_parts(out, &transfer);
            drop(transfer);
        }
        Err(error) => out.fail(error),
    }
}

/// Writes the records of a transfer, and their count; after the last it lends nothing.
pub fn write_parts(out: &mut Answer, transfer: &ZoneTransfer) {
    let mut records = transfer.into_iter();
    let count = write_records(out, records.by_ref());
    out.put(&count);
    out.say(" records");
    if records.next().is_some() || records.next().is_some() {
        out.say(", and more");
    }
}
