//! What each zone answers, wherever its records stand.
ghost use Rattle.std.specs.Prelude.{◌≡◌, ◌⊎◌, ℕ, Bool, Option, Result, IsTrue};
ghost use Rattle.std.specs.Option.{option_map, option_copied};
ghost use Rattle.zone_proto.specs.Names.{Name};
ghost use Rattle.zone_proto.specs.Types.{AXFR};
ghost use Rattle.zone_proto.specs.declared.message.Query.{Query};
ghost use Rattle.zone_proto.specs.declared.nx_proof_kind.NxProofKind.{NxProofKind};
ghost use Rattle.zone_proto.specs.declared.response_code.ResponseCode.{ResponseCode};
ghost use Rattle.zone_handler.specs.declared.zone_type.ZoneType.{ZoneType};
ghost use Rattle.zone_handler.specs.declared.axfr_policy.AxfrPolicy.{AxfrPolicy};
ghost use Rattle.lookup_types.specs.declared.lookup_options.LookupOptions.{LookupOptions};
ghost use Rattle.lookup_types.specs.declared.lookup_error.LookupError.{LookupError};
ghost use Rattle.zone_handler.specs.declared.auth_lookup.AuthLookup.{AuthLookup};
ghost use Rattle.zone_handler.specs.declared.control_flow.LookupControlFlow.{LookupControlFlow};
ghost use Rattle.lookup_types.specs.declared.nsec3_query_info.Nsec3QueryInfo.{Nsec3QueryInfo};
ghost use Rattle.zone_handler.specs.declared.request.Request.{Request};
ghost use Rattle.zone_handler.specs.declared.tsig_response_context.TSigResponseContext.{TSigResponseContext};
ghost use Rattle.zone_handler.specs.declared.zone_transfer.ZoneTransfer.{ZoneTransfer};
ghost use Rattle.zone_handler.specs.Defaults.{IsNoUpdate, IsHandedOn, IsNoTransfer};
ghost use Rattle.zone_handler.specs.Transfers.{IsNoLookup};

use crate::auth_lookup::AuthLookup;
use crate::axfr_policy::AxfrPolicy;
use crate::control_flow::LookupControlFlow;
use crate::request::Request;
use crate::request_info::RequestInfo;
use crate::tsig_response_context::TSigResponseContext;
use crate::zone_transfer::ZoneTransfer;
use crate::zone_type::ZoneType;
use lookup_types::{LookupError, LookupOptions, Nsec3QueryInfo};
use zone_proto::{LowerName, NxProofKind, RecordType, ResponseCode};

/// A zone that a server answers from.
///
/// The calls that have a body here may be left to it. A handler that gives one of its own says in a ghost member what else
/// that one may do; without the member, a call does what the body here does.
pub trait ZoneHandler {
    // What the server is to the zone.
    ghost zone_type_of: { Self → ZoneType };

    // Who may transfer the zone.
    ghost axfr_policy_of: { Self → AxfrPolicy };

    // The name at the zone's top, in lower case.
    ghost origin_of: { Self → Name };

    // How the zone denies what it doesn't hold once it is signed, if it does.
    ghost kind_of: { Self → Option NxProofKind };

    // When the handler may say that it validates.
    ghost may_validate: { Self → Type 0 } = { λ _. ⊥ };

    // The handler before an update that a request asks for at a moment, the answer, and the handler after it: what may come
    // besides a refusal as not implemented.
    ghost update_gives: { Self → Request → ℕ
        → Result Bool ResponseCode × Option TSigResponseContext
        → Self → Type 0 } = { λ _ _ _ _ _. ⊥ };

    // Which steps may answer a lookup of a name and a type number, with the options, at a moment.
    ghost lookup_gives: { Self → Name → ℕ → LookupOptions → ℕ
        → LookupControlFlow AuthLookup LookupError → Type 0 };

    // For a name and a type number, the request's question if there is a request, the options and the step so far: what may
    // be answered besides that step.
    ghost consult_gives: { Self → Name → ℕ → Option Query → LookupOptions
        → LookupControlFlow AuthLookup LookupError
        → LookupControlFlow AuthLookup LookupError × Option TSigResponseContext
        → Type 0 } = { λ _ _ _ _ _ _ _. ⊥ };

    // What may answer a search for a request, with the options, at a moment.
    ghost search_gives: { Self → Request → LookupOptions → ℕ
        → LookupControlFlow AuthLookup LookupError × Option TSigResponseContext → Type 0 };

    // Which steps may answer a query for the NSEC records that deny a name, with the options.
    ghost denial_gives: { Self → Name → LookupOptions
        → LookupControlFlow AuthLookup LookupError → Type 0 };

    // Which steps may answer what asks for the NSEC3 records that deny a query, with the options.
    ghost hashed_denial_gives: { Self → Nsec3QueryInfo → LookupOptions
        → LookupControlFlow AuthLookup LookupError → Type 0 };

    // What may answer a request for the whole zone, with the options, at a moment, besides a refusal as not implemented.
    ghost transfer_gives: { Self → Request → LookupOptions → ℕ
        → Option (Result ZoneTransfer LookupError × Option TSigResponseContext)
        → Type 0 } = { λ _ _ _ _ _. ⊥ };

    /// What the server is to this zone.
    fn zone_type(&self) -> ZoneType
        ensures { result ≡ zone_type_of self.now };

    /// Who may transfer this zone.
    fn axfr_policy(&self) -> AxfrPolicy
        ensures { result ≡ axfr_policy_of self.now };

    /// The name at the zone's top.
    fn origin(&self) -> &LowerName
        ensures { result.now ≡ origin_of self.now };

    /// How this zone denies what it doesn't hold once it is signed: by NSEC records (RFC 4034 section 4), by NSEC3 records
    /// (RFC 5155), or not at all.
    fn nx_proof_kind(&self) -> Option<&NxProofKind>
        ensures { option_copied result ≡ kind_of self.now };

    /// Whether this handler validates what it answers with (DNSSEC, RFC 4035 section 5). If it says nothing of this, it
    /// doesn't.
    fn can_validate_dnssec(&self) -> bool
        ensures { IsTrue result → may_validate self.now }
    {
        false
    }

    /// Changes the zone as `request` asks (a dynamic update, RFC 2136); `now` is the moment in seconds since 1970. The
    /// answer is whether the zone was changed, or the response code that refuses the update, and what it takes to sign the
    /// response.
    ///
    /// A refusal by `NotImp` (RFC 2136 section 2.2) leaves the handler as it was. Unless a handler does updates, it
    /// refuses each one so, for which it doesn't allocate.
    fn update(
        &mut self,
        request: &Request,
        now: u64,
    ) -> (Result<bool, ResponseCode>, Option<TSigResponseContext>)
        ensures { IsNoUpdate self.old result self.new
            ⊎ update_gives self.old request.now now result self.new }
    {
        (Err(ResponseCode::NotImp), None)
    }

    /// What the zone holds for `name` and `record_type`. `request_info` tells of the request that
    /// is served, if there is one; `lookup_options` say whether signatures are wanted; `now` is
    /// the moment in seconds since 1970.
    ///
    /// `Continue` hands the answer, or the refusal that says why there is none, on to the next handler of a chain,
    /// `Break` makes it final, and `Skip` says that this handler has none. A query of type AXFR isn't a lookup, and
    /// each handler breaks it off with the same error, for which it doesn't allocate.
    fn lookup(
        &self,
        name: &LowerName,
        record_type: RecordType,
        request_info: Option<&RequestInfo<'_>>,
        lookup_options: LookupOptions,
        now: u64,
    ) -> LookupControlFlow<AuthLookup>
        ensures answer { lookup_gives self.now name.now record_type.0 lookup_options now result }
        ensures transfer { record_type.0 ≡ AXFR → IsNoLookup result };

    /// What becomes of `last_result`, which the handlers before this one in a chain gave for `name`, `record_type`,
    /// `request_info` and `lookup_options`; and what it takes to sign the response.
    ///
    /// Any handler may hand `last_result` on as it is. One that has no say in what others answer always does, for which
    /// it doesn't allocate.
    fn consult(
        &self,
        name: &LowerName,
        record_type: RecordType,
        request_info: Option<&RequestInfo<'_>>,
        lookup_options: LookupOptions,
        last_result: LookupControlFlow<AuthLookup>,
    ) -> (LookupControlFlow<AuthLookup>, Option<TSigResponseContext>)
        ensures { IsHandedOn last_result result
            ⊎ consult_gives self.now name.now record_type.0
            (option_map (λ info. info.now.query.now) request_info.entry) lookup_options
            last_result result }
    {
        (last_result, None)
    }

    /// What the zone holds for what `request` asks, with `lookup_options` and `now` as in [`ZoneHandler::lookup`]; and what
    /// it takes to sign the response.
    fn search(
        &self,
        request: &Request,
        lookup_options: LookupOptions,
        now: u64,
    ) -> (LookupControlFlow<AuthLookup>, Option<TSigResponseContext>)
        ensures { search_gives self.now request.now lookup_options now result };

    /// The NSEC records that deny what `name` doesn't own, or that there is such a name (RFC 4035 section 3.1.3), with
    /// `lookup_options` as in [`ZoneHandler::lookup`].
    fn nsec_records(
        &self,
        name: &LowerName,
        lookup_options: LookupOptions,
    ) -> LookupControlFlow<AuthLookup>
        ensures { denial_gives self.now name.now lookup_options result };

    /// The NSEC3 records that deny the query that `info` tells of, or that a wildcard answered it (RFC 5155 section 7.2), by
    /// names hashed with the parameters of `info`; with `lookup_options` as in [`ZoneHandler::lookup`].
    fn nsec3_records(
        &self,
        info: Nsec3QueryInfo<'_>,
        lookup_options: LookupOptions,
    ) -> LookupControlFlow<AuthLookup>
        ensures { hashed_denial_gives self.now info.entry lookup_options result };

    /// The whole zone, as `request` asks for it (AXFR, RFC 5936), with `lookup_options` and `now` as in
    /// [`ZoneHandler::lookup`]; and what it takes to sign the response. None if this handler leaves the request to
    /// another.
    ///
    /// Unless a handler transfers its zone, it refuses each request so by `NotImp` (RFC 1035 section 4.1.1), for which
    /// it doesn't allocate.
    fn zone_transfer(
        &self,
        request: &Request,
        lookup_options: LookupOptions,
        now: u64,
    ) -> Option<
        (
            Result<ZoneTransfer, LookupError>,
            Option<TSigResponseContext>,
        ),
    >
        ensures { IsNoTransfer result
            ⊎ transfer_gives self.now request.now lookup_options now result }
    {
        Some((Err(LookupError::from(ResponseCode::NotImp)), None))
    }
}
