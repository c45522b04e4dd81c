//! The transfer of a zone.
ghost use Rattle.std.specs.Prelude.{◌≡◌, ◌≢◌, ◌++◌, IfOk, OnOk, IsOkUnless};
ghost use Rattle.std.specs.Map.{values_of};
ghost use Rattle.zone_handler.specs.Sets.{sets_records};
ghost use Rattle.zone_signing.specs.Signatures.{answer_signatures};
ghost use Rattle.zone_in_memory.specs.Transfers.{refusal, IsSoaPart, IsTransfer, AnswersTransfer};

use crate::in_memory_zone_handler::InMemoryZoneHandler;
use std::alloc::Global;
use zone_handler::{
    AxfrPolicy, AxfrRecords, LookupError, LookupOptions, LookupRecords, Request, ZoneHandler,
    ZoneTransfer,
};
use zone_map::SetMap;
use zone_proto::{Nsec3Hash, ProtoError, Record, RecordType, ResponseCode, RrsetRecords, Signer};

impl<S: Signer, H: Nsec3Hash> InMemoryZoneHandler<S, H> {
    /// The transfer of the zone that a request asks for, or its refusal.
    pub(crate) fn transfer(
        &self,
        request: &Request,
        lookup_options: LookupOptions,
        now: u64,
    ) -> Result<ZoneTransfer, LookupError>
        ensures { AnswersTransfer
            (λ options. answer_signatures S.signature_of now options.dnssec_ok
            self.now.inner.signers)
            self.now.origin self.now.inner.records self.now.axfr_policy request.now.queries.items
            lookup_options result }
    {
        match refusal(self.axfr_policy(), request) {
            Some(error) => Err(error),
            None => self.transfer_all(lookup_options, now),
        }
    }

    /// The transfer of the zone to one who may have it.
    fn transfer_all(
        &self,
        lookup_options: LookupOptions,
        now: u64,
    ) -> Result<ZoneTransfer, LookupError>
        ensures ok { IfOk result
            (IsTransfer
            (λ options. answer_signatures S.signature_of now options.dnssec_ok
            self.now.inner.signers)
            self.now.origin self.now.inner.records lookup_options) }
        ensures err { IsOkUnless result LookupError.Memory }
    {
        let records = copies(self.origin().alloc(), self.records(), lookup_options)?;
        let start_soa = self.soa_part(lookup_options, now)?;
        let end_soa = self.soa_part(LookupOptions::default(), now)?;
        Ok(ZoneTransfer {
            start_soa,
            records: AxfrRecords::of_records(records),
            end_soa,
        })
    }

    /// What a lookup of the zone's SOA has in its answer section.
    fn soa_part(
        &self,
        lookup_options: LookupOptions,
        now: u64,
    ) -> Result<LookupRecords, LookupError>
        ensures ok { IfOk result
            (IsSoaPart
            (λ options. answer_signatures S.signature_of now options.dnssec_ok
            self.now.inner.signers)
            self.now.origin self.now.inner.records lookup_options) }
        ensures err { IsOkUnless result LookupError.Memory }
    {
        match self.answer(self.origin(), RecordType::SOA, lookup_options, now) {
            Ok(answer) => Ok(answer.unwrap_records()),
            Err(error) => no_records(error),
        }
    }
}

/// The section of a negative answer, which has no records; or lack of memory, if it is that.
fn no_records(error: LookupError) -> Result<LookupRecords, LookupError>
    ensures ok { IfOk result
        (λ section. (section ≡ LookupRecords.Empty) × (error ≢ LookupError.Memory)) }
    ensures err { IsOkUnless result LookupError.Memory }
{
    match error {
        LookupError::Memory => Err(LookupError::Memory),
        _ => Ok(LookupRecords::Empty),
    }
}

/// Why a request isn't answered by a transfer, if it isn't: it has no question or several, or one for AXFR (RFC 5936) where
/// the policy doesn't allow all.
fn refusal(policy: AxfrPolicy, request: &Request) -> Option<LookupError>
    ensures { result ≡ refusal policy request.now.queries.items }
{
    match request.request_info() {
        Err(error) => Some(error),
        Ok(info) if info.query.query_type() == RecordType::AXFR && policy != AxfrPolicy::AllowAll =>
            Some(LookupError::from(ResponseCode::Refused)),
        Ok(_) => None,
    }
}

/// Copies of the records of all sets in the order of their keys, each set's with its signatures if `options` ask for DNSSEC.
fn copies(alloc: Global, sets: &SetMap, options: LookupOptions) -> Result<Vec<Record>, ProtoError>
    ensures copies { IfOk result
        (λ copies. copies.items ≡ sets_records options (values_of sets.now)) }
    ensures err { IsOkUnless result ProtoError.Memory }
{
    let mut copies = Vec::with_capacity(alloc, sets.len())?;
    for set in sets.values() {
        push_copies(&mut copies, options.rrset_with_rrigs(set))?;
    }
    Ok(copies)
}

/// Puts copies of records behind those that were made.
fn push_copies(copies: &mut Vec<Record>, records: RrsetRecords<'_>) -> Result<(), ProtoError>
    ensures ok { OnOk result (copies.new.items ≡ copies.old.items ++ records.entry) }
    ensures err { IsOkUnless result ProtoError.Memory }
{
    for record in records {
        copies.push(record.clone()?)?;
    }
    Ok(())
}
