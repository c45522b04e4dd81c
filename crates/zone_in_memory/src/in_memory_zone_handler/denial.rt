//! The records that deny what a zone doesn't hold.
ghost use Rattle.std.specs.Prelude.{◌≡◌, ◌++◌, map, IfOk, IsOkUnless, option_copied, option_to_list};
ghost use Rattle.zone_in_memory.specs.NsecAnswers.{IsNsecAnswer, IsDenialSection};
ghost use Rattle.zone_in_memory.specs.Nsec3Steps.{IsNsec3Answer};

use crate::in_memory_zone_handler::InMemoryZoneHandler;
use std::alloc::Global;
use zone_denial::denial::NsecDenial;
use zone_handler::{
    AuthLookup, LookupControlFlow, LookupError, LookupOptions, LookupRecords, Nsec3QueryInfo,
    ZoneHandler,
};
use zone_proto::{LowerName, Nsec3Hash, ProtoError, RecordSet, Signer};

impl<S: Signer, H: Nsec3Hash> InMemoryZoneHandler<S, H> {
    /// The answer that has the NSEC records which deny a name.
    pub(crate) fn nsec_answer(
        &self,
        name: &LowerName,
        lookup_options: LookupOptions,
    ) -> Result<AuthLookup, LookupError>
        ensures { IsNsecAnswer self.now name.now lookup_options
            (LookupControlFlow.Continue result) }
    {
        let section = self.denial_section(name, lookup_options)?;
        Ok(AuthLookup::answers(section, None))
    }

    /// The section that has them.
    fn denial_section(
        &self,
        name: &LowerName,
        lookup_options: LookupOptions,
    ) -> Result<LookupRecords, LookupError>
        ensures ok { IfOk result
            (IsDenialSection self.now.origin self.now.inner.records lookup_options name.now) }
        ensures err { IsOkUnless result LookupError.Memory }
    {
        match self.inner.nsec_denial(self.origin(), name)? {
            NsecDenial::Own(set) => Ok(LookupRecords::new(lookup_options, set.clone()?)),
            NsecDenial::Closest(beside, closest) => {
                let sets = copies(name.alloc(), beside, closest)?;
                Ok(LookupRecords::many(lookup_options, sets))
            }
        }
    }

    /// The answer that has the NSEC3 records which deny a query.
    pub(crate) fn nsec3_answer(
        &self,
        info: Nsec3QueryInfo<'_>,
        lookup_options: LookupOptions,
    ) -> Result<AuthLookup, LookupError>
        ensures { IsNsec3Answer H.digest_of self.now info.entry lookup_options
            (LookupControlFlow.Continue result) }
    {
        let sets = self.inner.proof(info, self.origin(), &self.hash)?;
        let copies = copies_of(info.qname.alloc(), sets.as_slice())?;
        let section = LookupRecords::many(lookup_options, copies);
        Ok(AuthLookup::answers(section, None))
    }
}

/// Copies of two sets that may be there.
fn copies(
    alloc: Global,
    one: Option<&RecordSet>,
    other: Option<&RecordSet>,
) -> Result<Vec<RecordSet>, ProtoError>
    ensures copies { IfOk result
        (λ copies. copies.items
        ≡ option_to_list (option_copied one.entry)
        ++ option_to_list (option_copied other.entry)) }
    ensures err { IsOkUnless result ProtoError.Memory }
{
    let mut copies = Vec::with_capacity(alloc, 2)?;
    if let Some(set) = one {
        copies.push(set.clone()?)?;
    }
    if let Some(set) = other {
        copies.push(set.clone()?)?;
    }
    Ok(copies)
}

/// Copies of sets.
fn copies_of(alloc: Global, sets: &[&RecordSet]) -> Result<Vec<RecordSet>, ProtoError>
    ensures copies { IfOk result (λ copies. copies.items ≡ map (λ s. s.now) sets.now) }
    ensures err { IsOkUnless result ProtoError.Memory }
{
    let mut copies = Vec::with_capacity(alloc, sets.len())?;
    for set in sets {
        copies.push((*set).clone()?)?;
    }
    Ok(copies)
}
