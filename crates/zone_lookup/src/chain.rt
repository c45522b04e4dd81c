//! Chains of aliases: a CNAME begins the search anew at its target (RFC 1034 section 3.6.2).
ghost use Rattle.std.specs.Prelude.{◌≡◌, ◌≤◌, ◌+◌, ◌∷◌, ◌++◌, [], IfOk, OnOk, OnErr, IsOkUnless, map, drop};
ghost use Rattle.zone_map.specs.Chains.{cname_target, chain, chain_links, chain_searches};
ghost use Rattle.zone_lookup.specs.FoundSets.{found_set, lent_set};
ghost use Rattle.zone_map.specs.Direct.{direct};
ghost use Rattle.zone_map.specs.Counts.{counted_more};

use crate::found::Found;
use crate::inner_in_memory::InnerInMemory;
use lookup_types::{LookupError, LookupOptions};
use zone_map::Searches;
use zone_proto::{LowerName, ProtoError, RData, RecordSet, RecordType, Signer};

/// How many names a chain of aliases has at most, and so how many sets.
pub const MAX_CHAIN: usize = 8;

impl<S: Signer> InnerInMemory<S> {
    /// The chain of sets from `first`, the set that was found for `name`, along CNAME targets (RFC 1034 section 3.6.2):
    /// as long as the last set's first record is a CNAME, what [`InnerInMemory::inner_lookup`] finds for its target and
    /// `query_type` comes next. The chain ends where nothing is found, before a target that is `name` or was searched
    /// already, and with the eighth set.
    ///
    /// The sets that are found are lent or made as `inner_lookup` says. Each target that is searched adds one to
    /// `searches`, at most 7. Its only error is `Memory`.
    pub fn chase_cnames<'z>(
        &'z self,
        name: &LowerName,
        first: Found<'z>,
        query_type: RecordType,
        lookup_options: LookupOptions,
        searches: &mut Searches,
    ) -> Result<Vec<Found<'z>>, LookupError>
        ensures chain { IfOk result
            (λ sets. map found_set sets.items
            ≡ chain self.now.records lookup_options.dnssec_ok name.now (found_set first.entry)
            query_type.0) }
        ensures lent { IfOk result
            (λ sets. map lent_set sets.items
            ≡ lent_set first.entry
            ∷ map (λ e. direct self.now.records e.0 query_type.0)
            (drop 1
            (chain_links self.now.records lookup_options.dnssec_ok name.now
            (found_set first.entry) query_type.0))) }
        ensures counted { IfOk result
            (λ _. searches.new
            ≡ counted_more
            (chain_searches self.now.records lookup_options.dnssec_ok name.now
            (found_set first.entry) query_type.0)
            searches.old) }
        ensures at_most { searches.new ≤ searches.old + 7 }
        ensures err { IsOkUnless result LookupError.Memory }
    {
        let alloc = name.alloc();
        let mut next = cname_target(first.set())?;
        let mut seen = Vec::new(alloc);
        push(&mut seen, name.clone()?)?;
        let mut chain = Vec::new(alloc);
        push(&mut chain, first)?;
        while chain.len() < MAX_CHAIN {
            let Some(target) = next.take() else {
                break;
            };
            if seen.contains(&target) {
                break;
            }
            let Some(found) = self.inner_lookup(&target, query_type, lookup_options, searches)?
            else {
                break;
            };
            next = cname_target(found.set())?;
            push(&mut seen, target)?;
            push(&mut chain, found)?;
        }
        Ok(chain)
    }
}

/// The target of a set whose first record is a CNAME; None for any other set. Its only error is `Memory`.
pub fn cname_target(set: &RecordSet) -> Result<Option<LowerName>, ProtoError>
    ensures target { IfOk result (λ target. target ≡ cname_target set.now) }
    ensures err { IsOkUnless result ProtoError.Memory }
{
    match set.records_without_rrsigs().next() {
        Some(first) => match &first.rdata {
            RData::CNAME(target) => Ok(Some(LowerName::new(target)?)),
            _ => Ok(None),
        },
        None => Ok(None),
    }
}

/// The sets themselves: lent ones are copied, made ones handed out. Its only error is `Memory`.
pub fn into_sets(chain: Vec<Found<'_>>) -> Result<Vec<RecordSet>, LookupError>
    ensures sets { IfOk result (λ sets. sets.items ≡ map found_set chain.entry.items) }
    ensures err { IsOkUnless result LookupError.Memory }
{
    let mut sets = Vec::new(*chain.allocator());
    for found in chain {
        push(&mut sets, found.into_set()?)?;
    }
    Ok(sets)
}

/// Puts an item last.
pub(crate) fn push<T: Drop>(list: &mut Vec<T>, item: T) -> Result<(), ProtoError>
    ensures ok { OnOk result (list.new.items ≡ list.old.items ++ item ∷ []) }
    ensures err { IsOkUnless result ProtoError.Memory }
    ensures same { OnErr result (list.new.items ≡ list.old.items) }
{
    list.push(item)?;
    Ok(())
}
