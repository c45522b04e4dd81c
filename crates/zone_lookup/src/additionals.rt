//! Additional records: what a client is likely to ask for next (RFC 1034 section 3.7).
ghost use Rattle.std.specs.Prelude.{◌≡◌, ℕ, ◌+◌, ◌*◌, ◌≤◌, ◌||◌, ◌==◌, [], IfOk, IsOkUnless, None, length, option_map};
ghost use Rattle.std.specs.List.{Contains};
ghost use Rattle.zone_proto.specs.Names.{lower};
ghost use Rattle.zone_proto.specs.Types.{ANAME};
ghost use Rattle.zone_lookup.specs.Additionals.{followed, next_name, run_target, names_host, run_types, alias_sets, AreAdditionals, AreSearches, IsFollowed};
ghost use Rattle.zone_lookup.specs.FoundSets.{listed_sets};
ghost use Rattle.zone_map.specs.Direct.{is_address};
ghost use Rattle.zone_map.specs.Zones.{IsZone};
ghost use Rattle.zone_map.specs.Counts.{counted_more};

use crate::chain::{cname_target, push};
use crate::found::Found;
use crate::inner_in_memory::InnerInMemory;
use crate::listed_sets::ListedSets;
use crate::seen_names::SeenNames;
use lookup_types::{LookupError, LookupOptions};
use zone_map::Searches;
use zone_map::direct::is_address;
use zone_proto::{LowerName, Name, ProtoError, RData, RecordSet, RecordType, Signer};

impl<S: Signer> InnerInMemory<S> {
    /// The sets that a client is likely to ask for next (RFC 1034 section 3.7): those found along first targets, from
    /// `next_name` on. None if nothing is found.
    ///
    /// For an original query of ANAME, NS, MX or SRV a run searches A, and then another one AAAA. For any other type one
    /// run searches that type, and doesn't come back to `original_name`. A run follows the first record of each set that
    /// [`InnerInMemory::inner_lookup`] finds: that of a CNAME, and that of an ANAME where the run searches A, AAAA or
    /// ANAME. It ends at a name that it has searched, or that has no set. An equal set is listed once.
    ///
    /// Each name that is searched adds one to `searches`: for each run at most one more than there are CNAME and ANAME
    /// sets in the zone, also where memory is refused on the way. `_search_type` isn't read. Its only error is
    /// `Memory`.
    pub fn additional_search(
        &self,
        original_name: &LowerName,
        original_type: RecordType,
        next_name: LowerName,
        _search_type: RecordType,
        lookup_options: LookupOptions,
        searches: &mut Searches,
    ) -> Result<Option<Vec<Found<'_>>>, LookupError>
        ensures additionals { IfOk result
            (λ sets. AreAdditionals self.now.records lookup_options.dnssec_ok original_name.now
            original_type.0 next_name (listed_sets sets)) }
        ensures none { IfOk result (λ sets. listed_sets sets ≡ [] → sets ≡ None) }
        ensures counted { IfOk result
            (λ _. (k : ℕ)
            × AreSearches self.now.records lookup_options.dnssec_ok original_name.now
            original_type.0 next_name k
            × (searches.new ≡ counted_more k searches.old)) }
        ensures at_most { searches.new
            ≤ searches.old + length (run_types original_type.0) *
            (1 + alias_sets self.now.records) }
        ensures err { IsOkUnless result LookupError.Memory }
    {
        let alloc = next_name.alloc();
        let mut sets = ListedSets::new(alloc);
        let mut seen = Vec::new(alloc);
        if names_host(original_type) {
            let from = next_name.clone()?;
            self.follow(
                seen,
                from,
                RecordType::A,
                lookup_options,
                &mut sets,
                searches,
            )?;
            let seen = Vec::new(alloc);
            self.follow(
                seen,
                next_name,
                RecordType::AAAA,
                lookup_options,
                &mut sets,
                searches,
            )?;
        } else {
            push(&mut seen, original_name.clone()?)?;
            self.follow(
                seen,
                next_name,
                original_type,
                lookup_options,
                &mut sets,
                searches,
            )?;
        }
        let sets = sets.into_vec();
        if sets.is_empty() {
            return Ok(None);
        }
        Ok(Some(sets))
    }

    /// One run: lists the sets that are found along first targets, from `name` on.
    fn follow<'z>(
        &'z self,
        seen: Vec<LowerName>,
        from: LowerName,
        search_type: RecordType,
        lookup_options: LookupOptions,
        sets: &mut ListedSets<'z>,
        searches: &mut Searches,
    ) -> Result<(), LookupError>
        ensures followed { IfOk result
            (λ _. IsFollowed self.now.records lookup_options.dnssec_ok seen.items search_type.0 from
            sets.old sets.new searches.old searches.new) }
        ensures at_most { (u : ℕ) → Contains (run_types u) search_type.0
            → searches.new ≤ searches.old + (1 + alias_sets self.now.records) }
        ensures err { IsOkUnless result LookupError.Memory }
    {
        let mut seen = SeenNames::new(seen);
        let mut name = from;
        while !seen.contains(&name) {
            let Some(found) = self.inner_lookup(&name, search_type, lookup_options, searches)?
            else {
                return Ok(());
            };
            let target = run_target(found.set(), search_type)?;
            sets.list_new(found)?;
            let Some(next) = target else {
                return Ok(());
            };
            seen.push(name)?;
            name = next;
        }
        Ok(())
    }
}

/// Whether data of a type name a host, so that its addresses are of use beside them.
fn names_host(record_type: RecordType) -> bool
    ensures { result ≡ names_host record_type.0 }
{
    record_type == RecordType::ANAME
        || record_type == RecordType::NS
        || record_type == RecordType::MX
        || record_type == RecordType::SRV
}

/// Where a set leads a run that searches a type: the target of an alias, whatever is searched (RFC 1034 section 3.6.2),
/// and that of an ANAME where addresses are. Its only error is `Memory`.
pub fn run_target(set: &RecordSet, search_type: RecordType) -> Result<Option<LowerName>, ProtoError>
    ensures target { IfOk result (λ target. target ≡ run_target search_type.0 set.now) }
    ensures err { IsOkUnless result ProtoError.Memory }
{
    match cname_target(set)? {
        Some(target) => Ok(Some(target)),
        None => next_name(set, search_type),
    }
}

/// The name that the first record of a set leads to when a type is asked for: that of an ANAME for addresses and for
/// ANAME, and those of NS, MX and SRV for their own type. Its only error is `Memory`.
pub fn next_name(set: &RecordSet, record_type: RecordType) -> Result<Option<LowerName>, ProtoError>
    ensures target { IfOk result (λ target. target ≡ next_name record_type.0 set.now) }
    ensures err { IsOkUnless result ProtoError.Memory }
{
    let Some(first) = set.records_without_rrsigs().next() else {
        return Ok(None);
    };
    match followed(&first.rdata, record_type) {
        Some(target) => Ok(Some(LowerName::new(target)?)),
        None => Ok(None),
    }
}

/// The name that data lead to when a type is asked for.
fn followed(data: &RData, record_type: RecordType) -> Option<&Name>
    ensures { option_map (λ n. lower n.now) result ≡ followed record_type.0 data.now }
{
    match data {
        RData::ANAME(target) if leads_to_addresses(record_type) => Some(target),
        RData::NS(target) if record_type == RecordType::NS => Some(target),
        RData::MX(data) if record_type == RecordType::MX => Some(&data.exchange),
        RData::SRV(data) if record_type == RecordType::SRV => Some(&data.target),
        _ => None,
    }
}

/// Whether ANAME data are followed for a type.
fn leads_to_addresses(record_type: RecordType) -> bool
    ensures { result ≡ (is_address record_type.0 || (record_type.0 == ANAME)) }
{
    is_address(record_type) || record_type == RecordType::ANAME
}
