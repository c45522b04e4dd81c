//! What a found set is answered with.
ghost use Rattle.std.specs.Prelude.{◌≡◌, [], ◌∷◌, List, Option, Some, IfOk, OnOk, IsOkUnless};
ghost use Rattle.zone_proto.specs.Sets.{RRset};
ghost use Rattle.zone_handler.specs.declared.lookup_records.LookupRecords.{LookupRecords as Section};
ghost use Rattle.zone_lookup.specs.Flattening.{last_set, alone, beside};
ghost use Rattle.zone_lookup.specs.FoundSets.{found_set};
ghost use Rattle.zone_lookup.specs.Replies.{one_set, chained, is_followed, AreFrom, IsAnswer};
ghost use Rattle.zone_in_memory.specs.KeptReplies.{HasSections, KeepsAdditionals, SaysAnswer};
ghost use Rattle.zone_signing.specs.Signatures.{answer_signatures};

use zone_handler::{AuthLookup, LookupError, LookupOptions, LookupRecords};
use zone_lookup::{Found, InnerInMemory, flattened, into_sets, next_name, stands_for_addresses};
use zone_map::Searches;
use zone_proto::{LowerName, ProtoError, RecordSet, RecordType, Signer};

/// The answer to a query of `name` and `record_type` by `found`, the set that was found for it: the chain from an alias,
/// unless aliases are asked for, and else the set alone, which is flattened if it is an ANAME set and addresses are asked
/// for; with the additional sets.
///
/// Sets come with their signatures where `lookup_options` ask for DNSSEC. A set that is flattened is then signed by
/// each signer in order, unless the moment `now`, in seconds since 1970, is past the year 9999. Each name that is
/// searched adds one to `searches`. Its only error is `Memory`, of a signer too.
pub(crate) fn answer<S: Signer>(
    zone: &InnerInMemory<S>,
    name: &LowerName,
    record_type: RecordType,
    found: Found<'_>,
    lookup_options: LookupOptions,
    now: u64,
    searches: &mut Searches,
) -> Result<AuthLookup, LookupError>
    ensures answer { IfOk result
        (λ answer. SaysAnswer lookup_options
        (IsAnswer
        (answer_signatures S.signature_of now lookup_options.dnssec_ok zone.now.signers)
        zone.now.records lookup_options.dnssec_ok name.now record_type.0
        (found_set found.entry))
        answer) }
    ensures err { IsOkUnless result LookupError.Memory }
{
    if is_followed(record_type, found.set()) {
        let chain = zone.chase_cnames(name, found, record_type, lookup_options, searches)?;
        let sets = into_sets(chain)?;
        return answer_by_chain(zone, name, record_type, sets, lookup_options, searches);
    }
    let set = found.into_set()?;
    answer_alone(zone, name, record_type, set, lookup_options, now, searches)
}

/// The answer by one set.
fn answer_alone<S: Signer>(
    zone: &InnerInMemory<S>,
    name: &LowerName,
    record_type: RecordType,
    set: RecordSet,
    lookup_options: LookupOptions,
    now: u64,
    searches: &mut Searches,
) -> Result<AuthLookup, LookupError>
    ensures answer { IfOk result
        (λ answer. (more : List RRset)
        × AreFrom zone.now.records lookup_options.dnssec_ok name.now record_type.0
        (Some set) more
        × HasSections lookup_options
        (one_set
        (alone
        (answer_signatures S.signature_of now lookup_options.dnssec_ok
        zone.now.signers)
        record_type.0 set (last_set more)))
        (beside record_type.0 (Some set) more) answer) }
    ensures err { IsOkUnless result LookupError.Memory }
{
    let mut more = sets_from(zone, name, record_type, &set, lookup_options, searches)?;
    let flattened = match more.last() {
        Some(last) if stands_for_addresses(record_type, &set) => {
            flattened(&set, record_type, last, zone.signers(), lookup_options, now)?
        }
        _ => {
            let answers = LookupRecords::new(lookup_options, set);
            return Ok(with_additionals(lookup_options, answers, more));
        }
    };
    put_first(&mut more, set)?;
    let answers = LookupRecords::new(lookup_options, flattened);
    Ok(with_additionals(lookup_options, answers, more))
}

/// The answer by a chain.
fn answer_by_chain<S: Signer>(
    zone: &InnerInMemory<S>,
    name: &LowerName,
    record_type: RecordType,
    chain: Vec<RecordSet>,
    lookup_options: LookupOptions,
    searches: &mut Searches,
) -> Result<AuthLookup, LookupError>
    ensures answer { IfOk result
        (λ answer. (more : List RRset)
        × AreFrom zone.now.records lookup_options.dnssec_ok name.now record_type.0
        (last_set chain.items) more
        × HasSections lookup_options (chained chain.items)
        (beside record_type.0 (last_set chain.items) more) answer) }
    ensures err { IsOkUnless result LookupError.Memory }
{
    let mut more = Vec::new(name.alloc());
    if let Some(last) = chain.last() {
        more = sets_from(zone, name, record_type, last, lookup_options, searches)?;
        if stands_for_addresses(record_type, last) && !more.is_empty() {
            put_first(&mut more, last.clone()?)?;
        }
    }
    let answers = LookupRecords::many(lookup_options, chain);
    Ok(with_additionals(lookup_options, answers, more))
}

/// The additional sets of an answer whose last set this is.
fn sets_from<S: Signer>(
    zone: &InnerInMemory<S>,
    name: &LowerName,
    record_type: RecordType,
    last: &RecordSet,
    lookup_options: LookupOptions,
    searches: &mut Searches,
) -> Result<Vec<RecordSet>, LookupError>
    ensures more { IfOk result
        (λ more. AreFrom zone.now.records lookup_options.dnssec_ok name.now record_type.0
        (Some last.now) more.items) }
    ensures err { IsOkUnless result LookupError.Memory }
{
    let Some(next) = next_name(last, record_type)? else {
        return Ok(Vec::new(name.alloc()));
    };
    match zone.additional_search(
        name,
        record_type,
        next,
        record_type,
        lookup_options,
        searches,
    )? {
        Some(found) => Ok(into_sets(found)?),
        None => Ok(Vec::new(name.alloc())),
    }
}

/// Whether a set is an alias to follow for a type.
fn is_followed(record_type: RecordType, set: &RecordSet) -> bool
    ensures { result ≡ is_followed record_type.0 set.now }
{
    set.record_type() == RecordType::CNAME && record_type != RecordType::CNAME
}

/// An answer with these sets as additional ones; without such a section where there are none.
fn with_additionals(
    lookup_options: LookupOptions,
    answers: LookupRecords,
    more: Vec<RecordSet>,
) -> AuthLookup
    ensures { (additionals : Option Section) × (result ≡ AuthLookup.Records answers additionals)
        × KeepsAdditionals lookup_options more.items additionals }
{
    if more.is_empty() {
        return AuthLookup::answers(answers, None);
    }
    AuthLookup::answers(answers, Some(LookupRecords::many(lookup_options, more)))
}

/// Puts a set first.
fn put_first(sets: &mut Vec<RecordSet>, set: RecordSet) -> Result<(), ProtoError>
    ensures ok { OnOk result (sets.new.items ≡ set ∷ sets.old.items) }
    ensures err { IsOkUnless result ProtoError.Memory }
{
    sets.insert(0, set)?;
    Ok(())
}
