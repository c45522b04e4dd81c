//! The links of a chain of NSEC3 sets.
ghost use Rattle.std.specs.Prelude.{◌≡◌, ◌↔◌, ◌<◌, ◌+◌, IsSorted, IsTrue, OnOk, length, map, option_copied, slice_index_or};
ghost use Rattle.std.specs.List.{Contains};
ghost use Rattle.zone_proto.specs.Names.{Name as NameLabels};
ghost use Rattle.zone_proto.specs.Types.{NSEC3 as nsec3_type};
ghost use Rattle.zone_map.specs.Zones.{owns};
ghost use Rattle.zone_denial.specs.Nsec3Circle.{next_digest};
ghost use Rattle.zone_denial.specs.Chains.{stays};
ghost use Rattle.zone_verify.specs.declared.nsec3_name.ChainName.{ChainName as Named};
ghost use Rattle.zone_verify.specs.ChainSets.{kind_of, sets_of};
ghost use Rattle.zone_verify.specs.Order.{digest_cmp};

use crate::chain_sets::ChainSets;
use crate::fault::{ChainFault, told};
use crate::nsec3_name::ChainName;
use zone_proto::{LowerName, NSEC3, RecordSet, RecordType, RrKey};

/// Checks that these names, which are in the order of their digests, have different ones, and that each set leads to the next
/// digest, and the last one to the first (RFC 5155 section 3.1.7).
///
/// # Errors
///
/// Refused by `SameHash` or `Next` for the first where that isn't so, and by `Memory`.
pub(crate) fn check_links(names: &[ChainName<'_>]) -> Result<(), ChainFault>
    requires { IsSorted digest_cmp names.now }
    ensures { OnOk result
        ((c : Named) → Contains names.now c
        → c.data.now.next_hashed_owner_name
        ≡ next_digest (map (λ c. c.digest) names.now) c.digest) }
{
    for i in 0..names.len() {
        let here = &names[i];
        let next = next_on_chain(names, i);
        if i + 1 < names.len() && same_digest(here, next) {
            return Err(ChainFault::SameHash(told(&here.name)?, told(&next.name)?));
        }
        if !leads_to(here.data, next) {
            return Err(ChainFault::Next(told(&here.name)?, RecordType::NSEC3));
        }
    }
    Ok(())
}

/// Whether two names have one digest.
fn same_digest(one: &ChainName<'_>, other: &ChainName<'_>) -> bool
    ensures { IsTrue result ↔ (one.now.digest ≡ other.now.digest) }
{
    one.digest == other.digest
}

/// Whether NSEC3 data lead to a name.
fn leads_to(said: &NSEC3, name: &ChainName<'_>) -> bool
    ensures { IsTrue result → said.now.next_hashed_owner_name ≡ name.now.digest }
{
    said.next_hashed_owner_name == name.digest
}

/// The name behind that of a place, and behind the last one the first.
fn next_on_chain<'n, 'z>(names: &'n [ChainName<'z>], i: usize) -> &'n ChainName<'z>
    requires { i < length names.now }
    ensures within { i + 1 < length names.now
        → result.now ≡ slice_index_or names.now (i + 1) result.now }
    ensures last { ¬ (i + 1 < length names.now)
        → result.now ≡ slice_index_or names.now 0 result.now }
{
    let next = if i + 1 < names.len() { i + 1 } else { 0 };
    &names[next]
}

/// Checks that the owners of NSEC3 sets of the chain are those of these names, which are in the order of their digests, and so in
/// that of the owners.
///
/// # Errors
///
/// Refused by `Surplus` for the first that isn't, and by `Memory`.
pub(crate) fn check_owners(sets: &ChainSets<'_>, names: &[ChainName<'_>]) -> Result<(), ChainFault>
    ensures { OnOk result
        ((o : NameLabels) → IsTrue (owns (sets_of sets.now) o nsec3_type)
        → (c : Named) × Contains names.now c × (c.owner ≡ o)) }
{
    let mut place = 0;
    for (key, set) in sets.records.iter() {
        place = place_behind(sets, names, place, key, set)?;
    }
    Ok(())
}

/// The place behind the name that has this set of the chain, which has to be the one at a place; that place itself where the set is no
/// NSEC3 set of the chain. Refused by `Surplus` where it is that of another owner, and by `Memory`.
fn place_behind(
    sets: &ChainSets<'_>,
    names: &[ChainName<'_>],
    place: usize,
    key: &RrKey,
    set: &RecordSet,
) -> Result<usize, ChainFault>
    ensures { OnOk result
        (key.now.record_type.0 ≡ nsec3_type
        → IsTrue (stays (kind_of (option_copied sets.now.parameters)) key.now.record_type.0
        set.now)
        → (c : Named) × Contains names.now c × (c.owner ≡ key.now.name)) }
{
    if key.record_type != RecordType::NSEC3 || !sets.has(key.record_type, set) {
        return Ok(place);
    }
    if has_owner(names, place, &key.name) {
        return Ok(place.saturating_add(1));
    }
    Err(ChainFault::Surplus(told(&key.name)?, RecordType::NSEC3))
}

/// Whether there is a name at a place, and this is its hashed owner.
fn has_owner(names: &[ChainName<'_>], place: usize, owner: &LowerName) -> bool
    ensures { IsTrue result → (c : Named) × Contains names.now c × (c.owner ≡ owner.now) }
{
    if place >= names.len() {
        return false;
    }
    names[place].owner == *owner
}
