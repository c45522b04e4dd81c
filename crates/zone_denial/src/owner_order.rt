//! Sets in the order of their owners.
ghost use Rattle.std.specs.Prelude.{◌≡◌, ◌≤◌, [], ◌++◌, length, map, IfOk, OnOk, IsOkUnless, option_copied, option_to_list};
ghost use Rattle.std.specs.List.{prefix_len};
ghost use Rattle.zone_proto.specs.Order.{is_before};
ghost use Rattle.zone_denial.specs.Nsec3Lent.{owner_cmp, joined_any};
ghost use Rattle.zone_denial.specs.TypeLists.{joined, in_order};

use std::alloc::Global;
use zone_proto::{ProtoError, RecordSet};

/// At most three sets in the canonical order of their owners (RFC 4034 section 6.1), of each owner one. Its only error is `Memory`.
pub fn in_owner_order<'m>(
    alloc: Global,
    first: Option<&'m RecordSet>,
    second: Option<&'m RecordSet>,
    third: Option<&'m RecordSet>,
) -> Result<Vec<&'m RecordSet>, ProtoError>
    ensures ok { IfOk result
        (λ sets. map (λ s. s.now) sets.items
        ≡ in_order owner_cmp
        (option_to_list (option_copied first.entry)
        ++ option_to_list (option_copied second.entry)
        ++ option_to_list (option_copied third.entry))) }
    ensures err { IsOkUnless result ProtoError.Memory }
{
    let mut sets = Vec::new(alloc);
    join_any(&mut sets, third)?;
    join_any(&mut sets, second)?;
    join_any(&mut sets, first)?;
    Ok(sets)
}

/// Puts a set that may be there into a list in the order of owners.
fn join_any<'m>(sets: &mut Vec<&'m RecordSet>, set: Option<&'m RecordSet>) -> Result<(), ProtoError>
    ensures ok { OnOk result
        (map (λ s. s.now) sets.new.items
        ≡ joined_any (option_copied set.entry) (map (λ s. s.now) sets.old.items)) }
    ensures err { IsOkUnless result ProtoError.Memory }
{
    match set {
        Some(set) => join(sets, set),
        None => Ok(()),
    }
}

/// Puts a set into a list in the order of owners, unless its owner has one there.
fn join<'m>(sets: &mut Vec<&'m RecordSet>, set: &'m RecordSet) -> Result<(), ProtoError>
    ensures ok { OnOk result
        (map (λ s. s.now) sets.new.items
        ≡ joined owner_cmp set.now (map (λ s. s.now) sets.old.items)) }
    ensures err { IsOkUnless result ProtoError.Memory }
{
    let place = count_before(sets.as_slice(), set);
    if place < sets.len() && sets[place].name() == set.name() {
        return Ok(());
    }
    sets.insert(place, set)?;
    Ok(())
}

/// How many sets in front have an owner before that of another.
fn count_before(sets: &[&RecordSet], set: &RecordSet) -> usize
    ensures value { result ≡ prefix_len (λ s. is_before owner_cmp s.now set.now) sets.now }
    ensures bound { result ≤ length sets.now }
{
    sets.iter()
        .take_while(|other| other.name() < set.name())
        .count()
}
