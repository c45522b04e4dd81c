//! The records of the sets of a zone, each set's under its key.
ghost use Rattle.std.specs.Prelude.{◌≡◌, ◌++◌, ◌∷◌, [], true, cond, not, filter, IfOk, OnOk, IsOkUnless, option_copied};
ghost use Rattle.std.specs.Map.{lookup};
ghost use Rattle.std.specs.Option.{option_map_or};
ghost use Rattle.zone_proto.specs.declared.rr_key.RrKey.{RrKey as Key};
ghost use Rattle.zone_proto.specs.Keys.{key_cmp, key_eq};
ghost use Rattle.zone_proto.specs.Names.{IsName};
ghost use Rattle.zone_proto.specs.Order.{is_upto};
ghost use Rattle.zone_builder.specs.Groups.{all_records_in, all_signatures_in, ends_under, keyed, AreBelow, AreNamed, AreOrdered, AreSorted, AreUpTo};
ghost use Rattle.zone_builder.specs.Records.{is_signature};

use crate::given::GivenRecord;
use std::alloc::Global;
use zone_proto::{ProtoError, RData, RrKey};

/// The records of one set, and its signatures, in the order in which they are given.
#[derive(Drop)]
pub(crate) struct Group {
    pub(crate) records: Vec<GivenRecord>,
    pub(crate) signatures: Vec<GivenRecord>,
}

impl Group {
    /// A record alone. Its only error is `Memory`.
    pub(crate) fn of(alloc: Global, given: GivenRecord) -> Result<Group, ProtoError>
        ensures records { IfOk result
            (λ group. group.records.items
            ≡ filter (λ g. not (is_signature g.record.rdata)) (given ∷ [])) }
        ensures signatures { IfOk result
            (λ group. group.signatures.items
            ≡ filter (λ g. is_signature g.record.rdata) (given ∷ [])) }
        ensures err { IsOkUnless result ProtoError.Memory }
    {
        let is_signature = is_signature(&given.record.rdata);
        let alone = alone(alloc, given)?;
        let none = Vec::new(alloc);
        Ok(if is_signature {
            Group {
                records: none,
                signatures: alone,
            }
        } else {
            Group {
                records: alone,
                signatures: none,
            }
        })
    }

    /// The same with another group's records behind these, and its signatures behind these. Its only error is `Memory`.
    fn followed_by(self, others: Group) -> Result<Group, ProtoError>
        ensures records { IfOk result
            (λ group. group.records.items ≡ self.records.items ++ others.records.items) }
        ensures signatures { IfOk result
            (λ group. group.signatures.items ≡ self.signatures.items ++ others.signatures.items) }
        ensures err { IsOkUnless result ProtoError.Memory }
    {
        Ok(Group {
            records: joined_lists(self.records, others.records)?,
            signatures: joined_lists(self.signatures, others.signatures)?,
        })
    }
}

/// Whether data are a signature.
fn is_signature(rdata: &RData) -> bool
    ensures { result ≡ is_signature rdata.now }
{
    matches!(rdata, RData::RRSIG(_))
}

/// A list of one record, with room for no more, since most sets have one.
fn alone(alloc: Global, given: GivenRecord) -> Result<Vec<GivenRecord>, ProtoError>
    ensures ok { IfOk result (λ list. list.items ≡ given ∷ []) }
    ensures err { IsOkUnless result ProtoError.Memory }
{
    let mut list = Vec::with_capacity(alloc, 1)?;
    list.push(given)?;
    Ok(list)
}

/// Records and others behind them.
fn joined_lists(
    list: Vec<GivenRecord>,
    others: Vec<GivenRecord>,
) -> Result<Vec<GivenRecord>, ProtoError>
    ensures ok { IfOk result (λ all. all.items ≡ list.items ++ others.items) }
    ensures err { IsOkUnless result ProtoError.Memory }
{
    if list.is_empty() {
        return Ok(others);
    }
    let (mut all, mut rest) = (list, others);
    all.append(&mut rest)?;
    Ok(all)
}

/// Appends a group to others. Where the last of these is under the same key, its records go behind those of that one.
pub(crate) fn put_behind(
    groups: &mut Vec<(RrKey, Group)>,
    key: RrKey,
    group: Group,
) -> Result<(), ProtoError>
    requires { IsName key.name }
    ensures records { OnOk result
        ((k : Key)
        → all_records_in groups.new.items k
        ≡ all_records_in groups.old.items k ++ cond (key_eq key k) group.records.items []) }
    ensures signatures { OnOk result
        ((k : Key)
        → all_signatures_in groups.new.items k
        ≡ all_signatures_in groups.old.items k ++ cond (key_eq key k) group.signatures.items []) }
    ensures named { OnOk result (AreNamed groups.old.items → AreNamed groups.new.items) }
    ensures ordered { OnOk result
        (AreOrdered groups.old.items → AreUpTo groups.old.items key
        → AreOrdered groups.new.items) }
    ensures up_to { OnOk result
        ((k : Key)
        → is_upto key_cmp key k ≡ true → AreUpTo groups.old.items k
        → AreUpTo groups.new.items k) }
    ensures err { IsOkUnless result ProtoError.Memory }
{
    let before = last_under(groups, &key);
    let both = behind(before, group)?;
    groups.push((key, both))?;
    Ok(())
}

/// Takes the last of groups out, if it is under a key.
fn last_under(groups: &mut Vec<(RrKey, Group)>, key: &RrKey) -> Option<Group>
    ensures taken { groups.old.items ≡ groups.new.items ++ keyed key.now result }
    ensures below { AreOrdered groups.old.items → AreUpTo groups.old.items key.now
        → AreBelow groups.new.items key.now }
{
    if !ends_under(groups.as_slice(), key) {
        return None;
    }
    let (_, group) = groups.pop()?;
    Some(group)
}

/// Whether the last of groups is under a key.
fn ends_under(groups: &[(RrKey, Group)], key: &RrKey) -> bool
    ensures { result ≡ ends_under groups.now key.now }
{
    match groups.split_last() {
        Some((last, _)) => last.0.same_as(key),
        None => false,
    }
}

/// A group behind one that may be there.
fn behind(before: Option<Group>, group: Group) -> Result<Group, ProtoError>
    ensures records { IfOk result
        (λ both. both.records.items
        ≡ option_map_or (λ g. g.records.items) before [] ++ group.records.items) }
    ensures signatures { IfOk result
        (λ both. both.signatures.items
        ≡ option_map_or (λ g. g.signatures.items) before [] ++ group.signatures.items) }
    ensures err { IsOkUnless result ProtoError.Memory }
{
    match before {
        Some(before) => before.followed_by(group),
        None => Ok(group),
    }
}

/// Puts groups in the order of their keys, and makes one of those under one key. Its only error is `Memory`.
pub(crate) fn ordered(
    alloc: Global,
    groups: Vec<(RrKey, Group)>,
) -> Result<Vec<(RrKey, Group)>, ProtoError>
    requires { AreNamed groups.items }
    ensures records { IfOk result
        (λ ordered. (k : Key)
        → all_records_in ordered.items k ≡ all_records_in groups.items k) }
    ensures signatures { IfOk result
        (λ ordered. (k : Key)
        → all_signatures_in ordered.items k ≡ all_signatures_in groups.items k) }
    ensures named { IfOk result (λ ordered. AreNamed ordered.items) }
    ensures ordered { IfOk result (λ ordered. AreOrdered ordered.items) }
    ensures err { IsOkUnless result ProtoError.Memory }
{
    let sorted = sorted(groups)?;
    joined(alloc, sorted)
}

/// Groups in the order of their keys, and those under one key in their own order.
fn sorted(groups: Vec<(RrKey, Group)>) -> Result<Vec<(RrKey, Group)>, ProtoError>
    ensures records { IfOk result
        (λ sorted. (k : Key) → all_records_in sorted.items k ≡ all_records_in groups.items k) }
    ensures signatures { IfOk result
        (λ sorted. (k : Key)
        → all_signatures_in sorted.items k ≡ all_signatures_in groups.items k) }
    ensures named { IfOk result (λ sorted. AreNamed groups.items → AreNamed sorted.items) }
    ensures sorted { IfOk result (λ sorted. AreSorted sorted.items) }
    ensures err { IsOkUnless result ProtoError.Memory }
{
    let mut sorted = groups;
    sorted.sort_by(|one, other| one.0.cmp(&other.0))?;
    Ok(sorted)
}

/// Makes one group of those under one key, which stand together.
fn joined(alloc: Global, groups: Vec<(RrKey, Group)>) -> Result<Vec<(RrKey, Group)>, ProtoError>
    requires named { AreNamed groups.items }
    requires sorted { AreSorted groups.items }
    ensures records { IfOk result
        (λ joined. (k : Key) → all_records_in joined.items k ≡ all_records_in groups.items k) }
    ensures signatures { IfOk result
        (λ joined. (k : Key)
        → all_signatures_in joined.items k ≡ all_signatures_in groups.items k) }
    ensures named { IfOk result (λ joined. AreNamed joined.items) }
    ensures ordered { IfOk result (λ joined. AreOrdered joined.items) }
    ensures err { IsOkUnless result ProtoError.Memory }
{
    let mut joined = Vec::with_capacity(alloc, groups.len())?;
    for (key, group) in groups {
        put_behind(&mut joined, key, group)?;
    }
    Ok(joined)
}

/// The group under a key, if there is one.
pub(crate) fn group_under<'g>(groups: &'g [(RrKey, Group)], key: &RrKey) -> Option<&'g Group>
    requires { AreOrdered groups.now }
    ensures { option_copied result ≡ lookup (key_eq key.now) groups.now }
{
    match groups.binary_search_by(|entry| entry.0.cmp(key)) {
        Ok(place) => Some(&groups[place].1),
        Err(_) => None,
    }
}
