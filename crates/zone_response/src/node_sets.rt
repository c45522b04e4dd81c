//! What is at one name, read in one walk of the zone: the sets of a name stand together in it, the least type first.
ghost use Rattle.std.specs.Prelude.{◌≡◌, ◌+◌, ◌≤◌, ◌==◌, IfOk, IsOkUnless, option_copied};
ghost use Rattle.std.specs.List.Sorted.{IsStrictlySortedBy};
ghost use Rattle.std.specs.Map.{keys_of};
ghost use Rattle.std.specs.Option.{option_or};
ghost use Rattle.zone_proto.specs.Keys.{key_cmp};
ghost use Rattle.zone_proto.specs.Types.{NS, SOA, DNAME};
ghost use Rattle.zone_map.specs.Direct.{set_if};
ghost use Rattle.zone_map.specs.Walks.{first_key_from};
ghost use Rattle.zone_map.specs.Wildcards.{exists};
ghost use Rattle.zone_map.specs.Zones.{set_at, IsZone};
ghost use Rattle.zone_response.specs.NodeSets.{sets_from, StandsAt};

use crate::cursor::sets_near;
use zone_lookup::InnerInMemory;
use zone_map::{Counter, SetMap, SetRange, is_denial_type};
use zone_proto::{LowerName, ProtoError, RecordSet, RecordType, RrKey, Signer};

/// The sets of three types that are at a name: NS, and two that are asked for; and the first key from the name's least
/// key on, of the name or of another.
#[derive(Clone, Copy, Drop)]
pub(crate) struct NodeSets<'z> {
    pub(crate) ns: Option<&'z RecordSet>,
    pub(crate) first_asked: Option<&'z RecordSet>,
    pub(crate) second_asked: Option<&'z RecordSet>,
    pub(crate) first: Option<&'z RrKey>,
}

/// What is at the name of its least key, that of type 0, of the type NS and of two others.
pub(crate) fn read_node_sets<'z, S: Signer>(
    inner: &'z InnerInMemory<S>,
    least: &RrKey,
    first_asked: RecordType,
    second_asked: RecordType,
) -> NodeSets<'z>
    requires { least.now.record_type.0 ≡ 0 }
    ensures { StandsAt inner.now.records least.now.name first_asked.0 second_asked.0 result }
{
    let sets = inner.as_map();
    node_sets_in(sets, sets.from(least), least, first_asked, second_asked)
}

/// What is at the zone's origin, of the types SOA and DNAME.
pub(crate) fn read_apex<'z, S: Signer>(
    inner: &'z InnerInMemory<S>,
    origin: &LowerName,
) -> Result<NodeSets<'z>, ProtoError>
    ensures ok { IfOk result (StandsAt inner.now.records origin.now SOA DNAME) }
    ensures err { IsOkUnless result ProtoError.Memory }
{
    let least = RrKey::first_of(origin)?;
    let sets = inner.as_map();
    Ok(node_sets_in(
        sets,
        sets.from_top(&least),
        &least,
        RecordType::SOA,
        RecordType::DNAME,
    ))
}

/// What is at the name of its least key as [`read_node_sets`] gives it, where the name mostly stands close behind the zone's origin, as
/// the wildcard below that does: so mostly no search of the zone finds it. Searches are counted.
pub(crate) fn read_near_origin<'z, S: Signer>(
    inner: &'z InnerInMemory<S>,
    origin: &LowerName,
    least: &RrKey,
    first_asked: RecordType,
    second_asked: RecordType,
    searches: &mut Counter,
) -> Result<NodeSets<'z>, ProtoError>
    requires { least.now.record_type.0 ≡ 0 }
    ensures ok { IfOk result
        (StandsAt inner.now.records least.now.name first_asked.0 second_asked.0) }
    ensures counted { searches.new ≤ searches.old + 2 }
    ensures err { IsOkUnless result ProtoError.Memory }
{
    let sets = inner.as_map();
    let top = RrKey::first_of(origin)?;
    searches.add_one();
    let near = sets.from_top(&top);
    searches.add_one();
    let from = sets_near(sets, Some(near), least)?;
    Ok(node_sets_in(sets, from, least, first_asked, second_asked))
}

/// The same in a map of sets by their keys, by its sets from that key on.
pub(crate) fn node_sets_in<'z>(
    sets: &'z SetMap,
    from: SetRange<'z>,
    least: &RrKey,
    first_asked: RecordType,
    second_asked: RecordType,
) -> NodeSets<'z>
    requires least { least.now.record_type.0 ≡ 0 }
    requires ordered { IsStrictlySortedBy key_cmp (keys_of sets.now) }
    requires from { from ≡ sets_from sets.now least.now }
    ensures ns { option_copied result.ns ≡ set_at sets.now least.now.name NS }
    ensures first_asked { option_copied result.first_asked ≡ set_at sets.now least.now.name
        first_asked.0 }
    ensures second_asked { option_copied result.second_asked ≡ set_at sets.now
        least.now.name second_asked.0 }
    ensures first { option_copied result.first
        ≡ first_key_from sets.now least.now.name }
{
    let last = last_of(first_asked, second_asked);
    let mut here = NodeSets {
        ns: None,
        first_asked: None,
        second_asked: None,
        first: None,
    };
    for (key, set) in from {
        here.first = here.first.or(Some(key));
        if key.name != least.name {
            break;
        }
        here = here.with(key.record_type, set, first_asked, second_asked);
        // Further types are greater.
        if key.record_type >= last {
            break;
        }
    }
    here
}

impl<'z> NodeSets<'z> {
    /// The same with the set of a further type.
    fn with(
        self,
        set_type: RecordType,
        set: &'z RecordSet,
        first_asked: RecordType,
        second_asked: RecordType,
    ) -> NodeSets<'z>
        ensures ns { option_copied result.ns
            ≡ option_or (option_copied self.entry.ns) (set_if (NS == set_type.0) set.now) }
        ensures first_asked { option_copied result.first_asked
            ≡ option_or (option_copied self.entry.first_asked) (set_if (first_asked.0 == set_type.0)
            set.now) }
        ensures second_asked { option_copied result.second_asked
            ≡ option_or (option_copied self.entry.second_asked) (set_if (second_asked.0 ==
            set_type.0) set.now) }
        ensures first { option_copied result.first ≡ option_copied self.entry.first }
    {
        NodeSets {
            ns: or_if(self.ns, RecordType::NS, set_type, set),
            first_asked: or_if(self.first_asked, first_asked, set_type, set),
            second_asked: or_if(self.second_asked, second_asked, set_type, set),
            first: self.first,
        }
    }
}

/// What was found before, and else a set, if it is of a type.
fn or_if<'z>(
    found: Option<&'z RecordSet>,
    record_type: RecordType,
    set_type: RecordType,
    set: &'z RecordSet,
) -> Option<&'z RecordSet>
    ensures { option_copied result
        ≡ option_or (option_copied found.entry) (set_if (record_type.0 == set_type.0) set.now) }
{
    if found.is_none() && record_type == set_type {
        return Some(set);
    }
    found
}

/// The greatest of three types, of which one is NS.
fn last_of(first_asked: RecordType, second_asked: RecordType) -> RecordType
    ensures ns { NS ≤ result.0 }
    ensures first_asked { first_asked.0 ≤ result.0 }
    ensures second_asked { second_asked.0 ≤ result.0 }
{
    RecordType::NS.max(first_asked).max(second_asked)
}

/// Whether the name of its least key exists, where `here` is there: whether it, or a name below it, owns a set of a
/// type other than those of denial (RFC 4592 section 2.2.2). The first key from there on tells, since the names below a
/// name stand together after it; only where that key is of a type of denial the zone is searched for a further one, which is
/// counted.
pub(crate) fn exists<S: Signer>(
    inner: &InnerInMemory<S>,
    least: &RrKey,
    here: NodeSets<'_>,
    searches: &mut Counter,
) -> bool
    requires key { least.now.record_type.0 ≡ 0 }
    requires first { option_copied here.first
        ≡ first_key_from inner.now.records least.now.name }
    requires zone { IsZone inner.now.records }
    ensures exists { result ≡ exists inner.now.records least.now.name }
    ensures counted { searches.new ≤ searches.old + 1 }
{
    let Some(first) = here.first else {
        return false;
    };
    if !least.name.zone_of(&first.name) {
        return false;
    }
    if !is_denial_type(first.record_type) {
        return true;
    }
    searches.add_one();
    inner.exists(least)
}
