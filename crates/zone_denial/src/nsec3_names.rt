//! The names that get an NSEC3 set, each with its types, found in one pass over the zone.
ghost use Rattle.std.specs.Prelude.{◌≡◌, ◌==◌, ◌++◌, [], map, IfOk, OnOk, IsOkUnless};
ghost use Rattle.std.specs.List.{All, list_all};
ghost use Rattle.zone_proto.specs.Types.{NS};
ghost use Rattle.zone_denial.specs.Nsec3Circle.{nsec3_types};
ghost use Rattle.zone_denial.specs.Nsec3Names.{nsec3_names};
ghost use Rattle.zone_denial.specs.Nsec3Nodes.{name_of, types_of, node_of, new_ancestors};

use crate::authoritative_keys::authoritative_keys;
use crate::key_runs::{count_of_first, count_of_name};
use crate::type_list::{signed_types, type_list};
use zone_map::RecordMap;
use zone_proto::{LowerName, ProtoError, RecordType, RrKey, Seq};

/// A name that gets an NSEC3 set, and the types that the set lists.
#[derive(Drop)]
pub(crate) struct Nsec3Name<'a> {
    name: NodeName<'a>,
    pub(crate) types: Seq<RecordType>,
}

/// A name that is in a zone is lent, and an empty one has to be made.
#[derive(Drop)]
enum NodeName<'a> {
    Lent(&'a LowerName),
    Own(LowerName),
}

impl<'a> Nsec3Name<'a> {
    pub(crate) fn name(&self) -> &LowerName
        ensures { result.now ≡ name_of self.now }
    {
        match &self.name {
            NodeName::Lent(name) => name,
            NodeName::Own(name) => name,
        }
    }

    /// A name that owns something, or the origin.
    fn lent(name: &'a LowerName, types: Seq<RecordType>) -> Nsec3Name<'a>
        ensures { node_of result ≡ (name.now, map (λ t. t.0) types) }
    {
        Nsec3Name {
            name: NodeName::Lent(name),
            types,
        }
    }

    /// An empty non-terminal, which owns nothing.
    fn empty(name: LowerName) -> Nsec3Name<'a>
        ensures { node_of result ≡ («name», []) }
    {
        let types = Seq::new(name.alloc());
        Nsec3Name {
            name: NodeName::Own(name),
            types,
        }
    }
}

/// The names that get an NSEC3 set in the zone of this origin, in order, each with the types that its set lists (RFC
/// 5155 section 7.1): the origin, the names that the zone is authoritative for, and the empty non-terminals between.
/// With `opt_out` a name that owns NS alone gets none. NSEC3 sets that are in the zone count for nothing. Its only
/// error is `Memory`.
pub(crate) fn nsec3_names<'a>(
    records: &'a RecordMap,
    origin: &'a LowerName,
    opt_out: bool,
) -> Result<Vec<Nsec3Name<'a>>, ProtoError>
    ensures names { IfOk result
        (λ names. map name_of names.items ≡ nsec3_names origin.now records.now opt_out) }
    ensures types { IfOk result
        (λ names. All (λ n. types_of n ≡ nsec3_types origin.now records.now (name_of n))
        names.items) }
    ensures err { IsOkUnless result ProtoError.Memory }
{
    let alloc = origin.alloc();
    let keys = authoritative_keys(records, origin, RecordType::NSEC3)?;
    let keys = keys.as_slice();
    let mut names = Vec::new(alloc);
    let mut room = Vec::new(alloc);
    let mut start = count_of_name(keys, origin);
    let types = type_list(&mut room, &keys[..start], RecordType::NSEC3PARAM)?;
    names.push(Nsec3Name::lent(origin, types))?;
    let mut last = origin;
    while start < keys.len() {
        let first = keys[start];
        let end = start + count_of_first(&keys[start..]);
        let own = &keys[start..end];
        start = end;
        if opt_out && are_of_ns(own) {
            continue;
        }
        push_new_ancestors(&mut names, last, &first.name)?;
        names.push(Nsec3Name::lent(&first.name, signed_types(&mut room, own)?))?;
        last = &first.name;
    }
    Ok(names)
}

/// Whether all keys are of NS sets.
fn are_of_ns(keys: &[&RrKey]) -> bool
    ensures { result ≡ list_all (λ k. k.now.record_type.0 == NS) keys.now }
{
    keys.iter().all(|key| key.record_type == RecordType::NS)
}

/// Puts the ancestors of a name that aren't at or above the last one that was counted behind the names, from the
/// highest down. They are new, since the names below each stand together, and empty. Its only error is `Memory`.
fn push_new_ancestors<'a>(
    names: &mut Vec<Nsec3Name<'a>>,
    last: &LowerName,
    name: &LowerName,
) -> Result<(), ProtoError>
    ensures ok { OnOk result
        (map node_of names.new.items
        ≡ map node_of names.old.items ++ map (λ a. (a, [])) (new_ancestors last.now name.now)) }
    ensures err { IsOkUnless result ProtoError.Memory }
{
    let parent = name.base_name()?;
    if parent.zone_of(last) {
        return Ok(());
    }
    push_new_ancestors(names, last, &parent)?;
    names.push(Nsec3Name::empty(parent))?;
    Ok(())
}
