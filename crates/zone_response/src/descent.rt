//! What turns a search on its way from the origin down to a name: the first zone cut or DNAME.
ghost use Rattle.std.specs.Prelude.{◌≡◌, ◌+◌, ◌*◌, ◌<◌, ◌≤◌, ℕ, None, cond, length, IfOk, IsOkUnless, IsTrue, option_copied, option_map, true};
ghost use Rattle.zone_map.specs.Zones.{Sets, set_at};
ghost use Rattle.zone_proto.specs.Names.{is_at_or_above, name_eq};
ghost use Rattle.zone_proto.specs.Types.{NS, SOA, DNAME};
ghost use Rattle.zone_response.specs.NodeSets.{StandsAt};
ghost use Rattle.zone_response.specs.Descent.{cut_at, diversion, diversion_above, diversion_by, diversion_of};
ghost use Rattle.zone_response.specs.Neighbours.{IsInTree, NoLongerOwns};
ghost use Rattle.zone_response.specs.Searches.{names_between};
ghost use Rattle.zone_response.specs.Wildcards.{IsUnderApex};

use crate::names::{is_child, same_name};
use crate::neighbours::labels_before;
use crate::node_sets::{NodeSets, read_apex, read_node_sets};
use zone_lookup::InnerInMemory;
use zone_map::Counter;
use zone_proto::{LowerName, ProtoError, RecordSet, RecordType, RrKey, Signer};

/// What turns a search.
#[derive(Clone, Copy)]
pub(crate) enum Diverting<'z> {
    /// A zone cut, of which this is the NS set.
    Cut(&'z RecordSet),
    /// The names below the owner of this DNAME set have other names.
    Renaming(&'z RecordSet),
}

/// The first turn on the way from the origin down to a name of the zone, the name itself too, for a query of a type.
pub(crate) fn diversion<'z, S: Signer>(
    inner: &'z InnerInMemory<S>,
    origin: &LowerName,
    name: &LowerName,
    record_type: RecordType,
) -> Result<Option<Diverting<'z>>, ProtoError>
    requires { is_at_or_above origin.now name.now ≡ true }
    ensures ok { IfOk result
        (λ found. option_map diversion_of found
        ≡ diversion origin.now inner.now.records name.now record_type.0) }
    ensures err { IsOkUnless result ProtoError.Memory }
{
    if let Some(turning) = diversion_above(inner, origin, name)? {
        return Ok(Some(turning));
    }
    let key = RrKey::first_of(name)?;
    let here = read_node_sets(inner, &key, RecordType::NS, RecordType::NS);
    match own_cut(here.ns, origin, name, record_type) {
        Some(cut) => Ok(Some(Diverting::Cut(cut))),
        None => Ok(None),
    }
}

/// The first turn on the way from the origin down to the parent of a name of the zone. Its searches aren't counted.
pub(crate) fn diversion_above<'z, S: Signer>(
    inner: &'z InnerInMemory<S>,
    origin: &LowerName,
    name: &LowerName,
) -> Result<Option<Diverting<'z>>, ProtoError>
    requires { is_at_or_above origin.now name.now ≡ true }
    ensures ok { (t : ℕ)
        → IfOk result
        (λ found. option_map diversion_of found
        ≡ diversion_above origin.now inner.now.records name.now t name.now) }
    ensures err { IsOkUnless result ProtoError.Memory }
{
    let apex = read_apex(inner, origin)?;
    diversion_from_apex(inner, origin, apex, name, &mut Counter::new())
}

/// The same by what is at the origin. Going up from the name, it reads only ancestors that own a set, or below which a set
/// stands before the one that it comes from, by two searches each: so where nothing stands on the way there is one search,
/// however many labels the name has. It counts the searches.
pub(crate) fn diversion_from_apex<'z, S: Signer>(
    inner: &'z InnerInMemory<S>,
    origin: &LowerName,
    apex: NodeSets<'z>,
    name: &LowerName,
    searches: &mut Counter,
) -> Result<Option<Diverting<'z>>, ProtoError>
    requires inside { is_at_or_above origin.now name.now ≡ true }
    requires apex { StandsAt inner.now.records origin.now SOA DNAME apex }
    ensures ok { (t : ℕ)
        → IfOk result
        (λ found. option_map diversion_of found
        ≡ diversion_above origin.now inner.now.records name.now t name.now) }
    ensures counted { searches.new
        ≤ searches.old + 1
        + 2 * length (names_between origin.now inner.now.records name.now) }
    ensures err { IsOkUnless result ProtoError.Memory }
{
    let depth = origin.num_labels();
    let mut found = None;
    let mut below = RrKey::first_of(name)?;
    while below.name.num_labels() > depth {
        let labels = owning_labels(inner, depth, &below, searches);
        if labels == depth {
            return Ok(diversion_by(None, apex.second_asked).or(found));
        }
        let above = RrKey::new(below.name.ancestor(labels)?, RecordType(0));
        searches.add_one();
        let here = read_node_sets(inner, &above, RecordType::DNAME, RecordType::DNAME);
        found = diversion_by(here.ns, here.second_asked).or(found);
        below = above;
    }
    Ok(found)
}

/// Whether a name of the zone is one label below its origin, which exists, by what is at the origin. If not, it may be so nevertheless.
pub(crate) fn is_under_apex(origin: &LowerName, apex: NodeSets<'_>, name: &LowerName) -> bool
    requires { is_at_or_above origin.now name.now ≡ true }
    ensures { (m : Sets) → StandsAt m origin.now SOA DNAME apex.entry
        → IsTrue result → IsUnderApex m origin.now name.now }
{
    match apex.first_asked {
        Some(_) => is_child(origin, name),
        None => false,
    }
}

/// The same, where it may be known that the name is one label below the origin: then only what is at the origin is above it.
pub(crate) fn diversion_on_way<'z, S: Signer>(
    inner: &'z InnerInMemory<S>,
    origin: &LowerName,
    apex: NodeSets<'z>,
    name: &LowerName,
    under_apex: bool,
    searches: &mut Counter,
) -> Result<Option<Diverting<'z>>, ProtoError>
    requires inside { is_at_or_above origin.now name.now ≡ true }
    requires apex { StandsAt inner.now.records origin.now SOA DNAME apex }
    requires under_apex { IsTrue under_apex
        → IsUnderApex inner.now.records origin.now name.now }
    ensures ok { (t : ℕ)
        → IfOk result
        (λ found. option_map diversion_of found
        ≡ diversion_above origin.now inner.now.records name.now t name.now) }
    ensures counted { searches.new
        ≤ searches.old + 1
        + 2 * length (names_between origin.now inner.now.records name.now) }
    ensures err { IsOkUnless result ProtoError.Memory }
{
    if under_apex {
        return Ok(diversion_by(None, apex.second_asked));
    }
    diversion_from_apex(inner, origin, apex, name, searches)
}

/// As many labels as an ancestor of a name has at most that owns a set, and at least so many as are given. One search tells,
/// and none where those are all that an ancestor may have.
fn owning_labels<S: Signer>(
    inner: &InnerInMemory<S>,
    least: usize,
    below: &RrKey,
    searches: &mut Counter,
) -> usize
    requires { least < length below.now.name }
    ensures least { least ≤ result }
    ensures shorter { result < length below.now.name }
    ensures longest { NoLongerOwns inner.now.records below.now.name result }
    ensures in_tree { least < result → IsInTree inner.now.records below.now.name result }
    ensures counted { searches.new ≤ searches.old + 1 }
{
    if below.name.num_labels() - least == 1 {
        return least;
    }
    labels_before(inner.as_map(), below, searches).max(least)
}

/// What a name turns that owns these sets: a zone cut, or a DNAME.
fn diversion_by<'z>(
    cut: Option<&'z RecordSet>,
    dname: Option<&'z RecordSet>,
) -> Option<Diverting<'z>>
    ensures { option_map diversion_of result
        ≡ diversion_by (option_copied cut.entry) (option_copied dname.entry) }
{
    if let Some(cut) = cut {
        return Some(Diverting::Cut(cut));
    }
    match dname {
        Some(dname) => Some(Diverting::Renaming(dname)),
        None => None,
    }
}

/// The NS set of a name, if that is a zone cut for a query of it and a type: DS of a child is the parent's.
pub(crate) fn own_cut<'z>(
    ns: Option<&'z RecordSet>,
    origin: &LowerName,
    name: &LowerName,
    record_type: RecordType,
) -> Option<&'z RecordSet>
    ensures { (m : Sets) → option_copied ns.entry ≡ set_at m name.now NS
        → option_copied result ≡ cut_at origin.now m name.now record_type.0 name.now }
{
    if record_type == RecordType::DS {
        return None;
    }
    unless_origin(ns, origin, name)
}

/// The NS set of a name, unless the name is the zone's origin, which is no zone cut.
fn unless_origin<'z>(
    ns: Option<&'z RecordSet>,
    origin: &LowerName,
    name: &LowerName,
) -> Option<&'z RecordSet>
    ensures { option_copied result
        ≡ cond (name_eq name.now origin.now) None (option_copied ns.entry) }
{
    if same_name(name, origin) {
        return None;
    }
    ns
}
