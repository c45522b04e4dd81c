//! What NSEC3 sets prove of a name (RFC 5155 section 7.2). A call counts the names that it hashes, none of them twice, and is refused
//! by `Memory`, and as the hash refuses one of them.
ghost use Rattle.std.specs.Prelude.{◌≡◌, ◌≤◌, ◌+◌, ◌⊎◌, [], false, true, length, map, Ok, Some, IfErr, IfOk, IfSome, IsErr, OnOk, IsOkUnless, option_and_then, option_copied, option_map, option_to_list};
ghost use Rattle.std.specs.Option.{option_map_or};
ghost use Rattle.zone_proto.specs.Names.{base_name, is_root, proper_ancestors, suffixes};
ghost use Rattle.zone_proto.specs.Types.{NSEC3};
ghost use Rattle.zone_map.specs.Counts.{one_more};
ghost use Rattle.zone_map.specs.Zones.{set_at};
ghost use Rattle.zone_denial.specs.Nsec3Denial.{cover_owner};
ghost use Rattle.zone_response.specs.HashedDenials.{matching, covering, of_labels, provable, tried, wildcard_sets, wildcard_hashed, absent_below, absent_sets, absent_hashed, below_hashed, left_out_sets, left_out_hashed, present_sets, present_hashed, hash_of, hashed_by, have_owners};

use crate::hashed_sets::{covering, matching, matching_or_covering};
use crate::lists::push;
use crate::names::{is_at_or_above, same_name};
use crate::question::ServedZone;
use lookup_types::{LookupError, Nsec3QueryInfo};
use zone_denial::owner_order::in_owner_order;
use zone_map::{Counter, RecordMap};
use zone_proto::{LowerName, Nsec3Hash, ProtoError, RecordSet, Signer};

/// A name, and the owner that its NSEC3 set has, or would have.
#[derive(Drop)]
struct HashedName {
    name: LowerName,
    owner: LowerName,
}

/// The closest provable encloser of a name.
#[derive(Drop)]
struct Encloser<'z> {
    /// A name one label longer.
    child: LowerName,
    /// The set that matches the encloser.
    set: &'z RecordSet,
    /// The last name that was hashed before the encloser, if one was.
    before: Option<HashedName>,
}

/// The sets that prove that a wildcard may answer for the name of a query: the one that covers the next closer name,
/// one label longer than the closest encloser, above which the wildcard stands.
pub(crate) fn wildcard_sets<'z, S: Signer, H: Nsec3Hash>(
    zone: &ServedZone<'z, S, H>,
    query: Nsec3QueryInfo<'_>,
    wildcard: &LowerName,
    hashes: &mut Counter,
) -> Result<Vec<&'z RecordSet>, LookupError>
    requires { is_root wildcard.now ≡ false }
    ensures ok { IfOk result
        (λ sets. map (λ s. s.now) sets.items
        ≡ wildcard_sets zone.now.origin.now zone.now.denials.now
        (hashed_by (hash_of H.digest_of zone.now query.entry)) query.entry.qname.now
        (base_name wildcard.now)) }
    ensures hashed { OnOk result
        (have_owners (hash_of H.digest_of zone.now query.entry)
        (wildcard_hashed query.entry.qname.now (base_name wildcard.now))
        ≡ true) }
    ensures counted { hashes.new
        ≤ hashes.old + length (wildcard_hashed query.entry.qname.now (base_name wildcard.now)) }
    ensures err { IfErr result
        (λ e. (e ≡ LookupError.Memory)
        ⊎ (have_owners (hash_of H.digest_of zone.now query.entry)
        (wildcard_hashed query.entry.qname.now (base_name wildcard.now))
        ≡ false)) }
{
    let closer = hashed_closer(zone, query, wildcard.num_labels(), None, hashes)?;
    let mut sets = Vec::new(zone.origin.alloc());
    if let Some(set) = closer_set(zone.denials, &closer)? {
        push(&mut sets, set)?;
    }
    Ok(sets)
}

/// The sets that prove that the name of a query doesn't exist, and of what was asked for its wildcard. The wildcard is
/// under the closest encloser.
pub(crate) fn absent_sets<'z, S: Signer, H: Nsec3Hash>(
    zone: &ServedZone<'z, S, H>,
    query: Nsec3QueryInfo<'_>,
    wildcard: &LowerName,
    hashes: &mut Counter,
) -> Result<Vec<&'z RecordSet>, LookupError>
    requires { is_root wildcard.now ≡ false }
    ensures ok { IfOk result
        (λ sets. map (λ s. s.now) sets.items
        ≡ absent_sets zone.now.origin.now zone.now.denials.now
        (hashed_by (hash_of H.digest_of zone.now query.entry)) query.entry.qname.now
        (base_name wildcard.now)) }
    ensures hashed { OnOk result
        (have_owners (hash_of H.digest_of zone.now query.entry)
        (absent_hashed zone.now.origin.now zone.now.denials.now
        (hashed_by (hash_of H.digest_of zone.now query.entry)) query.entry.qname.now
        (base_name wildcard.now))
        ≡ true) }
    ensures counted { hashes.new
        ≤ hashes.old
        + length
        (absent_hashed zone.now.origin.now zone.now.denials.now
        (hashed_by (hash_of H.digest_of zone.now query.entry)) query.entry.qname.now
        (base_name wildcard.now)) }
    ensures err { IfErr result
        (λ e. (e ≡ LookupError.Memory)
        ⊎ (have_owners (hash_of H.digest_of zone.now query.entry)
        (absent_hashed zone.now.origin.now zone.now.denials.now
        (hashed_by (hash_of H.digest_of zone.now query.entry)) query.entry.qname.now
        (base_name wildcard.now))
        ≡ false)) }
{
    match provable(zone, query, wildcard.clone()?, None, hashes)? {
        Some(encloser) => absent_below(zone, query, encloser, hashes),
        None => Ok(Vec::new(zone.origin.alloc())),
    }
}

/// The same by the closest provable encloser.
fn absent_below<'z, S: Signer, H: Nsec3Hash>(
    zone: &ServedZone<'z, S, H>,
    query: Nsec3QueryInfo<'_>,
    encloser: Encloser<'z>,
    hashes: &mut Counter,
) -> Result<Vec<&'z RecordSet>, LookupError>
    requires child { is_root encloser.child ≡ false }
    requires set { matching zone.now.origin.now zone.now.denials.now
        (hashed_by (hash_of H.digest_of zone.now query)) (base_name encloser.child)
        ≡ Some encloser.set.now }
    requires before { IfSome encloser.before
        (λ h. hash_of H.digest_of zone.now query h.name ≡ Ok h.owner) }
    ensures ok { IfOk result
        (λ sets. map (λ s. s.now) sets.items
        ≡ absent_below zone.now.origin.now zone.now.denials.now
        (hashed_by (hash_of H.digest_of zone.now query.entry)) query.entry.qname.now
        (base_name encloser.entry.child)) }
    ensures hashed { OnOk result
        (have_owners (hash_of H.digest_of zone.now query.entry)
        (below_hashed query.entry.qname.now (base_name encloser.entry.child))
        ≡ true) }
    ensures counted { hashes.new
        ≤ hashes.old
        + length (below_hashed query.entry.qname.now (base_name encloser.entry.child)) }
    ensures err { IfErr result
        (λ e. (e ≡ LookupError.Memory)
        ⊎ (have_owners (hash_of H.digest_of zone.now query.entry)
        (below_hashed query.entry.qname.now (base_name encloser.entry.child))
        ≡ false)) }
{
    let Encloser { child, set, before } = encloser;
    let closer = hashed_closer(zone, query, child.num_labels(), before, hashes)?;
    let closer_set = closer_set(zone.denials, &closer)?;
    let wildcard = known_or_hashed(zone, query, child.into_wildcard(), closer, hashes)?;
    let wildcard_set = matching_or_covering(zone.denials, &wildcard.owner)?;
    let alloc = zone.origin.alloc();
    Ok(in_owner_order(alloc, Some(set), closer_set, wildcard_set)?)
}

/// The sets that prove that the name of a query, which exists, doesn't own a set.
pub(crate) fn present_sets<'z, S: Signer, H: Nsec3Hash>(
    zone: &ServedZone<'z, S, H>,
    query: Nsec3QueryInfo<'_>,
    hashes: &mut Counter,
) -> Result<Vec<&'z RecordSet>, LookupError>
    ensures ok { IfOk result
        (λ sets. map (λ s. s.now) sets.items
        ≡ present_sets zone.now.origin.now zone.now.denials.now
        (hashed_by (hash_of H.digest_of zone.now query.entry)) query.entry.qname.now) }
    ensures hashed { OnOk result
        (have_owners (hash_of H.digest_of zone.now query.entry)
        (present_hashed zone.now.origin.now zone.now.denials.now
        (hashed_by (hash_of H.digest_of zone.now query.entry)) query.entry.qname.now)
        ≡ true) }
    ensures counted { hashes.new
        ≤ hashes.old
        + length
        (present_hashed zone.now.origin.now zone.now.denials.now
        (hashed_by (hash_of H.digest_of zone.now query.entry)) query.entry.qname.now) }
    ensures err { IfErr result
        (λ e. (e ≡ LookupError.Memory)
        ⊎ (have_owners (hash_of H.digest_of zone.now query.entry)
        (present_hashed zone.now.origin.now zone.now.denials.now
        (hashed_by (hash_of H.digest_of zone.now query.entry)) query.entry.qname.now)
        ≡ false)) }
{
    let own = hashed(zone, query, query.qname.clone()?, hashes)?;
    match matching(zone.denials, &own.owner)? {
        Some(set) => {
            let mut sets = Vec::new(zone.origin.alloc());
            push(&mut sets, set)?;
            Ok(sets)
        }
        None => left_out_sets(zone, query, own, hashes),
    }
}

/// The same where no set matches the name, which is hashed: opt-out leaves it out.
fn left_out_sets<'z, S: Signer, H: Nsec3Hash>(
    zone: &ServedZone<'z, S, H>,
    query: Nsec3QueryInfo<'_>,
    own: HashedName,
    hashes: &mut Counter,
) -> Result<Vec<&'z RecordSet>, LookupError>
    requires name { own.name ≡ query.qname.now }
    requires owner { hash_of H.digest_of zone.now query own.name ≡ Ok own.owner }
    ensures ok { IfOk result
        (λ sets. map (λ s. s.now) sets.items
        ≡ option_map_or
        (left_out_sets zone.now.origin.now zone.now.denials.now
        (hashed_by (hash_of H.digest_of zone.now query.entry)) query.entry.qname.now)
        (provable zone.now.origin.now zone.now.denials.now
        (hashed_by (hash_of H.digest_of zone.now query.entry))
        (proper_ancestors query.entry.qname.now)) []) }
    ensures hashed { OnOk result
        (have_owners (hash_of H.digest_of zone.now query.entry)
        (left_out_hashed zone.now.origin.now zone.now.denials.now
        (hashed_by (hash_of H.digest_of zone.now query.entry)) query.entry.qname.now)
        ≡ true) }
    ensures counted { hashes.new
        ≤ hashes.old
        + length
        (left_out_hashed zone.now.origin.now zone.now.denials.now
        (hashed_by (hash_of H.digest_of zone.now query.entry)) query.entry.qname.now) }
    ensures err { IfErr result
        (λ e. (e ≡ LookupError.Memory)
        ⊎ (have_owners (hash_of H.digest_of zone.now query.entry)
        (left_out_hashed zone.now.origin.now zone.now.denials.now
        (hashed_by (hash_of H.digest_of zone.now query.entry)) query.entry.qname.now)
        ≡ false)) }
{
    if query.qname.is_root() {
        return Ok(Vec::new(zone.origin.alloc()));
    }
    match provable(zone, query, query.qname.clone()?, Some(own), hashes)? {
        Some(encloser) => left_out_below(zone, query, encloser, hashes),
        None => Ok(Vec::new(zone.origin.alloc())),
    }
}

/// The same by the closest provable encloser.
fn left_out_below<'z, S: Signer, H: Nsec3Hash>(
    zone: &ServedZone<'z, S, H>,
    query: Nsec3QueryInfo<'_>,
    encloser: Encloser<'z>,
    hashes: &mut Counter,
) -> Result<Vec<&'z RecordSet>, LookupError>
    requires child { is_root encloser.child ≡ false }
    requires set { matching zone.now.origin.now zone.now.denials.now
        (hashed_by (hash_of H.digest_of zone.now query)) (base_name encloser.child)
        ≡ Some encloser.set.now }
    requires before { IfSome encloser.before
        (λ h. hash_of H.digest_of zone.now query h.name ≡ Ok h.owner) }
    ensures ok { IfOk result
        (λ sets. map (λ s. s.now) sets.items
        ≡ left_out_sets zone.now.origin.now zone.now.denials.now
        (hashed_by (hash_of H.digest_of zone.now query.entry)) query.entry.qname.now
        (base_name encloser.entry.child)) }
    ensures hashed { OnOk result
        (have_owners (hash_of H.digest_of zone.now query.entry)
        (wildcard_hashed query.entry.qname.now (base_name encloser.entry.child))
        ≡ true) }
    ensures counted { hashes.new
        ≤ hashes.old
        + length (wildcard_hashed query.entry.qname.now (base_name encloser.entry.child)) }
    ensures err { IfErr result
        (λ e. (e ≡ LookupError.Memory)
        ⊎ (have_owners (hash_of H.digest_of zone.now query.entry)
        (wildcard_hashed query.entry.qname.now (base_name encloser.entry.child))
        ≡ false)) }
{
    let Encloser { child, set, before } = encloser;
    let closer = hashed_closer(zone, query, child.num_labels(), before, hashes)?;
    let mut sets = Vec::new(zone.origin.alloc());
    if let Some(cover) = closer_set(zone.denials, &closer)? {
        push(&mut sets, cover)?;
    }
    push(&mut sets, set)?;
    Ok(sets)
}

/// The closest provable encloser: the nearest name of the zone above `child` that a set matches. `before` was hashed last.
fn provable<'z, S: Signer, H: Nsec3Hash>(
    zone: &ServedZone<'z, S, H>,
    query: Nsec3QueryInfo<'_>,
    child: LowerName,
    before: Option<HashedName>,
    hashes: &mut Counter,
) -> Result<Option<Encloser<'z>>, LookupError>
    requires child { is_root child ≡ false }
    requires before { IfSome before
        (λ h. hash_of H.digest_of zone.now query h.name ≡ Ok h.owner) }
    ensures found { IfOk result
        (λ found. option_map (λ e. base_name e.child) found
        ≡ provable zone.now.origin.now zone.now.denials.now
        (hashed_by (hash_of H.digest_of zone.now query.entry))
        (suffixes (base_name child))) }
    ensures child { IfOk result (λ found. IfSome found (λ e. is_root e.child ≡ false)) }
    ensures set { IfOk result
        (λ found. IfSome found
        (λ e. matching zone.now.origin.now zone.now.denials.now
        (hashed_by (hash_of H.digest_of zone.now query.entry)) (base_name e.child)
        ≡ Some e.set.now)) }
    ensures before { IfOk result
        (λ found. IfSome found
        (λ e. IfSome e.before
        (λ h. hash_of H.digest_of zone.now query.entry h.name ≡ Ok h.owner))) }
    ensures hashed { OnOk result
        (have_owners (hash_of H.digest_of zone.now query.entry)
        (tried zone.now.origin.now zone.now.denials.now
        (hashed_by (hash_of H.digest_of zone.now query.entry))
        (suffixes (base_name child)))
        ≡ true) }
    ensures counted { hashes.new
        ≤ hashes.old
        + length
        (tried zone.now.origin.now zone.now.denials.now
        (hashed_by (hash_of H.digest_of zone.now query.entry))
        (suffixes (base_name child))) }
    ensures err { IfErr result
        (λ e. (e ≡ LookupError.Memory)
        ⊎ (have_owners (hash_of H.digest_of zone.now query.entry)
        (tried zone.now.origin.now zone.now.denials.now
        (hashed_by (hash_of H.digest_of zone.now query.entry))
        (suffixes (base_name child)))
        ≡ false)) }
{
    let mut child = child;
    let mut before = before;
    let mut above = child.base_name()?;
    while is_at_or_above(zone.origin, &above) {
        let tried = hashed(zone, query, above.clone()?, hashes)?;
        if let Some(set) = matching(zone.denials, &tried.owner)? {
            return Ok(Some(Encloser { child, set, before }));
        }
        if above.is_root() {
            return Ok(None);
        }
        before = Some(tried);
        child.shorten();
        above.shorten();
    }
    Ok(None)
}

/// The one of so many labels of the name of a query and its ancestors, hashed, if there is one. `known` is at hand.
fn hashed_closer<S: Signer, H: Nsec3Hash>(
    zone: &ServedZone<'_, S, H>,
    query: Nsec3QueryInfo<'_>,
    count: usize,
    known: Option<HashedName>,
    hashes: &mut Counter,
) -> Result<Option<HashedName>, LookupError>
    requires { IfSome known
        (λ h. hash_of H.digest_of zone.now query h.name ≡ Ok h.owner) }
    ensures name { IfOk result
        (λ closer. option_map (λ h. h.name) closer ≡ of_labels count query.entry.qname.now) }
    ensures owner { IfOk result
        (λ closer. IfSome closer
        (λ h. hash_of H.digest_of zone.now query.entry h.name ≡ Ok h.owner)) }
    ensures counted { hashes.new
        ≤ hashes.old + length (option_to_list (of_labels count query.entry.qname.now)) }
    ensures err { IfErr result
        (λ e. (e ≡ LookupError.Memory)
        ⊎ (have_owners (hash_of H.digest_of zone.now query.entry)
        (option_to_list (of_labels count query.entry.qname.now))
        ≡ false)) }
{
    match of_labels(query.qname, count)? {
        Some(name) => Ok(Some(known_or_hashed(zone, query, name, known, hashes)?)),
        None => Ok(None),
    }
}

/// The one of so many labels of a name and its ancestors, if there is one.
fn of_labels(name: &LowerName, count: usize) -> Result<Option<LowerName>, ProtoError>
    ensures ok { IfOk result (λ found. found ≡ of_labels count name.now) }
    ensures err { IsOkUnless result ProtoError.Memory }
{
    if name.num_labels() < count {
        return Ok(None);
    }
    Ok(Some(name.ancestor(count)?))
}

/// A name hashed, unless it is the one that is at hand.
fn known_or_hashed<S: Signer, H: Nsec3Hash>(
    zone: &ServedZone<'_, S, H>,
    query: Nsec3QueryInfo<'_>,
    name: LowerName,
    known: Option<HashedName>,
    hashes: &mut Counter,
) -> Result<HashedName, LookupError>
    requires { IfSome known
        (λ h. hash_of H.digest_of zone.now query h.name ≡ Ok h.owner) }
    ensures name { IfOk result (λ h. h.name ≡ name) }
    ensures owner { IfOk result
        (λ h. hash_of H.digest_of zone.now query.entry name ≡ Ok h.owner) }
    ensures counted { hashes.new ≤ hashes.old + 1 }
    ensures err { IfErr result
        (λ e. (e ≡ LookupError.Memory)
        ⊎ IsErr (hash_of H.digest_of zone.now query.entry name)) }
{
    match known {
        Some(known) => {
            if same_name(&known.name, &name) {
                return Ok(known);
            }
            hashed(zone, query, name, hashes)
        }
        None => hashed(zone, query, name, hashes),
    }
}

/// A name hashed.
fn hashed<S: Signer, H: Nsec3Hash>(
    zone: &ServedZone<'_, S, H>,
    query: Nsec3QueryInfo<'_>,
    name: LowerName,
    hashes: &mut Counter,
) -> Result<HashedName, LookupError>
    ensures name { IfOk result (λ h. h.name ≡ name) }
    ensures owner { IfOk result
        (λ h. hash_of H.digest_of zone.now query.entry name ≡ Ok h.owner) }
    ensures counted { hashes.new ≡ one_more hashes.old }
    ensures err { IfErr result
        (λ e. (e ≡ LookupError.Memory)
        ⊎ IsErr (hash_of H.digest_of zone.now query.entry name)) }
{
    hashes.add_one();
    let owner = query.hashed_owner_name(zone.hash, &name, zone.origin)?;
    Ok(HashedName { name, owner })
}

/// The set that covers a name, if there is one.
fn closer_set<'z>(
    denials: &'z RecordMap,
    closer: &Option<HashedName>,
) -> Result<Option<&'z RecordSet>, ProtoError>
    ensures ok { IfOk result
        (λ set. option_copied set
        ≡ option_and_then
        (λ h. option_and_then (λ o. set_at denials.now o NSEC3)
        (cover_owner denials.now h.owner)) closer.now) }
    ensures err { IsOkUnless result ProtoError.Memory }
{
    match closer {
        Some(closer) => covering(denials, &closer.owner),
        None => Ok(None),
    }
}
