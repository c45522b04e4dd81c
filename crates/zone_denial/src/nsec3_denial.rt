//! The NSEC3 sets that answer a query for a denial.
ghost use Rattle.std.specs.Prelude.{◌≡◌, ◌⊎◌, [], ◌∷◌, Some, Ok, Err, map, IfOk, IfErr, IfSome, option_map};
ghost use Rattle.zone_proto.specs.Names.{base_name, wildcard_of};
ghost use Rattle.zone_denial.specs.Nsec3Denial.{match_of, encloser_of, next_closer as next_closer_of};
ghost use Rattle.zone_denial.specs.Nsec3Lent.{hashed_for, query_denial, sets_of, enclosed_sets};

use crate::nsec3_keys::{Hashing, Matched, covering, matching, matching_or_covering};
use crate::owner_order::in_owner_order;
use lookup_types::Nsec3QueryInfo;
use zone_map::RecordMap;
use zone_proto::{LowerName, Nsec3Hash, ProtoError, RecordSet};

/// The nearest ancestor of a queried name whose hashed owner owns NSEC3.
#[derive(Drop)]
struct Encloser<'m> {
    /// The name one label longer than the ancestor: the queried name or an ancestor of it (RFC 5155 section 1.3).
    next_closer: LowerName,
    /// The owner that the NSEC3 set of that name has, or would have.
    closer_owner: LowerName,
    /// The set that matches the ancestor.
    set: &'m RecordSet,
}

/// The NSEC3 sets that answer a query for a denial in the zone of `origin`, in the canonical order of their owners, each once
/// (RFC 5155 section 7.2). Names are hashed by `hash` with the parameters of the query.
///
/// - No data (sections 7.2.3 and 7.2.4): the set that matches the queried name alone.
/// - Wildcard answer (section 7.2.6): the set that covers the next closer name.
/// - Name error and wildcard no data (sections 7.2.2 and 7.2.5): the set that matches the closest encloser, the one
///   that covers the next closer name, and the one that matches the wildcard at the encloser or, where none does,
///   covers it.
///
/// The closest encloser is the nearest ancestor, the root aside, that a set matches; without one there is no set. The type
/// isn't read.
///
/// # Errors
///
/// Names are hashed one after the other, each once, and only where the answer needs it: the queried name, its ancestors
/// from the longest on up to the encloser, and the wildcard. Refused as the first of them is that has no hashed owner,
/// as [`Nsec3QueryInfo::hashed_owner_name`] says, and by `Memory`.
pub fn nsec3_denial<'m, H: Nsec3Hash>(
    records: &'m RecordMap,
    origin: &LowerName,
    query: &Nsec3QueryInfo<'_>,
    hash: &H,
) -> Result<Vec<&'m RecordSet>, ProtoError>
    ensures ok { IfOk result
        (λ sets. query_denial (H.digest_of hash.now) origin.now records.now query.now
        ≡ Ok (map (λ s. s.now) sets.items)) }
    ensures err { IfErr result
        (λ e. (e ≡ ProtoError.Memory)
        ⊎ (query_denial (H.digest_of hash.now) origin.now records.now query.now ≡ Err e)) }
{
    let hashing = Hashing {
        origin,
        query,
        hash,
    };
    let Matched { owner, set } = matching(records, &hashing, query.qname)?;
    if set.is_some() && !query.has_wildcard_match {
        // No data.
        return in_owner_order(origin.alloc(), set, None, None);
    }
    match closest_encloser(records, &hashing, query.qname, owner)? {
        Some(encloser) => enclosed(records, &hashing, encloser),
        None => Ok(Vec::new(origin.alloc())),
    }
}

/// The encloser of a name of which this is the hashed owner, if there is one.
fn closest_encloser<'m, H: Nsec3Hash>(
    records: &'m RecordMap,
    hashing: &Hashing<'_, H>,
    name: &LowerName,
    owner: LowerName,
) -> Result<Option<Encloser<'m>>, ProtoError>
    requires { hashed_for hashing.now.origin.now (H.digest_of hashing.now.hash.now)
        hashing.now.query.now name.now
        ≡ Ok owner }
    ensures found { IfOk result
        (λ found. encloser_of records.now
        (hashed_for hashing.now.origin.now (H.digest_of hashing.now.hash.now)
        hashing.now.query.now)
        name.now
        ≡ Ok (option_map (λ e. base_name e.next_closer) found)) }
    ensures closer { IfOk result
        (λ found. IfSome found
        (λ e. next_closer_of name.now (base_name e.next_closer) ≡ Some e.next_closer)) }
    ensures owner { IfOk result
        (λ found. IfSome found
        (λ e. hashed_for hashing.now.origin.now (H.digest_of hashing.now.hash.now)
        hashing.now.query.now e.next_closer
        ≡ Ok e.closer_owner)) }
    ensures matched { IfOk result
        (λ found. IfSome found
        (λ e. sets_of records.now
        (match_of records.now
        (hashed_for hashing.now.origin.now (H.digest_of hashing.now.hash.now)
        hashing.now.query.now)
        (base_name e.next_closer))
        ≡ Ok (e.set.now ∷ []))) }
    ensures err { IfErr result
        (λ e. (e ≡ ProtoError.Memory)
        ⊎ (encloser_of records.now
        (hashed_for hashing.now.origin.now (H.digest_of hashing.now.hash.now)
        hashing.now.query.now)
        name.now
        ≡ Err e)) }
{
    let mut closer_owner = owner;
    let mut next_closer = name.clone()?;
    let mut above = name.base_name()?;
    while !above.is_root() {
        let Matched { owner, set } = matching(records, hashing, &above)?;
        if let Some(set) = set {
            return Ok(Some(Encloser {
                next_closer,
                closer_owner,
                set,
            }));
        }
        closer_owner = owner;
        next_closer.shorten();
        above.shorten();
    }
    Ok(None)
}

/// The sets that deny the queried name with its encloser.
fn enclosed<'m, H: Nsec3Hash>(
    records: &'m RecordMap,
    hashing: &Hashing<'_, H>,
    encloser: Encloser<'m>,
) -> Result<Vec<&'m RecordSet>, ProtoError>
    requires closer { next_closer_of hashing.now.query.now.qname.now
        (base_name encloser.next_closer)
        ≡ Some encloser.next_closer }
    requires owner { hashed_for hashing.now.origin.now (H.digest_of hashing.now.hash.now)
        hashing.now.query.now encloser.next_closer
        ≡ Ok encloser.closer_owner }
    requires matched { sets_of records.now
        (match_of records.now
        (hashed_for hashing.now.origin.now (H.digest_of hashing.now.hash.now)
        hashing.now.query.now)
        (base_name encloser.next_closer))
        ≡ Ok (encloser.set.now ∷ []) }
    ensures ok { IfOk result
        (λ sets. enclosed_sets records.now
        (hashed_for hashing.now.origin.now (H.digest_of hashing.now.hash.now)
        hashing.now.query.now)
        hashing.now.query.now.has_wildcard_match hashing.now.query.now.qname.now
        (Some (base_name encloser.entry.next_closer))
        ≡ Ok (map (λ s. s.now) sets.items)) }
    ensures err { IfErr result
        (λ e. (e ≡ ProtoError.Memory)
        ⊎ (enclosed_sets records.now
        (hashed_for hashing.now.origin.now (H.digest_of hashing.now.hash.now)
        hashing.now.query.now)
        hashing.now.query.now.has_wildcard_match hashing.now.query.now.qname.now
        (Some (base_name encloser.entry.next_closer))
        ≡ Err e)) }
{
    let Encloser {
        next_closer,
        closer_owner,
        set,
    } = encloser;
    let alloc = next_closer.alloc();
    let closer = covering(records, &closer_owner)?;
    if hashing.query.has_wildcard_match {
        // Wildcard answer.
        return in_owner_order(alloc, closer, None, None);
    }
    // Name error or wildcard no data, distinguished by whether a set matches the wildcard.
    let wildcard_owner = wildcard_owner(hashing, next_closer, closer_owner)?;
    let wildcard_set = matching_or_covering(records, &wildcard_owner)?;
    in_owner_order(alloc, Some(set), closer, wildcard_set)
}

/// The hashed owner of the wildcard at the encloser, which is the next closer name with `*` for its first label. Where
/// that has `*` there, as in a query for a wildcard, its own hashed owner is at hand.
fn wildcard_owner<H: Nsec3Hash>(
    hashing: &Hashing<'_, H>,
    next_closer: LowerName,
    closer_owner: LowerName,
) -> Result<LowerName, ProtoError>
    requires { hashed_for hashing.now.origin.now (H.digest_of hashing.now.hash.now)
        hashing.now.query.now next_closer
        ≡ Ok closer_owner }
    ensures ok { IfOk result
        (λ owner. hashed_for hashing.now.origin.now (H.digest_of hashing.now.hash.now)
        hashing.now.query.now (wildcard_of next_closer)
        ≡ Ok owner) }
    ensures err { IfErr result
        (λ e. (e ≡ ProtoError.Memory)
        ⊎ (hashed_for hashing.now.origin.now (H.digest_of hashing.now.hash.now)
        hashing.now.query.now (wildcard_of next_closer)
        ≡ Err e)) }
{
    if next_closer.is_wildcard() {
        return Ok(closer_owner);
    }
    hashing.owner(&next_closer.into_wildcard())
}
