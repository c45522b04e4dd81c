//! The NSEC or NSEC3 sets that prove what a response says.
ghost use Rattle.std.specs.Prelude.{◌≡◌, ◌≤◌, ◌+◌, ◌⊎◌, ◌++◌, false, true, fold, length, map, IfErr, IfOk, OnOk, IsOkUnless, option_and_then, option_copied, option_to_list};
ghost use Rattle.std.specs.List.{list_any};
ghost use Rattle.zone_proto.specs.Names.{same_name};
ghost use Rattle.zone_denial.specs.NsecDenial.{closest_nsec};
ghost use Rattle.zone_lookup.specs.Runs.{with_new};
ghost use Rattle.zone_response.specs.Denials.{wildcard_proof, wildcard_hashed_names, wildcard_has_owners, denial, denial_hashed, denial_has_owners, end_proof, end_hashed, end_has_owners, same_owner, with_wildcard_proof, proofs, hashed_names, is_provable, sent_proof};
ghost use Rattle.zone_response.specs.HashedDenials.{AsksByHash, unless_root};
ghost use Rattle.zone_response.specs.Queries.{zone_of};
ghost use Rattle.zone_response.specs.Sections.{sent_sets};
ghost use Rattle.zone_response.specs.Steps.{end_of};

use crate::hashed_denials::{absent_sets, present_sets, wildcard_sets};
use crate::lists::{lend_for, push};
use crate::question::ServedZone;
use crate::response::{Part, Sent};
use crate::steps::End;
use crate::wildcards::source_of_synthesis;
use lookup_types::{LookupError, Nsec3QueryInfo};
use zone_denial::closest::closest_nsec;
use zone_map::{Counter, RecordMap};
use zone_proto::{LowerName, Nsec3Hash, NxProofKind, ProtoError, RecordSet, RecordType, Signer};

/// The sets that prove that a wildcard may answer for each name for which one did, and what the end says; each set
/// once. `ds` is the DS set of the child that is referred to, if it owns one. It counts the names that it hashes.
/// Refused by `Memory`, and as the hash of a zone that denies by NSEC3 refuses a name.
pub(crate) fn proofs<'z, S: Signer, H: Nsec3Hash>(
    zone: &ServedZone<'z, S, H>,
    ds: Option<&RecordSet>,
    made: &[LowerName],
    end: &End<'_>,
    hashes: &mut Counter,
) -> Result<Vec<&'z RecordSet>, LookupError>
    ensures ok { IfOk result
        (λ sets. map (λ s. s.now) sets.items
        ≡ proofs (zone_of S.signature_of H.digest_of zone.now) (option_copied ds.entry) made.now
        (end_of end.now)) }
    ensures hashed { OnOk result
        (is_provable (zone_of S.signature_of H.digest_of zone.now) (option_copied ds.entry)
        made.now (end_of end.now)
        ≡ true) }
    ensures counted { hashes.new
        ≤ hashes.old
        + length
        (hashed_names (zone_of S.signature_of H.digest_of zone.now) (option_copied ds.entry)
        made.now (end_of end.now)) }
    ensures err { IfErr result
        (λ e. (e ≡ LookupError.Memory)
        ⊎ (is_provable (zone_of S.signature_of H.digest_of zone.now) (option_copied ds.entry)
        made.now (end_of end.now)
        ≡ false)) }
{
    let mut sets = Vec::new(zone.origin.alloc());
    for name in made {
        add_wildcard_proof(zone, name, &mut sets, hashes)?;
    }
    let more = end_proof(zone, ds, end, hashes)?;
    add_all(&mut sets, more)?;
    Ok(sets)
}

/// Puts the sets last that prove that a wildcard may answer for a name, unless the list has them.
fn add_wildcard_proof<'z, S: Signer, H: Nsec3Hash>(
    zone: &ServedZone<'z, S, H>,
    name: &LowerName,
    sets: &mut Vec<&'z RecordSet>,
    hashes: &mut Counter,
) -> Result<(), LookupError>
    ensures ok { OnOk result
        (map (λ s. s.now) sets.new.items
        ≡ with_wildcard_proof (zone_of S.signature_of H.digest_of zone.now)
        (map (λ s. s.now) sets.old.items) name.now) }
    ensures hashed { OnOk result
        (wildcard_has_owners (zone_of S.signature_of H.digest_of zone.now) name.now ≡ true) }
    ensures counted { hashes.new
        ≤ hashes.old
        + length
        (wildcard_hashed_names (zone_of S.signature_of H.digest_of zone.now) name.now) }
    ensures err { IfErr result
        (λ e. (e ≡ LookupError.Memory)
        ⊎ (wildcard_has_owners (zone_of S.signature_of H.digest_of zone.now) name.now ≡ false)) }
{
    let more = wildcard_proof(zone, name, hashes)?;
    Ok(add_all(sets, more)?)
}

/// The sets that prove that a wildcard may answer for a name.
fn wildcard_proof<'z, S: Signer, H: Nsec3Hash>(
    zone: &ServedZone<'z, S, H>,
    name: &LowerName,
    hashes: &mut Counter,
) -> Result<Vec<&'z RecordSet>, LookupError>
    ensures ok { IfOk result
        (λ sets. map (λ s. s.now) sets.items
        ≡ wildcard_proof (zone_of S.signature_of H.digest_of zone.now) name.now) }
    ensures hashed { OnOk result
        (wildcard_has_owners (zone_of S.signature_of H.digest_of zone.now) name.now ≡ true) }
    ensures counted { hashes.new
        ≤ hashes.old
        + length
        (wildcard_hashed_names (zone_of S.signature_of H.digest_of zone.now) name.now) }
    ensures err { IfErr result
        (λ e. (e ≡ LookupError.Memory)
        ⊎ (wildcard_has_owners (zone_of S.signature_of H.digest_of zone.now) name.now ≡ false)) }
{
    match hashed_query(zone.nx_proof_kind, name) {
        Some(query) => match source_of_synthesis(zone.inner, name, &mut Counter::new())? {
            Some(wildcard) => wildcard_sets(zone, query, &wildcard, hashes),
            None => Ok(Vec::new(zone.origin.alloc())),
        },
        None => nsec_proof(zone.denials, name, None),
    }
}

/// The sets that prove what an end says.
fn end_proof<'z, S: Signer, H: Nsec3Hash>(
    zone: &ServedZone<'z, S, H>,
    ds: Option<&RecordSet>,
    end: &End<'_>,
    hashes: &mut Counter,
) -> Result<Vec<&'z RecordSet>, LookupError>
    ensures ok { IfOk result
        (λ sets. map (λ s. s.now) sets.items
        ≡ end_proof (zone_of S.signature_of H.digest_of zone.now) (option_copied ds.entry)
        (end_of end.now)) }
    ensures hashed { OnOk result
        (end_has_owners (zone_of S.signature_of H.digest_of zone.now) (option_copied ds.entry)
        (end_of end.now)
        ≡ true) }
    ensures counted { hashes.new
        ≤ hashes.old
        + length
        (end_hashed (zone_of S.signature_of H.digest_of zone.now) (option_copied ds.entry)
        (end_of end.now)) }
    ensures err { IfErr result
        (λ e. (e ≡ LookupError.Memory)
        ⊎ (end_has_owners (zone_of S.signature_of H.digest_of zone.now) (option_copied ds.entry)
        (end_of end.now)
        ≡ false)) }
{
    match end {
        End::Missing(missing) => denial(zone, &missing.name, missing.wildcard.as_ref(), hashes),
        End::Referred(cut) => match ds {
            Some(_) => Ok(Vec::new(zone.origin.alloc())),
            None => denial(zone, &LowerName::new(cut.name())?, None, hashes),
        },
        _ => Ok(Vec::new(zone.origin.alloc())),
    }
}

/// The sets that prove that a name, and the wildcard that was asked for it, hasn't what is asked for.
fn denial<'z, S: Signer, H: Nsec3Hash>(
    zone: &ServedZone<'z, S, H>,
    name: &LowerName,
    wildcard: Option<&LowerName>,
    hashes: &mut Counter,
) -> Result<Vec<&'z RecordSet>, LookupError>
    ensures ok { IfOk result
        (λ sets. map (λ s. s.now) sets.items
        ≡ denial (zone_of S.signature_of H.digest_of zone.now) name.now
        (option_copied wildcard.entry)) }
    ensures hashed { OnOk result
        (denial_has_owners (zone_of S.signature_of H.digest_of zone.now) name.now
        (option_copied wildcard.entry)
        ≡ true) }
    ensures counted { hashes.new
        ≤ hashes.old
        + length
        (denial_hashed (zone_of S.signature_of H.digest_of zone.now) name.now
        (option_copied wildcard.entry)) }
    ensures err { IfErr result
        (λ e. (e ≡ LookupError.Memory)
        ⊎ (denial_has_owners (zone_of S.signature_of H.digest_of zone.now) name.now
        (option_copied wildcard.entry)
        ≡ false)) }
{
    match hashed_query(zone.nx_proof_kind, name) {
        Some(query) => match below_root(wildcard) {
            Some(wildcard) => absent_sets(zone, query, wildcard, hashes),
            None => present_sets(zone, query, hashes),
        },
        None => nsec_proof(zone.denials, name, wildcard),
    }
}

/// A name that isn't the root, as each wildcard.
fn below_root(wildcard: Option<&LowerName>) -> Option<&LowerName>
    ensures { option_copied result ≡ option_and_then unless_root (option_copied wildcard.entry) }
{
    match wildcard {
        Some(wildcard) if !wildcard.is_root() => Some(wildcard),
        _ => None,
    }
}

/// What is asked of a zone that denies by NSEC3, of this kind, about a name; None where it denies otherwise.
pub fn hashed_query<'q>(
    kind: Option<&'q NxProofKind>,
    name: &'q LowerName,
) -> Option<Nsec3QueryInfo<'q>>
    ensures { AsksByHash (option_copied kind.entry) name.now result }
{
    match kind {
        Some(
            NxProofKind::Nsec3 {
                algorithm,
                salt,
                iterations,
                ..
            },
        ) => Some(Nsec3QueryInfo {
            qname: name,
            // Nothing depends on the type.
            qtype: RecordType::NSEC3,
            // And nothing on this.
            has_wildcard_match: false,
            algorithm: *algorithm,
            salt: salt.as_slice(),
            iterations: *iterations,
        }),
        Some(NxProofKind::Nsec) | None => None,
    }
}

/// The NSEC sets of a name and of the wildcard that was asked for it, or else those that cover them.
fn nsec_proof<'z>(
    denials: &'z RecordMap,
    name: &LowerName,
    wildcard: Option<&LowerName>,
) -> Result<Vec<&'z RecordSet>, LookupError>
    ensures ok { IfOk result
        (λ sets. map (λ s. s.now) sets.items
        ≡ option_to_list (closest_nsec denials.now name.now)
        ++ option_to_list
        (option_and_then (closest_nsec denials.now) (option_copied wildcard.entry))) }
    ensures err { IsOkUnless result LookupError.Memory }
{
    let mut sets = Vec::new(name.alloc());
    add_closest(denials, name, &mut sets)?;
    if let Some(wildcard) = wildcard {
        add_closest(denials, wildcard, &mut sets)?;
    }
    Ok(sets)
}

/// Puts the NSEC set of a name last, or else the one that covers it, if there is one.
fn add_closest<'z>(
    denials: &'z RecordMap,
    name: &LowerName,
    sets: &mut Vec<&'z RecordSet>,
) -> Result<(), LookupError>
    ensures ok { OnOk result
        (map (λ s. s.now) sets.new.items
        ≡ map (λ s. s.now) sets.old.items
        ++ option_to_list (closest_nsec denials.now name.now)) }
    ensures err { IsOkUnless result LookupError.Memory }
{
    match closest_nsec(denials, name)? {
        Some(set) => Ok(push(sets, set)?),
        None => Ok(()),
    }
}

/// Puts the sets last that prove something, with the lesser one of their TTL and of this.
pub(crate) fn send_proofs<'z>(
    sets: Vec<&'z RecordSet>,
    ttl: u32,
    list: &mut Vec<Sent<'z>>,
) -> Result<(), ProtoError>
    ensures ok { OnOk result
        (sent_sets list.new
        ≡ sent_sets list.old ++ map (sent_proof ttl) (map (λ s. s.now) sets.entry.items)) }
    ensures err { IsOkUnless result ProtoError.Memory }
{
    for set in sets {
        lend_for(list, set, set.ttl().min(ttl), Part::Signed)?;
    }
    Ok(())
}

/// Puts sets last, each unless the list has one of its owner.
fn add_all<'z>(sets: &mut Vec<&'z RecordSet>, more: Vec<&'z RecordSet>) -> Result<(), ProtoError>
    ensures ok { OnOk result
        (map (λ s. s.now) sets.new.items
        ≡ fold (with_new same_owner) (map (λ s. s.now) sets.old.items)
        (map (λ s. s.now) more.entry.items)) }
    ensures err { IsOkUnless result ProtoError.Memory }
{
    for set in more {
        add_new(sets, set)?;
    }
    Ok(())
}

/// Puts a set last, unless one of the list has its owner.
fn add_new<'z>(sets: &mut Vec<&'z RecordSet>, set: &'z RecordSet) -> Result<(), ProtoError>
    ensures ok { OnOk result
        (map (λ s. s.now) sets.new.items
        ≡ with_new same_owner (map (λ s. s.now) sets.old.items) set.now) }
    ensures err { IsOkUnless result ProtoError.Memory }
{
    if is_owner_listed(sets, set) {
        return Ok(());
    }
    sets.push(set)?;
    Ok(())
}

/// Whether a set of a list has the owner of this one.
fn is_owner_listed(sets: &[&RecordSet], set: &RecordSet) -> bool
    ensures { result ≡ list_any (λ s. same_name s.now.owner set.now.owner) sets.now }
{
    for listed in sets {
        if listed.name() == set.name() {
            return true;
        }
    }
    false
}
