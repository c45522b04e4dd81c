//! A zone secured with the denials that are asked for.
ghost use Rattle.std.specs.Prelude.{◌≡◌, ◌⊎◌, ℕ, false, None, Some, option_and_then, OnOk, IfOk, IfErr, IsOkUnless};
ghost use Rattle.zone_proto.specs.Names.{Name};
ghost use Rattle.zone_proto.specs.Types.{SOA as soa_type, NSEC as nsec_type, NSEC3PARAM as param_type};
ghost use Rattle.zone_lookup.specs.StartOfAuthority.{serial};
ghost use Rattle.zone_map.specs.Zones.{owns, set_at, IsZone};
ghost use Rattle.zone_sha1.specs.Digests.{name_digest};
ghost use Rattle.zone_denial.specs.NsecSets.{nsec_set_at};
ghost use Rattle.zone_denial.specs.Nsec3Sets.{nsec3_fault, nsec3_sets_at};
ghost use Rattle.zone_denial.specs.Nsec3Zones.{hash_with};
ghost use Rattle.zone_signing.specs.Secured.{IsSecured};
ghost use Rattle.zone_planning.specs.Answering.{plans};
ghost use Rattle.zone_planner.specs.Faults.{denial_fault, hash_fault};
ghost use Rattle.zone_planner.specs.Plans.{denial_ttl, denied_by, denied_by_hashes, denied_by_names};

use lookup_types::SecureError;
use std::alloc::Global;
use zone_denial::nsec_sets::nsec_sets;
use zone_denial::nsec3_sets::nsec3_sets;
use zone_lookup::start_of_authority::first_soa;
use zone_map::{NewSets, RecordMap};
use zone_planning::{PlanFault, PlanSigner};
use zone_proto::{NSEC3PARAM, NxProofKind, ProtoError, RecordType, RrKey};
use zone_sha1::Sha1Hash;
use zone_signing::securing::secure;
use zone_trimming::trimmed;

/// Secures the sets of the zone whose SOA stands under `apex`, which has no denials, with those of a kind, by planning signers at the
/// moment `now`, in seconds since 1970. Refused by `Hash` and `OwnerTooLong` where names can't be hashed, and by `Memory`.
pub(crate) fn secure_by(
    alloc: Global,
    records: &mut RecordMap,
    apex: &RrKey,
    signers: &[PlanSigner],
    kind: &NxProofKind,
    now: u64,
) -> Result<(), PlanFault>
    requires apex { apex.now.record_type.0 ≡ soa_type }
    requires undenied { (n : Name) → owns records.old n nsec_type ≡ false }
    requires unannounced { owns records.old apex.now.name param_type ≡ false }
    ensures secured { OnOk result
        (IsSecured plans now apex.now.name signers.now
        (denied_by kind.now apex.now.name records.old) records.new) }
    ensures zone { OnOk result (IsZone records.new) }
    ensures ok { OnOk result (denial_fault kind.now apex.now.name records.old ≡ None) }
    ensures err { IfErr result
        (λ e. (e ≡ PlanFault.Memory)
        ⊎ (denial_fault kind.now apex.now.name records.old ≡ Some e)) }
{
    match kind {
        NxProofKind::Nsec => Ok(secure_nsec(alloc, records, apex, signers, now)?),
        NxProofKind::Nsec3 {
            algorithm,
            salt,
            iterations,
            opt_out,
        } => {
            let parameters = NSEC3PARAM {
                algorithm: *algorithm,
                opt_out: *opt_out,
                iterations: *iterations,
                salt: salt.clone()?,
            };
            secure_nsec3(alloc, records, apex, signers, &parameters, now)
        }
    }
}

/// The same with denials by NSEC. Refused by `Memory` alone.
fn secure_nsec(
    alloc: Global,
    records: &mut RecordMap,
    apex: &RrKey,
    signers: &[PlanSigner],
    now: u64,
) -> Result<(), ProtoError>
    requires apex { apex.now.record_type.0 ≡ soa_type }
    requires undenied { (n : Name) → owns records.old n nsec_type ≡ false }
    ensures secured { OnOk result
        (IsSecured plans now apex.now.name signers.now
        (denied_by_names apex.now.name records.old) records.new) }
    ensures zone { OnOk result (IsZone records.new) }
    ensures err { IsOkUnless result ProtoError.Memory }
{
    let sets = trimmed(alloc, made_nsec(alloc, records, apex)?)?;
    secure(records, Some(RecordType::NSEC), sets, apex, signers, now)
}

/// The NSEC sets of a zone that has none. Refused by `Memory` alone.
fn made_nsec(alloc: Global, records: &RecordMap, apex: &RrKey) -> Result<NewSets, ProtoError>
    requires apex { apex.now.record_type.0 ≡ soa_type }
    requires undenied { (n : Name) → owns records.now n nsec_type ≡ false }
    ensures ok { IfOk result
        (λ made. (n : Name) (t : ℕ)
        → set_at made n t
        ≡ nsec_set_at apex.now.name records.now (denial_ttl records.now apex.now.name)
        (serial records.now apex.now.name) n t) }
    ensures err { IsOkUnless result ProtoError.Memory }
{
    let (ttl, serial) = ttl_and_serial(records, apex);
    match nsec_sets(records, &apex.name, ttl, serial)? {
        Some(made) => Ok(made),
        None => Ok(NewSets::new(alloc)),
    }
}

/// The same with denials by NSEC3 with these parameters. Refused by `Hash` and `OwnerTooLong` where names can't be hashed, and by
/// `Memory`.
fn secure_nsec3(
    alloc: Global,
    records: &mut RecordMap,
    apex: &RrKey,
    signers: &[PlanSigner],
    parameters: &NSEC3PARAM,
    now: u64,
) -> Result<(), PlanFault>
    requires apex { apex.now.record_type.0 ≡ soa_type }
    requires unannounced { owns records.old apex.now.name param_type ≡ false }
    ensures secured { OnOk result
        (IsSecured plans now apex.now.name signers.now
        (denied_by_hashes apex.now.name records.old parameters.now) records.new) }
    ensures zone { OnOk result (IsZone records.new) }
    ensures ok { OnOk result
        (nsec3_fault apex.now.name records.old (hash_with name_digest parameters.now)
        parameters.now.opt_out
        ≡ None) }
    ensures err { IfErr result
        (λ e. (e ≡ PlanFault.Memory)
        ⊎ (option_and_then hash_fault
        (nsec3_fault apex.now.name records.old (hash_with name_digest parameters.now)
        parameters.now.opt_out)
        ≡ Some e)) }
{
    let sets = trimmed(alloc, made_nsec3(alloc, records, apex, parameters)?)?;
    secure(records, Some(RecordType::NSEC3), sets, apex, signers, now)?;
    Ok(())
}

/// The NSEC3 sets of a zone that has none, with these parameters, and its NSEC3PARAM set. Refused by `Hash` and `OwnerTooLong` where
/// names can't be hashed, and by `Memory`.
fn made_nsec3(
    alloc: Global,
    records: &RecordMap,
    apex: &RrKey,
    parameters: &NSEC3PARAM,
) -> Result<NewSets, PlanFault>
    requires apex { apex.now.record_type.0 ≡ soa_type }
    requires unannounced { owns records.now apex.now.name param_type ≡ false }
    ensures made { IfOk result
        (λ made. (n : Name) (t : ℕ)
        → set_at made n t
        ≡ nsec3_sets_at apex.now.name records.now (hash_with name_digest parameters.now)
        parameters.now (denial_ttl records.now apex.now.name) (serial records.now apex.now.name) n
        t) }
    ensures ok { OnOk result
        (nsec3_fault apex.now.name records.now (hash_with name_digest parameters.now)
        parameters.now.opt_out
        ≡ None) }
    ensures err { IfErr result
        (λ e. (e ≡ PlanFault.Memory)
        ⊎ (option_and_then hash_fault
        (nsec3_fault apex.now.name records.now (hash_with name_digest parameters.now)
        parameters.now.opt_out)
        ≡ Some e)) }
{
    let (ttl, serial) = ttl_and_serial(records, apex);
    let made = match nsec3_sets(records, &apex.name, &Sha1Hash, parameters, ttl, serial) {
        Ok(made) => made,
        Err(why) => return Err(fault_of(why)),
    };
    match made {
        Some(made) => Ok(made),
        // So it would be only where the zone had an NSEC3PARAM set.
        None => Ok(NewSets::new(alloc)),
    }
}

/// The TTL of the denials of the zone whose SOA stands under `apex`, in seconds, and its serial; both are 0 without an SOA.
fn ttl_and_serial(records: &RecordMap, apex: &RrKey) -> (u32, u32)
    requires { apex.now.record_type.0 ≡ soa_type }
    ensures { result
        ≡ (denial_ttl records.now apex.now.name, serial records.now apex.now.name) }
{
    let Some(set) = records.get(apex) else {
        return (0, 0);
    };
    match first_soa(set) {
        Some(soa) => (soa.minimum.min(set.ttl()), soa.serial),
        None => (0, 0),
    }
}

/// Why names get no NSEC3 sets. For lack of memory too, where the cause is none of names.
fn fault_of(error: SecureError) -> PlanFault
    ensures { (result ≡ PlanFault.Memory) ⊎ (hash_fault error ≡ Some result) }
{
    match error {
        SecureError::Hash => PlanFault::Hash,
        SecureError::OwnerTooLong => PlanFault::OwnerTooLong,
        SecureError::Memory | SecureError::TimeOutOfRange | SecureError::CnameAtOrigin => {
            PlanFault::Memory
        }
    }
}
