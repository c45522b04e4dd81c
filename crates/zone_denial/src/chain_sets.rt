//! Which sets of denial belong to the chain by which a zone denies.
ghost use Rattle.std.specs.Prelude.{◌≡◌, option_copied};
ghost use Rattle.zone_denial.specs.Chains.{has_parameters, is_of_chain, stays};
ghost use Rattle.zone_denial.specs.Nsec3Circle.{first_nsec3};

use zone_map::is_denial_type;
use zone_proto::{NSEC3, NxProofKind, RData, RecordSet, RecordType};

/// Whether a set of a type stays where only those of the chain deny by which a zone of this kind denies: it is no NSEC or NSEC3
/// set, or it belongs to the chain (RFC 5155 sections 7.3 and 8.2). Without a kind no NSEC and no NSEC3 set stays.
pub fn stays(kind: Option<&NxProofKind>, record_type: RecordType, set: &RecordSet) -> bool
    ensures { result ≡ stays (option_copied kind.entry) record_type.0 set.now }
{
    !is_denial_type(record_type) || is_of_chain(kind, record_type, set)
}

/// Whether a set of denial belongs to the chain of a zone that denies so.
fn is_of_chain(kind: Option<&NxProofKind>, record_type: RecordType, set: &RecordSet) -> bool
    ensures { result ≡ is_of_chain (option_copied kind.entry) record_type.0 set.now }
{
    match kind {
        None => false,
        Some(NxProofKind::Nsec) => record_type == RecordType::NSEC,
        Some(
            NxProofKind::Nsec3 {
                algorithm,
                salt,
                iterations,
                ..
            },
        ) => {
            record_type == RecordType::NSEC3
                && has_parameters(*algorithm, salt.as_slice(), *iterations, set)
        }
    }
}

/// Whether the first record of an NSEC3 set has this algorithm, this salt and so many iterations (RFC 5155 section 3.1): whether
/// the set belongs to the chain with these parameters.
pub fn has_parameters(algorithm: u8, salt: &[u8], iterations: u16, set: &RecordSet) -> bool
    ensures { result ≡ has_parameters algorithm salt.now iterations set.now }
{
    match first_nsec3(set) {
        Some(data) => {
            data.algorithm == algorithm
                && (data.salt.as_slice() == salt && data.iterations == iterations)
        }
        None => false,
    }
}

/// The NSEC3 data of a set's first record; None if it has no records, or data of another type.
pub fn first_nsec3(set: &RecordSet) -> Option<&NSEC3>
    ensures { option_copied result ≡ first_nsec3 set.now.records }
{
    match &set.as_slice().first()?.rdata {
        RData::NSEC3(data) => Some(data),
        _ => None,
    }
}
