//! What is wrong with a ZONEMD record of a zone.
ghost use Rattle.std.specs.Prelude.{◌≡◌, ◌==◌, ◌<◌, ◌&&◌, ◌+◌, ◌*◌, nat_lt, count_by, IfOk, IfErr};
ghost use Rattle.zone_proto.specs.declared.record.Record.{Record as RecordValue};
ghost use Rattle.zone_planning.specs.Faults.{IsUnwritableUnless};
ghost use Rattle.zone_digest.specs.Faults.{IsDigestibleZone};
ghost use Rattle.zone_digest.specs.Verifying.{algorithm_of, digest_fault, is_of_kind, is_repeated, number_of};

use crate::digests::{DigestAlgorithm, SIMPLE, zone_digest};
use std::alloc::Global;
use thiserror::Error;
use zone_map::RecordMap;
use zone_planning::PlanFault;
use zone_proto::{LowerName, RData, Record};

/// Why a ZONEMD record doesn't show that its zone is whole (RFC 8976 section 4).
#[derive(Clone, Copy, PartialEq, Eq, Debug, Error)]
pub enum DigestFault {
    /// Its serial isn't that of the SOA.
    #[error("has another serial than the SOA")]
    OtherSerial,
    /// Its set has another record of its scheme and algorithm.
    #[error("has two digests of one scheme and algorithm")]
    Repeated,
    /// Its digest isn't as long as those of its algorithm.
    #[error("has a digest of another length than its algorithm makes")]
    OtherLength,
    /// The zone has another digest.
    #[error("has a digest that isn't that of the zone")]
    OtherDigest,
}

/// What is wrong with the ZONEMD record of these octets, one of a set of the origin of a zone whose SOA has this serial. Nothing where
/// its scheme or algorithm isn't one that is known here.
///
/// # Errors
///
/// Refused by `Unwritable` for data that no octets are, and by `Memory`.
pub fn digest_fault(
    alloc: Global,
    origin: &LowerName,
    records: &RecordMap,
    serial: u32,
    set: &[Record],
    octets: &[u8],
) -> Result<Option<DigestFault>, PlanFault>
    ensures ok { IfOk result (λ fault. fault
        ≡ digest_fault origin.now records.now serial set.now octets.now) }
    ensures err { IfErr result
        (λ e. IsUnwritableUnless e (IsDigestibleZone origin.now records.now)) }
{
    match octets {
        [first, second, third, fourth, scheme, number, digest @ ..] => {
            if number_of(*first, *second, *third, *fourth) != serial {
                return Ok(Some(DigestFault::OtherSerial));
            }
            let Some(algorithm) = algorithm_of(*scheme, *number) else {
                return Ok(None);
            };
            if is_repeated(set, *scheme, *number) {
                return Ok(Some(DigestFault::Repeated));
            }
            if digest.len() != algorithm.length() {
                return Ok(Some(DigestFault::OtherLength));
            }
            let made = zone_digest(alloc, algorithm, origin, records)?;
            if made.as_slice() == digest {
                Ok(None)
            } else {
                Ok(Some(DigestFault::OtherDigest))
            }
        }
        _ => Ok(Some(DigestFault::OtherLength)),
    }
}

/// The number of four octets, the highest first.
fn number_of(first: u8, second: u8, third: u8, fourth: u8) -> u32
    ensures { result ≡ number_of first second third fourth }
{
    let high = u32::from(first) * 256 + u32::from(second);
    let low = u32::from(third) * 256 + u32::from(fourth);
    high * 65536 + low
}

/// The algorithm of this number, with the scheme SIMPLE; none for others.
fn algorithm_of(scheme: u8, number: u8) -> Option<DigestAlgorithm>
    ensures { result ≡ algorithm_of scheme number }
{
    if scheme != SIMPLE {
        return None;
    }
    match number {
        1 => Some(DigestAlgorithm::Sha384),
        2 => Some(DigestAlgorithm::Sha512),
        _ => None,
    }
}

/// Whether several records of a set have this scheme and algorithm.
fn is_repeated(set: &[Record], scheme: u8, number: u8) -> bool
    ensures { result ≡ is_repeated set.now scheme number }
{
    set.iter()
        .filter(|record| is_of_kind(&record.rdata, scheme, number))
        .count()
        > 1
}

/// Whether data are those of a ZONEMD record of this scheme and algorithm.
fn is_of_kind(rdata: &RData, scheme: u8, number: u8) -> bool
    ensures { result ≡ is_of_kind scheme number rdata.now }
{
    match rdata {
        RData::Other(other) => match other.octets() {
            [_, _, _, _, its_scheme, its_number, ..] => {
                *its_scheme == scheme && *its_number == number
            }
            _ => false,
        },
        _ => false,
    }
}
