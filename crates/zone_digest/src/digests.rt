//! The digest of a zone, and the data of its ZONEMD record.
ghost use Rattle.std.specs.Prelude.{◌≡◌, IfOk, IfErr};
ghost use Rattle.zone_planning.specs.Faults.{IsUnwritableUnless};
ghost use Rattle.zone_digest.specs.Faults.{IsDigestibleZone};
ghost use Rattle.zone_digest.specs.ZoneDigests.{algorithm_number, digest_by, digest_length, zone_digest, zonemd_text};

use crate::zone_text::push_zone;
use sha2::{Digest, Sha384, Sha512};
use std::alloc::{AllocError, Global};
use zone_map::RecordMap;
use zone_planning::PlanFault;
use zone_proto::LowerName;

/// The scheme SIMPLE: one digest of the whole zone (RFC 8976 section 2.2.2).
pub(crate) const SIMPLE: u8 = 1;

/// A hash function by which digests of zones are made (RFC 8976 section 2.2.3).
#[derive(Clone, Copy, PartialEq, Eq, Debug)]
pub enum DigestAlgorithm {
    /// SHA-384, number 1.
    Sha384,
    /// SHA-512, number 2.
    Sha512,
}

impl DigestAlgorithm {
    /// Its number in ZONEMD records.
    pub fn number(self) -> u8
        ensures { result ≡ algorithm_number self }
    {
        match self {
            DigestAlgorithm::Sha384 => 1,
            DigestAlgorithm::Sha512 => 2,
        }
    }

    /// How many octets its digests have.
    pub fn length(self) -> usize
        ensures { result ≡ digest_length self }
    {
        match self {
            DigestAlgorithm::Sha384 => 48,
            DigestAlgorithm::Sha512 => 64,
        }
    }

    /// The digest of octets. Its only error is that no memory is found.
    fn digest(self, alloc: Global, octets: &[u8]) -> Result<Vec<u8>, AllocError>
        ensures { IfOk result (λ digest. digest.items ≡ digest_by self octets.now) }
    {
        match self {
            DigestAlgorithm::Sha384 => Vec::from_slice(alloc, &Sha384::digest(octets)),
            DigestAlgorithm::Sha512 => Vec::from_slice(alloc, &Sha512::digest(octets)),
        }
    }
}

/// The digest of the zone of an origin by the scheme SIMPLE (RFC 8976 section 3.3.1): of all its records but the ZONEMD records of the
/// origin and their signatures.
///
/// # Errors
///
/// Refused by `Unwritable` for data that no octets are, and by `Memory`.
pub fn zone_digest(
    alloc: Global,
    algorithm: DigestAlgorithm,
    origin: &LowerName,
    records: &RecordMap,
) -> Result<Vec<u8>, PlanFault>
    ensures ok { IfOk result
        (λ digest. digest.items ≡ zone_digest algorithm origin.now records.now) }
    ensures err { IfErr result
        (λ e. IsUnwritableUnless e (IsDigestibleZone origin.now records.now)) }
{
    let mut text = Vec::new(alloc);
    push_zone(&mut text, origin, records)?;
    Ok(algorithm.digest(alloc, text.as_slice())?)
}

/// The data of a ZONEMD record in wire form (RFC 8976 section 2.2): the serial of the zone, the scheme SIMPLE, the number of the
/// algorithm, and the digest. Its only error is that no memory is found.
pub fn zonemd_data(
    alloc: Global,
    serial: u32,
    algorithm: DigestAlgorithm,
    digest: &[u8],
) -> Result<Vec<u8>, AllocError>
    ensures { IfOk result
        (λ octets. octets.items ≡ zonemd_text serial algorithm digest.now) }
{
    let mut octets = Vec::new(alloc);
    let high = (serial / 65536) as u16;
    let low = (serial % 65536) as u16;
    octets.extend_from_slice(&[
        (high / 256) as u8,
        (high % 256) as u8,
        (low / 256) as u8,
        (low % 256) as u8,
        SIMPLE,
        algorithm.number(),
    ])?;
    octets.extend_from_slice(digest)?;
    Ok(octets)
}
