//! The hash of names for NSEC3 records: SHA-1.
ghost use Rattle.std.specs.Prelude.{◌≡◌, ◌++◌};
ghost use Rattle.sha1.specs.Sha1.{sha1};
ghost use Rattle.zone_sha1.specs.Digests.{iterated_hash, name_digest};

use sha1::Sha1;
use zone_proto::{LowerName, Nsec3Hash, ProtoError};

/// The number of SHA-1 among the hash algorithms (RFC 5155 section 11).
const SHA_1: u8 = 1;

/// How many octets a digest has (FIPS 180-4 section 1).
const DIGEST_LENGTH: usize = 20;

/// The hash of names for NSEC3 records: SHA-1, the only algorithm that the standard has (RFC 5155 section 11).
#[derive(Drop)]
pub struct Sha1Hash;

impl Nsec3Hash for Sha1Hash {
    ghost digest_of = { λ _ algorithm salt name iterations.
        name_digest algorithm salt name iterations };

    /// The digest of the name's wire form in lower case by SHA-1, for algorithm 1: hashed once, and then `iterations` times
    /// more, each time with the salt behind what is hashed (RFC 5155 section 5). It has 20 octets.
    ///
    /// Another algorithm is refused by `Hash`, for which no memory is taken.
    fn hash(
        &self,
        algorithm: u8,
        salt: &[u8],
        name: &LowerName,
        iterations: u16,
    ) -> Result<Vec<u8>, ProtoError> {
        if algorithm != SHA_1 {
            return Err(ProtoError::Hash);
        }
        let owner = name.wire_lower()?;
        let digest = iterated_digest(&owner, salt, iterations);
        Ok(Vec::from_slice(name.alloc(), &digest)?)
    }
}

/// The digest of octets, and the digest of that as many times as there are iterations, each time with the salt behind.
fn iterated_digest(octets: &[u8], salt: &[u8], iterations: u16) -> [u8; DIGEST_LENGTH]
    ensures { result ≡ iterated_hash sha1 salt.now octets.now iterations }
{
    let mut digest = salted_digest(octets, salt);
    for _ in 0..iterations {
        digest = salted_digest(&digest, salt);
    }
    digest
}

/// The digest of octets with the salt behind them.
fn salted_digest(octets: &[u8], salt: &[u8]) -> [u8; DIGEST_LENGTH]
    ensures { result ≡ sha1 (octets.now ++ salt.now) }
{
    let mut hasher = Sha1::new();
    hasher.update(octets);
    hasher.update(salt);
    hasher.finalize()
}
