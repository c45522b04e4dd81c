//! The hash functions.
ghost use Rattle.std.specs.Prelude.{◌≡◌, ◌++◌, IfOk};
ghost use Rattle.message_hmac.specs.Algorithms.{block_by, hash_by, size_by};

use sha1::Sha1;
use sha2::{Digest, Sha224, Sha256, Sha384, Sha512};
use std::alloc::{AllocError, Global};

/// The digest by a hasher of pieces, one behind the other.
macro_rules! digest {
    ($hasher:ty, $($piece:expr),*) => {{
        let mut hasher = <$hasher>::new();
        $(hasher.update($piece);)*
        hasher.finalize()
    }};
}

/// A hash function by which codes are made (RFC 8945 section 6).
#[derive(Clone, Copy, PartialEq, Eq, Debug)]
pub enum Algorithm {
    /// SHA-1: hmac-sha1, for old peers.
    Sha1,
    /// SHA-224: hmac-sha224.
    Sha224,
    /// SHA-256: hmac-sha256.
    Sha256,
    /// SHA-384: hmac-sha384.
    Sha384,
    /// SHA-512: hmac-sha512.
    Sha512,
}

impl Algorithm {
    /// How many octets a code has.
    pub fn size(self) -> usize
        ensures { result ≡ size_by self }
    {
        match self {
            Algorithm::Sha1 => 20,
            Algorithm::Sha224 => 28,
            Algorithm::Sha256 => 32,
            Algorithm::Sha384 => 48,
            Algorithm::Sha512 => 64,
        }
    }

    /// How many octets a block has.
    pub(crate) fn block(self) -> usize
        ensures { result ≡ block_by self }
    {
        match self {
            Algorithm::Sha1 | Algorithm::Sha224 | Algorithm::Sha256 => 64,
            Algorithm::Sha384 | Algorithm::Sha512 => 128,
        }
    }

    /// The digest of pieces, one behind the other.
    pub(crate) fn hash(
        self,
        alloc: Global,
        first: &[u8],
        second: &[u8],
        third: &[u8],
        fourth: &[u8],
    ) -> Result<Vec<u8>, AllocError>
        ensures { IfOk result (λ digest. digest.items
            ≡ hash_by self (((first.now ++ second.now) ++ third.now) ++ fourth.now)) }
    {
        match self {
            Algorithm::Sha1 => {
                Vec::from_slice(alloc, &digest!(Sha1, first, second, third, fourth))
            }
            Algorithm::Sha224 => {
                Vec::from_slice(alloc, &digest!(Sha224, first, second, third, fourth))
            }
            Algorithm::Sha256 => {
                Vec::from_slice(alloc, &digest!(Sha256, first, second, third, fourth))
            }
            Algorithm::Sha384 => {
                Vec::from_slice(alloc, &digest!(Sha384, first, second, third, fourth))
            }
            Algorithm::Sha512 => {
                Vec::from_slice(alloc, &digest!(Sha512, first, second, third, fourth))
            }
        }
    }
}
