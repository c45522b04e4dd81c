//! What an unsigned zone hands in as its hash.
ghost use Rattle.std.specs.Prelude.{None};

use zone_proto::{LowerName, Nsec3Hash, ProtoError};

/// The hash of a zone without NSEC3 denials.
#[derive(Drop)]
pub struct NoHash;

impl Nsec3Hash for NoHash {
    ghost digest_of = { λ _ _ _ _ _. None };

    fn hash(
        &self,
        _algorithm: u8,
        _salt: &[u8],
        _name: &LowerName,
        _iterations: u16,
    ) -> Result<Vec<u8>, ProtoError> {
        Err(ProtoError::Hash)
    }
}
