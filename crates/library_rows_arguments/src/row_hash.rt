//! The hash of rows.

use crate::calls::Calls;
use std::alloc::{AllocError, Global};
use std::collections::BTreeMap;
use zone_proto::{LowerName, Nsec3Hash, ProtoError};

/// A hash that has the digests of a table, whatever the algorithm, the salt and the iterations are, and no others. It counts
/// how often it is called.
#[derive(Drop)]
pub struct RowHash {
    digests: BTreeMap<LowerName, Vec<u8>>,
    pub calls: Calls,
}

impl RowHash {
    /// The hash without digests.
    pub fn new(alloc: Global) -> RowHash {
        RowHash {
            digests: BTreeMap::new(alloc),
            calls: Calls::new(u64::MAX),
        }
    }

    /// Adds the digest of a name.
    pub fn add(&mut self, name: LowerName, digest: Vec<u8>) -> Result<(), AllocError> {
        match self.digests.insert(name, digest) {
            Ok(_) => Ok(()),
            Err(_) => Err(AllocError),
        }
    }
}

impl Nsec3Hash for RowHash {
    ghost use Rattle.std.specs.Prelude.{option_map};
    ghost use Rattle.std.specs.Map.{lookup};
    ghost use Rattle.std.specs.Ordering.{eq_by_cmp};
    ghost use Rattle.zone_proto.specs.Names.{name_cmp};

    ghost digest_of = { λ hash _ _ name _.
        option_map (λ digest. digest.items)
        (lookup (eq_by_cmp name_cmp name) hash.digests.entries) };

    fn hash(
        &self,
        _algorithm: u8,
        _salt: &[u8],
        name: &LowerName,
        _iterations: u16,
    ) -> Result<Vec<u8>, ProtoError> {
        self.calls.count()?;
        match self.digests.get(name) {
            Some(digest) => Ok(Vec::from_slice(name.alloc(), digest.as_slice())?),
            None => Err(ProtoError::Hash),
        }
    }
}
