//! The hash of owner names that NSEC3 uses (RFC 5155 section 5).
ghost use Rattle.std.specs.Prelude.{◌≡◌, ℕ, List, Option, Some, None, ◌⊎◌, IfOk, IfErr};

use crate::error::ProtoError;
use crate::lower_name::LowerName;

/// The hash of names for NSEC3 records (RFC 5155 section 5).
///
/// Its answer is a function: the hash, the algorithm, the salt, the name and the iterations determine a digest or none.
pub trait Nsec3Hash: Drop {
    // The digest for an algorithm, a salt, a name and a count of iterations, or none.
    ghost digest_of: { Self → ℕ → List ℕ → List (List ℕ) → ℕ → Option (List ℕ) };

    /// The digest of `name`, by `algorithm` (1 is SHA-1), with `salt` and with `iterations` further rounds.
    ///
    /// The refusal `Hash` comes only where there is no digest; `Memory` may come at any call, and says nothing of the digest.
    fn hash(
        &self,
        algorithm: u8,
        salt: &[u8],
        name: &LowerName,
        iterations: u16,
    ) -> Result<Vec<u8>, ProtoError>
        ensures ok { IfOk result
            (λ d. digest_of self.now algorithm salt.now name.now iterations ≡ Some d.items) }
        ensures err { IfErr result
            (λ e. (e ≡ ProtoError.Memory)
            ⊎ ((e ≡ ProtoError.Hash)
            × (digest_of self.now algorithm salt.now name.now iterations ≡ None))) };
}
