// The owners of NSEC3 records, as digests tell them.
ghost use Rattle.std.specs.Prelude.{◌≡◌, IfOk, IsOkUnless};
ghost use Rattle.zone_proto.specs.HashedOwners.{hashed_owner};
ghost use Rattle.zone_proto.specs.Results.{IsCopy};

use crate::asked_name::AskedName;
use std::marker::Model;
use zone_proto::{LowerName, ProtoError, base32_dnssec};

/// The owner of the NSEC3 record with a digest: the text of the digest as one label before the apex (RFC 5155 section 3).
#[derive(Drop)]
pub(crate) struct HashedOwner<'z> {
    label: String,
    apex: &'z LowerName,
}

impl<'z> Model for HashedOwner<'z> {
    ghost use Rattle.std.specs.Prelude.{◌≡◌, List, ℕ, ◌∷◌, string_bytes};
    ghost use Rattle.zone_proto.specs.Names.{lower_label};

    ghost Value = { List (List ℕ) };

    ghost view = { λ o. string_bytes o.label ∷ o.apex.now };

    ghost invariant = { λ o. lower_label (string_bytes o.label) ≡ string_bytes o.label };
}

impl<'z> HashedOwner<'z> {
    /// The owner for a digest. Fails only for lack of memory.
    pub(crate) fn of(apex: &'z LowerName, digest: &[u8]) -> Result<HashedOwner<'z>, ProtoError>
        ensures ok { IfOk result (λ o. o ≡ hashed_owner apex.now digest.now) }
        ensures err { IsOkUnless result ProtoError.Memory }
    {
        let label = base32_dnssec(apex.alloc(), digest)?;
        Ok(HashedOwner { label, apex })
    }

    /// A copy. Fails only for lack of memory.
    pub(crate) fn clone(&self) -> Result<HashedOwner<'z>, ProtoError>
        ensures { IsCopy result self.now }
    {
        Ok(HashedOwner {
            label: self.label.clone()?,
            apex: self.apex,
        })
    }

    /// The name, to be compared with others.
    pub(crate) fn name(&self) -> AskedName<'_>
        ensures { result ≡ self.now }
    {
        AskedName::below(self.label.as_bytes(), self.apex.labels())
    }
}
