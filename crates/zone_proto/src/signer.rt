//! What signs record sets (RFC 4034 section 3).
ghost use Rattle.std.specs.Prelude.{◌≡◌, ℕ, Option, IfOk, IsOkUnless};
ghost use Rattle.zone_proto.specs.Signing.{SignedPart, signed_part};
ghost use Rattle.zone_proto.specs.declared.rdata.signing.DNSKEY.{DNSKEY};
ghost use Rattle.zone_proto.specs.declared.rdata.signing.RRSIG.{RRSIG};

use crate::dns_class::DNSClass;
use crate::error::ProtoError;
use crate::rdata::{DNSKEY, RRSIG};
use crate::record_set::RecordSet;

/// A signer of zones.
///
/// Its answers are functions: the key of the signer, and a signature of the signer, the set's owner, type, TTL and
/// records, the class and the moment. The signatures that are in a set are never signed. `Memory` may come at any call,
/// and says nothing of the answer.
pub trait Signer: Drop {
    // The key that the signer has.
    ghost key_of: { Self → Option DNSKEY };

    // The signature for the signed part of a set, a class and a moment.
    ghost signature_of: { Self → SignedPart → ℕ → ℕ → Option RRSIG };

    /// The key that the zone is to publish; none if the signer has none (RFC 4034 section 2). Its only error is
    /// `Memory`.
    fn dnskey(&self) -> Result<Option<DNSKEY>, ProtoError>
        ensures ok { IfOk result (λ k. k ≡ key_of self.now) }
        ensures err { IsOkUnless result ProtoError.Memory };

    /// The signature of the set's records for a class from the moment `inception` on, in seconds since 1970; none if
    /// the signer doesn't sign the set (RFC 4034 section 3). Its only error is `Memory`.
    fn sign(
        &self,
        set: &RecordSet,
        class: DNSClass,
        inception: u64,
    ) -> Result<Option<RRSIG>, ProtoError>
        ensures ok { IfOk result
            (λ r. r ≡ signature_of self.now (signed_part set.now) class.0 inception) }
        ensures err { IsOkUnless result ProtoError.Memory };
}
