//! The signer of zones that nobody signs here.
ghost use Rattle.std.specs.Prelude.{None};

use zone_proto::{DNSClass, DNSKEY, ProtoError, RRSIG, RecordSet, Signer};

/// Signs nothing: a zone file has its signatures, or it has none.
#[derive(Drop)]
pub struct NoSigner;

impl Signer for NoSigner {
    ghost key_of = { λ _. None };

    ghost signature_of = { λ _ _ _ _. None };

    fn dnskey(&self) -> Result<Option<DNSKEY>, ProtoError> {
        Ok(None)
    }

    fn sign(
        &self,
        _set: &RecordSet,
        _class: DNSClass,
        _inception: u64,
    ) -> Result<Option<RRSIG>, ProtoError> {
        Ok(None)
    }
}
