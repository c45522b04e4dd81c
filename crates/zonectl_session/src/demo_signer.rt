//! The signer of the demonstrations.
ghost use Rattle.std.specs.Prelude.{Some, ◌≡◌, IfOk, IsOkUnless};
ghost use Rattle.zonectl_session.specs.DemoSigners.{octets_of, demo_key, demo_signature, signed_labels};

use std::marker::Model;
use zone_proto::{DNSClass, DNSKEY, LowerName, Name, ProtoError, RRSIG, RecordSet, Seq, Signer};

/// The algorithm's number, which is for private use (RFC 4034 appendix A.1.1).
const ALGORITHM: u8 = 253;

/// For how many seconds a signature holds: a day.
const VALIDITY: u32 = 86_400;

/// The signer of the program's demonstrations, which is no cryptography: the two octets of its number stand for its key and
/// for each of its signatures.
#[derive(Drop)]
pub struct DemoSigner {
    number: u16,
    origin: LowerName,
}

impl Model for DemoSigner {
    ghost use Rattle.zonectl_session.specs.DemoSigners.{Demo};

    ghost Value = { Demo };

    ghost view = { λ signer. record { number = signer.number; origin = signer.origin } };
}

impl DemoSigner {
    /// The demonstration signer of this number for the zone of this origin, whose name it copies together with
    /// the allocator that the name was made with. `Memory` where that copy is refused.
    pub fn new(number: u16, origin: &LowerName) -> Result<DemoSigner, ProtoError>
        ensures made { IfOk result
            (λ signer. signer ≡ record { number = number; origin = origin.now }) }
        ensures err { IsOkUnless result ProtoError.Memory }
    {
        Ok(DemoSigner {
            number,
            origin: origin.clone()?,
        })
    }

    /// The two octets of the number, the high one first.
    fn octets(&self) -> Result<Seq<u8>, ProtoError>
        ensures ok { IfOk result (λ octets. octets ≡ octets_of self.now) }
        ensures err { IsOkUnless result ProtoError.Memory }
    {
        let octets = [(self.number / 256) as u8, (self.number % 256) as u8];
        Seq::from_slice(self.origin.alloc(), &octets)
    }
}

impl Signer for DemoSigner {
    ghost key_of = { λ signer. Some (demo_key signer) };

    ghost signature_of = { λ signer part _ now. Some (demo_signature signer part now) };

    fn dnskey(&self) -> Result<Option<DNSKEY>, ProtoError> {
        Ok(Some(DNSKEY {
            flags: 256,
            protocol: 3,
            algorithm: ALGORITHM,
            public_key: self.octets()?,
        }))
    }

    fn sign(
        &self,
        set: &RecordSet,
        _class: DNSClass,
        inception: u64,
    ) -> Result<Option<RRSIG>, ProtoError> {
        let inception = (inception % (1 << 32)) as u32;
        Ok(Some(RRSIG {
            type_covered: set.record_type(),
            algorithm: ALGORITHM,
            num_labels: signed_labels(set.name()),
            original_ttl: set.ttl(),
            expiration: inception.wrapping_add(VALIDITY),
            inception,
            key_tag: self.number,
            signer_name: Name::from(self.origin.clone()?),
            signature: self.octets()?,
        }))
    }
}

/// How many labels an owner has, without the root and a leading `*` (RFC 4034 section 3.1.3).
#[tactic(auto, using(crate::proofs::DemoSigning::labels_fit))]
fn signed_labels(owner: &Name) -> u8
    ensures { result ≡ signed_labels owner.now }
{
    let asterisks = if owner.is_wildcard() { 1 } else { 0 };
    owner.num_labels().saturating_sub(asterisks) as u8
}
