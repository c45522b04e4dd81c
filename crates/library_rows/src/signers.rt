//! The signers of rows.
ghost use Rattle.std.specs.Prelude.{◌≡◌};
ghost use Rattle.library_rows.specs.RowSigners.{signs_type};

use library_rows_arguments::{Calls, Manner};
use zone_proto::{DNSClass, DNSKEY, LowerName, ProtoError, RRSIG, RecordSet, Signer};
use zone_store::program::DemoSigner;

/// A signer of rows.
#[derive(Drop)]
pub struct RowSigner {
    pub demo: DemoSigner,
    pub manner: Manner,
    pub calls: Calls,
}

impl RowSigner {
    /// The signer of a number for the zone of an origin.
    pub fn new(number: u16, origin: &LowerName, manner: Manner) -> Result<RowSigner, ProtoError> {
        Ok(RowSigner {
            demo: DemoSigner::new(number, origin)?,
            manner,
            calls: Calls::new(calls_of(manner)),
        })
    }
}

/// How many calls of a signer of this manner find memory.
fn calls_of(manner: Manner) -> u64 {
    match manner {
        Manner::Whole(calls) => calls,
        _ => u64::MAX,
    }
}

impl Signer for RowSigner {
    ghost use Rattle.library_rows.specs.RowSigners.{key_by, signature_by};

    ghost key_of = { λ signer. key_by signer.manner signer.demo };

    ghost signature_of = { λ signer part _ now. signature_by signer.manner signer.demo part now };

    fn dnskey(&self) -> Result<Option<DNSKEY>, ProtoError> {
        self.calls.count()?;
        match self.manner {
            Manner::Keyless => Ok(None),
            _ => self.demo.dnskey(),
        }
    }

    fn sign(
        &self,
        set: &RecordSet,
        class: DNSClass,
        inception: u64,
    ) -> Result<Option<RRSIG>, ProtoError> {
        self.calls.count()?;
        if signs(self.manner, set) {
            self.demo.sign(set, class, inception)
        } else {
            Ok(None)
        }
    }
}

/// Whether a signer of this manner signs a set.
fn signs(manner: Manner, set: &RecordSet) -> bool
    ensures { result ≡ signs_type manner set.now.record_type }
{
    match manner {
        Manner::Whole(_) => true,
        Manner::Choosy => set.record_type().0 % 2 == 1,
        _ => false,
    }
}
