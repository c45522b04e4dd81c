//! What a zone can be told about its signing.
ghost use Rattle.std.specs.Prelude.{ℕ, Result};
ghost use Rattle.zone_handler.specs.declared.key_error.KeyError.{KeyError};
ghost use Rattle.lookup_types.specs.declared.secure_error.SecureError.{SecureError};

use crate::handler::ZoneHandler;
use crate::key_error::KeyError;
use lookup_types::SecureError;

/// A zone that signers of type `S` sign (DNSSEC, RFC 4035 section 2).
pub trait DnssecZoneHandler<S>: ZoneHandler {
    // The handler before, the signer that is added, the answer, and the handler after.
    ghost adds_key: { Self → S → Result Unit KeyError → Self → Type 0 };

    // The handler before, the moment, the answer, and the handler after.
    ghost secures: { Self → ℕ → Result Unit SecureError → Self → Type 0 };

    /// Adds a signer, and publishes its key in the zone as a DNSKEY record (RFC 4034 section 2). Refused by `NoKey` for a
    /// signer that has no key, and by `Memory`; both leave the zone as it was.
    fn add_zone_signing_key(&mut self, signer: S) -> Result<(), KeyError>
        ensures { adds_key self.old «signer» result self.new };

    /// Signs the zone anew at the moment `now`, in seconds since 1970, once its serial was stepped (RFC 4035 section 2.2).
    /// Refused by the first cause of [`SecureError`] that there is, and by `Memory`, of a signer too; a refusal leaves the
    /// zone as it was.
    fn secure_zone(&mut self, now: u64) -> Result<(), SecureError>
        ensures { secures self.old now result self.new };
}
