//! Messages of a response signed, one after the other.
ghost use Rattle.std.specs.Prelude.{◌≡◌, IfOk, OnErr, OnOk};
ghost use Rattle.message_tsig.specs.Signing.{behind_signed, of_request, signed_message};
ghost use Rattle.transfer_messages.specs.Seals.{goes_out, goes_out_whole, sealing_behind, sealing_behind_whole, signed_behind, signed_by, signer_of, IsSameKey};

use message_tsig::{Key, KeyZones, ResponseSigner, Secret, Tsig, tsig_size};
use std::alloc::{AllocError, Global};
use zone_proto::ProtoError;

/// How the messages of a response are signed.
#[derive(Drop)]
pub struct Sealing {
    /// The key of the request, without the zones that may be had under it.
    pub key: Key,
    /// How far the response is signed.
    pub signer: ResponseSigner,
}

impl Sealing {
    /// How the response is signed to a request that was found signed under a key, with this TSIG. The key is copied. Fails only for lack of
    /// memory.
    pub fn new(alloc: Global, request: &Tsig, key: &Key) -> Result<Sealing, ProtoError>
        ensures key { IfOk result (λ s. IsSameKey key.now s.key) }
        ensures signer { IfOk result (λ s. s.signer ≡ signer_of request.now) }
    {
        let key = copy_key(alloc, key)?;
        let signer = ResponseSigner::new(alloc, request)?;
        Ok(Sealing { key, signer })
    }

    /// Signs the next message within a limit.
    fn sign(
        &mut self,
        alloc: Global,
        now: u64,
        limit: usize,
        message: &mut Vec<u8>,
    ) -> Result<(), AllocError>
        ensures signed { OnOk result
            (message.new.items ≡ signed_by self.old now limit message.old.items) }
        ensures next { OnOk result (self.new ≡ signed_behind self.old now limit message.old.items) }
        ensures same { OnErr result (self.new ≡ self.old) }
    {
        match self
            .signer
            .sign(alloc, &self.key, now, limit, message.as_slice())
        {
            Ok(text) => {
                *message = text;
                Ok(())
            }
            Err(_) => Err(AllocError),
        }
    }

    /// Signs the next message, whole.
    #[tactic(auto, using(crate::proofs::Fits::fits))]
    fn sign_whole(
        &mut self,
        alloc: Global,
        now: u64,
        message: &mut Vec<u8>,
    ) -> Result<(), AllocError>
        ensures signed { OnOk result (message.new.items
            ≡ signed_message self.old.key now self.old.signer message.old.items) }
        ensures next { OnOk result (self.new ≡ record self.old {
          signer = behind_signed self.old.key now self.old.signer message.old.items;
        }) }
        ensures same { OnErr result (self.new ≡ self.old) }
    {
        let limit = message.as_slice().len() + tsig_size(&self.key);
        self.sign(alloc, now, limit, message)
    }
}

/// Signs the next message of a response within a limit of 512 octets at least, at a moment in seconds since 1970: where there is no room for
/// the TSIG, the questions alone with TC, or the header with TC (RFC 8945 section 5.3). The message stays as it is where the response isn't
/// signed. Fails only for lack of memory; then the response is signed as far as before.
pub fn seal(
    alloc: Global,
    sealing: &mut Option<Sealing>,
    now: u64,
    limit: usize,
    message: &mut Vec<u8>,
) -> Result<(), AllocError>
    ensures sealed { OnOk result
        (message.new.items ≡ goes_out sealing.old now limit message.old.items) }
    ensures next { OnOk result
        (sealing.new ≡ sealing_behind sealing.old now limit message.old.items) }
    ensures same { OnErr result (sealing.new ≡ sealing.old) }
{
    match sealing {
        Some(sealing) => sealing.sign(alloc, now, limit, message),
        None => Ok(()),
    }
}

/// The same of a message of a transfer, which is never cut: it has left room for the TSIG.
pub(crate) fn seal_whole(
    alloc: Global,
    sealing: &mut Option<Sealing>,
    now: u64,
    message: &mut Vec<u8>,
) -> Result<(), AllocError>
    ensures sealed { OnOk result
        (message.new.items ≡ goes_out_whole sealing.old now message.old.items) }
    ensures next { OnOk result
        (sealing.new ≡ sealing_behind_whole sealing.old now message.old.items) }
    ensures same { OnErr result (sealing.new ≡ sealing.old) }
{
    match sealing {
        Some(sealing) => sealing.sign_whole(alloc, now, message),
        None => Ok(()),
    }
}

/// A key under which the same is signed, and no zone may be had.
fn copy_key(alloc: Global, key: &Key) -> Result<Key, ProtoError>
    ensures { IfOk result (IsSameKey key.now) }
{
    let name = key.name.clone()?;
    let secret = Vec::from_slice(alloc, key.secret.as_slice())?;
    Ok(Key {
        name,
        algorithm: key.algorithm,
        secret: Secret::new(secret),
        zones: KeyZones::Only(Vec::new(alloc)),
    })
}
