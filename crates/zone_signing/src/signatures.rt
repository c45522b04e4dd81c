//! The signatures of record sets.
ghost use Rattle.std.specs.Prelude.{◌≡◌, ◌++◌, OnOk, OnErr, IsOkUnless, option_to_list};
ghost use Rattle.zone_signing.specs.Signatures.{signature, signatures};

use zone_proto::{DNSClass, ProtoError, RData, Record, RecordSet, Rrsigs, Signer};

/// The last second of the year 9999, in seconds since 1970: no signature is made past it.
pub const LAST_MOMENT: u64 = 253402300799;

/// Signs a set by each signer in order, at the moment `now`, in seconds since 1970 (RFC 4034 section 3); one that
/// declines is passed over, and signatures that the set has go. Its only error is `Memory`, of a signer too, which
/// leaves the set as it was.
pub fn sign_set<S: Signer>(set: &mut RecordSet, signers: &[S], now: u64) -> Result<(), ProtoError>
    ensures ok { OnOk result
        (set.new
        ≡ record set.old { signatures = signatures S.signature_of now signers.now set.old }) }
    ensures err { IsOkUnless result ProtoError.Memory }
    ensures same { OnErr result (set.new ≡ set.old) }
{
    let mut made = Rrsigs::with_capacity(set.name().alloc(), signers.len())?;
    add_signatures(&mut made, set, signers, now)?;
    set.replace_rrsigs(made);
    Ok(())
}

/// Puts the signatures of a set by each signer in order, at the moment `now`, in seconds since 1970 (RFC 4034 section
/// 3), behind those that were made; a signer that declines is passed over. Those that the set has are never signed. Its
/// only error is `Memory`, of a signer too.
pub(crate) fn add_signatures<S: Signer>(
    made: &mut Rrsigs,
    set: &RecordSet,
    signers: &[S],
    now: u64,
) -> Result<(), ProtoError>
    ensures ok { OnOk result
        (made.new ≡ made.old ++ signatures S.signature_of now signers.now set.now) }
    ensures err { IsOkUnless result ProtoError.Memory }
{
    for signer in signers {
        add_signature(made, set, signer, now)?;
    }
    Ok(())
}

/// Puts the signature of a set by one signer behind those that were made, unless the signer declines.
fn add_signature<S: Signer>(
    made: &mut Rrsigs,
    set: &RecordSet,
    signer: &S,
    now: u64,
) -> Result<(), ProtoError>
    ensures ok { OnOk result
        (made.new ≡ made.old ++ option_to_list (signature S.signature_of now set.now signer.now)) }
    ensures err { IsOkUnless result ProtoError.Memory }
{
    let Some(rrsig) = signer.sign(set, DNSClass::IN, now)? else {
        return Ok(());
    };
    let name = set.name().clone()?;
    made.push(Record::from_rdata(name, set.ttl(), RData::RRSIG(rrsig)))
}
