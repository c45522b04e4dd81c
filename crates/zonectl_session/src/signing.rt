//! The commands that sign the zone.
ghost use Rattle.std.specs.Prelude.{◌≡◌, IfOk, OnOk, IsOkUnless};
ghost use Rattle.zone_proto.specs.Names.{lower};
ghost use Rattle.zonectl_session.specs.Replies.{secure_word};
ghost use Rattle.zonectl_session.specs.Steps.{signer_of, IsKeyed, IsRenewed, IsSecuredAt, AddsTo};

use crate::demo_signer::DemoSigner;
use crate::session::{Served, empty_zone};
use std::alloc::AllocError;
use zone_handler::{DnssecZoneHandler, KeyError, SecureError, ZoneHandler};
use zone_proto::{Name, NxProofKind, ProtoError};

/// Makes the zone anew, without records and signers, and of this kind. The moment of the last `secure` stays.
pub fn renew(
    served: &mut Served,
    nx_proof_kind: Option<NxProofKind>,
    answer: &mut String,
) -> Result<(), AllocError>
    ensures { OnOk result
        (AddsTo (λ reply. IsRenewed served.old nx_proof_kind reply served.new)
        answer.old answer.new) }
{
    match origin_of(served) {
        Ok(origin) => {
            served.zone = empty_zone(origin, nx_proof_kind);
            answer.push_str("ok\n")
        }
        Err(_) => answer.push_str("error Memory\n"),
    }
}

/// A copy of the zone's origin.
fn origin_of(served: &Served) -> Result<Name, ProtoError>
    ensures ok { IfOk result
        (λ origin. (origin ≡ served.now.zone.origin) × (lower origin ≡ origin)) }
    ensures err { IsOkUnless result ProtoError.Memory }
{
    Ok(Name::from(served.zone.origin().clone()?))
}

/// Adds the demonstration signer of a number.
pub fn add_key(served: &mut Served, number: u16, answer: &mut String) -> Result<(), AllocError>
    ensures { OnOk result
        (AddsTo (λ reply. IsKeyed served.old number reply served.new) answer.old answer.new) }
{
    let Ok(signer) = signer_for(served, number) else {
        return answer.push_str("refused Memory\n");
    };
    match served.zone.add_zone_signing_key(signer) {
        Ok(()) => answer.push_str("ok\n"),
        Err(KeyError::NoKey) => answer.push_str("refused NoKey\n"),
        Err(KeyError::Memory) => answer.push_str("refused Memory\n"),
    }
}

/// The demonstration signer of a number for the zone.
fn signer_for(served: &Served, number: u16) -> Result<DemoSigner, ProtoError>
    ensures made { IfOk result (λ signer. signer ≡ signer_of served.now.zone number) }
    ensures err { IsOkUnless result ProtoError.Memory }
{
    DemoSigner::new(number, served.zone.origin())
}

/// Secures the zone, and tells the serial that it has then.
pub fn secure(served: &mut Served, now: u64, answer: &mut String) -> Result<(), AllocError>
    ensures { OnOk result
        (AddsTo (λ reply. IsSecuredAt served.old now reply served.new) answer.old answer.new) }
{
    match served.zone.secure_zone(now) {
        Ok(()) => {
            served.moment = now;
            writeln!(answer, "ok {}", served.zone.serial())
        }
        Err(error) => writeln!(answer, "refused {}", word_of(error)),
    }
}

/// The word for a refusal: the name of its case.
fn word_of(error: SecureError) -> &'static str
    ensures { result.now ≡ secure_word error }
{
    match error {
        SecureError::TimeOutOfRange => "TimeOutOfRange",
        SecureError::CnameAtOrigin => "CnameAtOrigin",
        SecureError::Hash => "Hash",
        SecureError::OwnerTooLong => "OwnerTooLong",
        SecureError::Memory => "Memory",
    }
}
