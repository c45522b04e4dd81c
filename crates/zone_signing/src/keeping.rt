//! The record sets of a zone as they are once it is secured, where its denials stay as they are.
ghost use Rattle.std.specs.Prelude.{◌≡◌, IsTrue, OnOk, OnErr, IsOkUnless};
ghost use Rattle.zone_proto.specs.Types.{SOA};
ghost use Rattle.zone_map.specs.Upserts.{is_denial_type};
ghost use Rattle.zone_map.specs.Zones.{IsZone};
ghost use Rattle.zone_signing.specs.Secured.{kept_at, IsSecured};

use crate::securing::sign_all;
use zone_map::RecordMap;
use zone_proto::{ProtoError, RecordType, RrKey, Signer};

/// Secures the record sets of a zone whose SOA is under `apex`, at the moment `now`, in seconds since 1970, and whose
/// denials are already those that it gets.
///
/// The sets of the type `denials`, NSEC or NSEC3, get the serial `serial`, the SOA gets the next serial, modulo 2^32,
/// and each set is signed by each signer in order; one that declines is passed over. All else is as before: no set is
/// made or copied. Fails only for lack of memory, a signer's too, which leaves the zone as it was.
pub fn secure_kept<S: Signer>(
    zone: &mut RecordMap,
    denials: RecordType,
    serial: u32,
    apex: &RrKey,
    signers: &[S],
    now: u64,
) -> Result<(), ProtoError>
    requires apex { apex.now.record_type.0 ≡ SOA }
    requires denials { IsTrue (is_denial_type denials.0) }
    ensures ok { OnOk result
        (IsSecured S.signature_of now apex.now.name signers.now (kept_at denials.0 serial zone.old)
        zone.new) }
    ensures zone { OnOk result (IsZone zone.new) }
    ensures err { IsOkUnless result ProtoError.Memory }
    ensures same { OnErr result (zone.new ≡ zone.old) }
{
    sign_all(zone, apex, signers, now)?;
    // A signature isn't made of the serial of its set, so that this comes last, where nothing is refused any more.
    zone.set_serials(denials, serial);
    Ok(())
}
