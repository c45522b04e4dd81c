// Names below a zone cut or a DNAME, as NSEC3 records show them (RFC 6840 section 4.1).
ghost use Rattle.std.specs.Prelude.{◌≡◌, IfOk, IsOkUnless};
ghost use Rattle.denial_validation.specs.Nsec3Responses.{is_handed_on_here};

use crate::nsec3_response::Nsec3Response;
use zone_proto::{Nsec3Hash, ProtoError};

impl<'q, 'r, H: Nsec3Hash> Nsec3Response<'q, 'r, H> {
    /// Whether the records show that the name is below a zone cut or a DNAME. Only where one of them is of such a name
    /// are the ancestors hashed, up to the apex. Fails only for lack of memory.
    pub(crate) fn is_handed_on(&self) -> Result<bool, ProtoError>
        ensures ok { IfOk result (λ below. below ≡ is_handed_on_here H.digest_of self.now) }
        ensures err { IsOkUnless result ProtoError.Memory }
    {
        if !self.has_referral() {
            return Ok(false);
        }
        let mut rest = self.name().clone()?;
        while self.is_below_apex(&rest) {
            rest.shorten();
            let hashed = self.owner_of(&rest)?;
            if self.is_handing_on(hashed.as_ref()) {
                return Ok(true);
            }
        }
        Ok(false)
    }
}
