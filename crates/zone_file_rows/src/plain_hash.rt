//! A hash of names for NSEC3 records, by which owners can be written without a program.
ghost use Rattle.std.specs.Prelude.{◌==◌, cond, take, Some, None};
ghost use Rattle.zone_proto.specs.Names.{wire_form};

use zone_proto::{LowerName, Nsec3Hash, ProtoError};

/// The algorithm by which the digest of a name is its wire form (RFC 1035 section 3.1), as by all but the two others.
pub const WHOLE: u8 = 9;

/// The algorithm by which it is the first octet of that, the length of the first label.
pub const FIRST_OCTET: u8 = 8;

/// The algorithm by which no name has one.
pub const UNKNOWN: u8 = 0;

/// Its digests are octets of the names themselves.
#[derive(Drop)]
pub struct PlainHash;

impl Nsec3Hash for PlainHash {
    ghost digest_of = { λ _ algorithm salt name iterations.
        cond (algorithm == 0) None
        (cond (algorithm == 8) (Some (take 1 (wire_form name))) (Some (wire_form name))) };

    fn hash(
        &self,
        algorithm: u8,
        _salt: &[u8],
        name: &LowerName,
        _iterations: u16,
    ) -> Result<Vec<u8>, ProtoError> {
        if algorithm == UNKNOWN {
            return Err(ProtoError::Hash);
        }
        let mut octets = name.wire_lower()?;
        if algorithm == FIRST_OCTET {
            octets.truncate(1);
        }
        Ok(octets)
    }
}
