//! The kinds of denial that a zone may have.
ghost use Rattle.zone_proto.specs.Results.{IsCopy};

use crate::error::ProtoError;
use crate::seq::Seq;

/// How a zone denies what it doesn't hold: by names (RFC 4034 section 4) or by hashed names (RFC 5155).
#[derive(PartialEq, Eq, Debug, Drop)]
pub enum NxProofKind {
    /// By NSEC records.
    Nsec,
    /// By NSEC3 records.
    Nsec3 {
        /// The hash algorithm's number; 1 is SHA-1.
        algorithm: u8,
        /// What is appended to each hashed text.
        salt: Seq<u8>,
        /// How many more times the hash is taken.
        iterations: u16,
        /// Unsigned delegations are left out.
        opt_out: bool,
    },
}

impl NxProofKind {
    /// A copy of this kind, identical in all parts. Its only error is `Memory`.
    pub fn clone(&self) -> Result<NxProofKind, ProtoError>
        ensures { IsCopy result self.now }
    {
        match self {
            NxProofKind::Nsec => Ok(NxProofKind::Nsec),
            NxProofKind::Nsec3 {
                algorithm,
                salt,
                iterations,
                opt_out,
            } => Ok(NxProofKind::Nsec3 {
                algorithm: *algorithm,
                salt: salt.clone()?,
                iterations: *iterations,
                opt_out: *opt_out,
            }),
        }
    }
}
