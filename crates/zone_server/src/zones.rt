//! Which of several zones answers a query (RFC 1034 section 4.3.2 step 2).
ghost use Rattle.std.specs.Prelude.{false, List, IfOk, option_map};
ghost use Rattle.zone_response.specs.Queries.{zone_of, Zone};
ghost use Rattle.zone_server.specs.ServedZones.{may_answer_for, IsAnswering, IsNearestIfAny, IsParentsZone};

use std::alloc::AllocError;
use zone_proto::{LowerName, Nsec3Hash, RecordType, Signer};
use zone_response::{Question, ServedZone};

/// The zones that a server answers from.
pub trait ServedZones {
    /// What signs the sets that are made for a response.
    type Signer: Signer;

    /// What names are hashed by.
    type Hash: Nsec3Hash;

    // The zones, in an order in which of two of one origin the first is asked.
    ghost zones: { Self → List Zone };

    /// The zone of the longest origin that is a name or is above it. Fails only for lack of memory.
    fn nearest(
        &self,
        name: &LowerName,
    ) -> Result<Option<ServedZone<'_, Self::Signer, Self::Hash>>, AllocError>
        ensures { IfOk result (λ zone. IsNearestIfAny (may_answer_for false name.now)
            (zones self.now)
            (option_map (zone_of Self.Signer.signature_of Self.Hash.digest_of) zone)) };
}

/// The zone that answers a question: that of the longest origin at or above the name; for DS the longest above it, if
/// there is one, since the parent answers (RFC 4035 section 3.1.4.1). Fails only for lack of memory.
pub(crate) fn zone_for<'s, Z: ServedZones>(
    zones: &'s Z,
    question: Question<'_>,
) -> Result<Option<ServedZone<'s, Z::Signer, Z::Hash>>, AllocError>
    ensures { IfOk result (λ zone. IsAnswering (Z.zones zones.now)
        question.entry.name.now question.entry.query_type.0
        (option_map (zone_of Z.Signer.signature_of Z.Hash.digest_of) zone)) }
{
    match parents_zone(zones, question)? {
        Some(zone) => Ok(Some(zone)),
        None => zones.nearest(question.name),
    }
}

/// The zone above the name of a question for DS, if there is one. Fails only for lack of memory.
fn parents_zone<'s, Z: ServedZones>(
    zones: &'s Z,
    question: Question<'_>,
) -> Result<Option<ServedZone<'s, Z::Signer, Z::Hash>>, AllocError>
    ensures { IfOk result (λ zone. IsParentsZone (Z.zones zones.now)
        question.entry.name.now question.entry.query_type.0
        (option_map (zone_of Z.Signer.signature_of Z.Hash.digest_of) zone)) }
{
    if question.query_type != RecordType::DS || question.name.is_root() {
        return Ok(None);
    }
    match question.name.base_name() {
        Ok(parent) => zones.nearest(&parent),
        Err(_) => Err(AllocError),
    }
}
