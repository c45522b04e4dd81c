// Answers that were made from a wildcard (RFC 5155 section 8.8).
ghost use Rattle.std.specs.Prelude.{◌≡◌, ◌<◌, ◌-◌, suc, false, length, drop, option_copied, IfOk, IsOkUnless};
ghost use Rattle.std.specs.Option.{option_map_or, option_or};
ghost use Rattle.zone_proto.specs.Names.{base_name};
ghost use Rattle.zone_proto.specs.Results.{IsCopy};
ghost use Rattle.denial_validation.specs.Encloser.{ancestor_of};
ghost use Rattle.denial_validation.specs.Nsec3Proofs.{proves_wildcard_answer};
ghost use Rattle.denial_validation.specs.Nsec3Responses.{hash_of, owner_in, is_covered_in, answer_in, nearest_answer};

use crate::hashed_owner::HashedOwner;
use crate::nsec3_response::Nsec3Response;
use crate::proof::Proof;
use zone_proto::{LowerName, Nsec3Hash, ProtoError};

impl<'q, 'r, H: Nsec3Hash> Nsec3Response<'q, 'r, H> {
    /// Whether the records prove an answer that was made from the wildcard at the name's ancestor with so many labels.
    /// Fails only for lack of memory.
    pub(crate) fn proves_wildcard_answer(&self, encloser_labels: usize) -> Result<bool, ProtoError>
        ensures ok { IfOk result (λ proved. proved
            ≡ option_map_or (proves_wildcard_answer self.now.apex (hash_of H.digest_of self.now)
            self.now.records self.now.name) (ancestor_of self.now.name encloser_labels) false) }
        ensures err { IsOkUnless result ProtoError.Memory }
    {
        let count = self.name().num_labels();
        if count <= encloser_labels {
            return Ok(false);
        }
        let closer = next_closer(self.name(), encloser_labels)?;
        if self.is_below_apex(&closer) {
            self.covers(&closer)
        } else {
            Ok(false)
        }
    }

    /// The wildcard answer that they may prove of the name. Fails only for lack of memory.
    pub(crate) fn wildcard_answer(&self) -> Result<Option<Proof>, ProtoError>
        ensures ok { IfOk result (λ proof. proof ≡ answer_in H.digest_of self.now self.now.name) }
        ensures err { IsOkUnless result ProtoError.Memory }
    {
        let answer = self.answer_with(self.name(), Some(self.own()), None)?;
        self.wildcard_answer_above(self.name().base_name()?, answer)
    }

    /// The wildcard answer that they may prove of an ancestor, or else the one by an encloser below it. Fails only for
    /// lack of memory.
    pub(crate) fn wildcard_answer_above(
        &self,
        ancestor: LowerName,
        below: Option<Proof>,
    ) -> Result<Option<Proof>, ProtoError>
        ensures ok { IfOk result (λ proof. proof
            ≡ option_or (answer_in H.digest_of self.now ancestor) below) }
        ensures err { IsOkUnless result ProtoError.Memory }
    {
        let mut answer = below;
        let mut rest = ancestor;
        while self.is_below_apex(&rest) {
            let hashed = self.owner_of(&rest)?;
            let covered = self.is_covered(hashed.as_ref())?;
            rest.shorten();
            answer = self.nearest_answer(covered, hashed.as_ref(), &rest, answer)?;
        }
        Ok(answer)
    }

    /// The wildcard answer by the parent of a name, where the name is below the apex and a record covers it; else the
    /// one by an encloser below. It is told the hashed owner of the name. Fails only for lack of memory.
    pub(crate) fn answer_with(
        &self,
        name: &LowerName,
        hashed: Option<&HashedOwner<'_>>,
        below: Option<Proof>,
    ) -> Result<Option<Proof>, ProtoError>
        requires { option_copied hashed ≡ owner_in H.digest_of self.now name.now }
        ensures ok { IfOk result (λ answer.
            option_or (answer_in H.digest_of self.now (base_name name.now)) answer
            ≡ option_or (answer_in H.digest_of self.now name.now) below) }
        ensures err { IsOkUnless result ProtoError.Memory }
    {
        if !self.is_below_apex(name) {
            return Ok(below);
        }
        if !self.is_covered(hashed)? {
            return Ok(below);
        }
        let opted_out = self.is_opted_out(hashed)?;
        Ok(Some(Proof::WildcardAnswer {
            encloser_labels: name.num_labels() - 1,
            opted_out,
        }))
    }

    /// The wildcard answer by an encloser, where the name under it, which has this hashed owner, is covered; else the
    /// one by an encloser below. Fails only for lack of memory.
    pub(crate) fn nearest_answer(
        &self,
        covered: bool,
        hashed: Option<&HashedOwner<'_>>,
        encloser: &LowerName,
        below: Option<Proof>,
    ) -> Result<Option<Proof>, ProtoError>
        ensures ok { IfOk result (λ answer. answer
            ≡ nearest_answer self.now covered (option_copied hashed.entry) encloser.now below) }
        ensures err { IsOkUnless result ProtoError.Memory }
    {
        if covered {
            let opted_out = self.is_opted_out(hashed)?;
            Ok(Some(Proof::WildcardAnswer {
                encloser_labels: encloser.num_labels(),
                opted_out,
            }))
        } else {
            Ok(below)
        }
    }

    /// Whether a record covers a name. Fails only for lack of memory.
    fn covers(&self, name: &LowerName) -> Result<bool, ProtoError>
        ensures ok { IfOk result
            (λ covered. covered ≡ is_covered_in H.digest_of self.now name.now) }
        ensures err { IsOkUnless result ProtoError.Memory }
    {
        let hashed = self.owner_of(name)?;
        self.is_covered(hashed.as_ref())
    }
}

/// The ancestor of a name, or the name, that is one label longer than the ancestor with so many labels. Fails only for
/// lack of memory.
fn next_closer(name: &LowerName, encloser_labels: usize) -> Result<LowerName, ProtoError>
    requires { encloser_labels < length name.now }
    ensures { IsCopy result (drop (length name.now - suc encloser_labels) name.now) }
{
    let mut closer = name.clone()?;
    for _ in 0..name.num_labels() - encloser_labels - 1 {
        closer.shorten();
    }
    Ok(closer)
}
