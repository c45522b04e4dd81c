// The closest encloser proof (RFC 5155 section 8.3).
ghost use Rattle.std.specs.Prelude.{◌≡◌, ◌&&◌, false, true, Some, option_map, IfOk, IfSome, IsOkUnless, MatchOption};
ghost use Rattle.std.specs.Option.{option_map_or, option_or};
ghost use Rattle.zone_proto.specs.Names.{base_name, wildcard_under};
ghost use Rattle.denial_validation.specs.Encloser.{next_closer};
ghost use Rattle.denial_validation.specs.Nsec3Responses.{owner_in, is_matched_in, is_encloser_in, is_covered_in, shown_here, proved_here, opted_out_here, answer_in};

use crate::hashed_owner::HashedOwner;
use crate::nsec3_response::Nsec3Response;
use crate::proof::Proof;
use zone_proto::{LowerName, Nsec3Hash, ProtoError};

/// The closest encloser of a name that the records show.
#[derive(Drop)]
pub(crate) struct ShownEncloser<'q> {
    /// The next closer name: the name one label longer than the encloser, which is the name or an ancestor of it.
    pub next_closer: LowerName,
    /// The hashed owner of the next closer name, if the hash has a digest of it.
    pub hashed: Option<HashedOwner<'q>>,
    /// Whether a record covers the next closer name.
    pub covered: bool,
    /// Whether a record matches the encloser that is of this zone, and of no name that hands on what is below it.
    pub in_zone: bool,
}

/// The walk from a name up to the closest encloser that the records show, or else to the apex.
#[derive(Drop)]
pub(crate) struct EncloserWalk<'q> {
    /// The encloser.
    pub shown: Option<ShownEncloser<'q>>,
    /// The wildcard answer by the parent of the last name on the walk, the encloser among them, that is below the apex and that
    /// a record covers.
    pub answer: Option<Proof>,
}

/// The closest encloser of a name that the records prove.
#[derive(Drop)]
pub(crate) struct ProvedEncloser {
    /// The wildcard at it.
    pub wildcard: LowerName,
    /// Whether the next closer name is covered by a record with the flag Opt-Out.
    pub opted_out: bool,
}

impl<'q, 'r, H: Nsec3Hash> Nsec3Response<'q, 'r, H> {
    /// The closest encloser of the name that the records prove, if they do. Fails only for lack of memory.
    pub(crate) fn proved_encloser(&self) -> Result<Option<ProvedEncloser>, ProtoError>
        ensures proved { IfOk result (λ proved. option_map (λ p. base_name p.wildcard) proved
            ≡ proved_here H.digest_of self.now) }
        ensures wildcard { IfOk result
            (λ proved. IfSome proved (λ p. p.wildcard ≡ wildcard_under (base_name p.wildcard))) }
        ensures opted_out { IfOk result (λ proved. option_map_or (λ p. p.opted_out) proved false
            ≡ opted_out_here H.digest_of self.now) }
        ensures err { IsOkUnless result ProtoError.Memory }
    {
        if self.is_matched(Some(self.own())) {
            return Ok(None);
        }
        let EncloserWalk { shown, answer: _ } = self.encloser_walk()?;
        match shown {
            Some(encloser) => self.proof_of(encloser),
            None => Ok(None),
        }
    }

    /// What the encloser that they show proves, if anything. Fails only for lack of memory.
    fn proof_of(&self, encloser: ShownEncloser<'_>) -> Result<Option<ProvedEncloser>, ProtoError>
        requires unmatched { is_matched_in H.digest_of self.now self.now.name ≡ false }
        requires shown { shown_here H.digest_of self.now ≡ Some (base_name encloser.next_closer) }
        requires closer { next_closer self.now.name (base_name encloser.next_closer)
            ≡ Some encloser.next_closer }
        requires hashed { encloser.hashed ≡ owner_in H.digest_of self.now encloser.next_closer }
        requires covered { encloser.covered
            ≡ is_covered_in H.digest_of self.now encloser.next_closer }
        requires in_zone { encloser.in_zone
            ≡ is_encloser_in H.digest_of self.now (base_name encloser.next_closer) }
        ensures proved { IfOk result (λ proved. option_map (λ p. base_name p.wildcard) proved
            ≡ proved_here H.digest_of self.now) }
        ensures wildcard { IfOk result
            (λ proved. IfSome proved (λ p. p.wildcard ≡ wildcard_under (base_name p.wildcard))) }
        ensures opted_out { IfOk result (λ proved. option_map_or (λ p. p.opted_out) proved false
            ≡ opted_out_here H.digest_of self.now) }
        ensures err { IsOkUnless result ProtoError.Memory }
    {
        if encloser.stands() {
            Ok(Some(self.standing(encloser)?))
        } else {
            Ok(None)
        }
    }

    /// What an encloser proves whose proof stands. Fails only for lack of memory.
    pub(crate) fn standing(&self, encloser: ShownEncloser<'_>) -> Result<ProvedEncloser, ProtoError>
        requires unmatched { is_matched_in H.digest_of self.now self.now.name ≡ false }
        requires shown { shown_here H.digest_of self.now ≡ Some (base_name encloser.next_closer) }
        requires closer { next_closer self.now.name (base_name encloser.next_closer)
            ≡ Some encloser.next_closer }
        requires hashed { encloser.hashed ≡ owner_in H.digest_of self.now encloser.next_closer }
        requires covered { is_covered_in H.digest_of self.now encloser.next_closer ≡ true }
        requires in_zone { is_encloser_in H.digest_of self.now (base_name encloser.next_closer)
            ≡ true }
        ensures proved { IfOk result (λ p. Some (base_name p.wildcard)
            ≡ proved_here H.digest_of self.now) }
        ensures encloser { IfOk result
            (λ p. base_name p.wildcard ≡ base_name encloser.entry.next_closer) }
        ensures wildcard { IfOk result (λ p. p.wildcard ≡ wildcard_under (base_name p.wildcard)) }
        ensures opted_out { IfOk result (λ p. p.opted_out
            ≡ opted_out_here H.digest_of self.now) }
        ensures err { IsOkUnless result ProtoError.Memory }
    {
        let opted_out = self.is_opted_out(encloser.hashed.as_ref())?;
        Ok(ProvedEncloser {
            wildcard: encloser.next_closer.into_wildcard(),
            opted_out,
        })
    }

    /// The walk from the name up: its ancestors are hashed from the longest on, each once, up to the first that a
    /// record matches, which is the encloser, or else up to the apex. Fails only for lack of memory.
    pub(crate) fn encloser_walk(&self) -> Result<EncloserWalk<'q>, ProtoError>
        ensures shown { IfOk result (λ walk. option_map (λ e. base_name e.next_closer) walk.shown
            ≡ shown_here H.digest_of self.now) }
        ensures closer { IfOk result (λ walk. IfSome walk.shown (λ e.
            next_closer self.now.name (base_name e.next_closer) ≡ Some e.next_closer)) }
        ensures hashed { IfOk result (λ walk. IfSome walk.shown (λ e.
            e.hashed ≡ owner_in H.digest_of self.now e.next_closer)) }
        ensures covered { IfOk result (λ walk. IfSome walk.shown (λ e.
            e.covered ≡ is_covered_in H.digest_of self.now e.next_closer)) }
        ensures in_zone { IfOk result (λ walk. IfSome walk.shown (λ e. e.in_zone ≡
            is_encloser_in H.digest_of self.now (base_name e.next_closer))) }
        ensures answer { IfOk result (λ walk. MatchOption walk.shown
            (walk.answer ≡ answer_in H.digest_of self.now self.now.name)
            (λ e. option_or (answer_in H.digest_of self.now (base_name (base_name e.next_closer)))
            walk.answer ≡ answer_in H.digest_of self.now self.now.name)) }
        ensures err { IsOkUnless result ProtoError.Memory }
    {
        let mut next_closer = self.name().clone()?;
        let mut above = self.name().base_name()?;
        let mut hashed = Some(self.own().clone()?);
        let mut answer = None;
        while self.is_below_apex(&next_closer) {
            let covered = self.is_covered(hashed.as_ref())?;
            answer = self.nearest_answer(covered, hashed.as_ref(), &above, answer)?;
            let owner = self.owner_of(&above)?;
            if self.is_matched(owner.as_ref()) {
                let in_zone = self.is_encloser(owner.as_ref());
                let answer = self.answer_with(&above, owner.as_ref(), answer)?;
                let shown = Some(ShownEncloser {
                    next_closer,
                    hashed,
                    covered,
                    in_zone,
                });
                return Ok(EncloserWalk { shown, answer });
            }
            hashed = owner;
            next_closer.shorten();
            above.shorten();
        }
        Ok(EncloserWalk {
            shown: None,
            answer,
        })
    }
}

impl ShownEncloser<'_> {
    /// Whether it proves that the name doesn't exist.
    pub(crate) fn stands(&self) -> bool
        ensures { result ≡ (self.now.in_zone && self.now.covered) }
    {
        self.in_zone && self.covered
    }
}
