//! Laws of what a validator makes of the denials of a zone. Each is an empty function whose contract is the law, so a program has
//! no need to call one.
//!
//! They lay two things side by side that know nothing of each other: the judgement of `denial_validation`, which is told by records
//! alone, and what a zone answers. They are of names of a zone whose NSEC sets are a circle that the origin is on, as they are once
//! it is secured, and that has no NSEC3 sets; and of those names that nothing refers elsewhere, neither a zone cut or a DNAME above
//! them nor an origin, or a name above it, with NS and no SOA (`IsInScope`).
//! Signatures are taken as verified.
ghost use Rattle.denial_laws.specs.Acceptance.{NameErrorAccepted, WildcardErrorAccepted, NoDataAccepted, EmptyAccepted, WildcardNoDataAccepted, WildcardAnswerAccepted, UnsignedDelegationAccepted, DenialAccepted};
ghost use Rattle.denial_laws.specs.Chains.{ChainDenialAccepted, ChainWildcardErrorAccepted, ChainEmptyAccepted, ChainRecordsSound, ChainUnsignedDelegationSound, ChainNothingBelowCut};
ghost use Rattle.denial_laws.specs.Nsec3Chains.{Nsec3ChainDenialAccepted, Nsec3ChainWildcardAnswerAccepted, Nsec3ChainWildcardErrorAccepted, Nsec3ChainRecordsSound, Nsec3ChainUnsignedDelegationSound, Nsec3ChainOptOutSound};
ghost use Rattle.denial_laws.specs.Nsec3Chains.{Nsec3ChainNothingBelowCut, Nsec3ChainOwnNothingBelowCut, Nsec3ChainAnswersBelowCut, Nsec3ChainParametersFound};
ghost use Rattle.denial_laws.specs.Soundness.{NameErrorSound, NoDataSound, EmptySound, WildcardNoDataSound, WildcardAnswerSound, UnsignedDelegationSound, NothingBelowCut, NothingOutside};
ghost use Rattle.denial_laws.specs.Nsec3Acceptance.{Nsec3DenialAccepted, Nsec3WildcardAnswerAccepted, Nsec3WildcardErrorAccepted};
ghost use Rattle.denial_laws.specs.Sums.{DenialSummedUp, Nsec3DenialSummedUp, Nsec3WildcardSummedUp};
ghost use Rattle.denial_laws.specs.Nsec3Calls.{Nsec3ParametersFound};
ghost use Rattle.denial_laws.specs.Nsec3Soundness.{Nsec3NameErrorSound, Nsec3NoDataSound, Nsec3EmptySound, Nsec3WildcardNoDataSound, Nsec3WildcardAnswerSound, Nsec3UnsignedDelegationSound, Nsec3AllInSound, Nsec3NothingBelowCut, Nsec3OwnNothingBelowCut, Nsec3AnswersBelowCut, Nsec3NothingOutside, Nsec3AbsenceSound, Nsec3OptOutSound};

/// If a name that doesn't begin with `*` is denied with NXDomain, the records of its denial prove a name error (RFC 4035
/// sections 3.1.3.2 and 5.4). They do the same for a name that begins with `*`, if neither the wildcard at its closest encloser
/// nor a name below that wildcard owns a set.
pub fn name_errors_are_accepted()
    ensures plain { NameErrorAccepted }
    ensures asterisk { WildcardErrorAccepted }
{}

/// Whatever NSEC records of the zone are presented, in whatever order and from however many answers: if they prove a name
/// error, the name is denied with NXDomain, and nothing is found for it, whatever the type. So no choice of the zone's own
/// records makes a validator accept a false name error.
pub fn name_errors_are_sound()
    ensures { NameErrorSound }
{}

/// If nothing is found for a name and a type, the records of the name's denial prove that there is no data: for a name on the
/// chain its own record (RFC 4035 section 3.1.3.1); for a name without sets, which has names with sets below it, the record
/// before it (RFC 4592 section 2.2.2), whatever the type; and for a name that doesn't exist, but for which a wildcard answers,
/// the records that deny the name and the wildcard's type (RFC 4035 section 3.1.3.4). The first and the last hold for every
/// type except RRSIG and ANY, and for DS if neither the name nor the wildcard owns an SOA (`IsTypeInScope`).
pub fn absent_data_are_accepted()
    ensures own { NoDataAccepted }
    ensures empty { EmptyAccepted }
    ensures wildcard { WildcardNoDataAccepted }
{}

/// If a wildcard is asked for a name, the records of the name's denial prove that an answer may come from this wildcard: the
/// name doesn't exist, and its closest encloser is the parent of the wildcard (RFC 4035 sections 3.1.3.3 and 5.3.4).
#[tactic(auto, using(crate::proofs::NameErrors::wildcard_answer_accepted))]
pub fn wildcard_answers_are_accepted()
    ensures { WildcardAnswerAccepted }
{}

/// If a name owns NS and neither SOA nor DS, the records of its denial prove a delegation without DS (RFC 4035 sections 3.1.4
/// and 5.2).
#[tactic(auto, using(crate::proofs::EmptyAnswers::unsigned_delegation_accepted))]
pub fn unsigned_delegations_are_accepted()
    ensures { UnsignedDelegationAccepted }
{}

/// All of these at once, for the records of a name's denial: what a validator concludes from them is what the zone answers, a
/// name error is proved exactly if the name is denied with NXDomain, whatever they prove is true (`IsSound`), and they sum up
/// to the case that holds in the zone (`IsSummedUp`).
pub fn denials_are_accepted()
    ensures { DenialAccepted }
{}

/// Whatever NSEC records of the zone are presented, in whatever order and from however many answers: if they prove that there
/// is no data, nothing is found for the name and the type, and the name exists (RFC 4035 sections 3.1.3.1 and 3.1.3.4), for a
/// proof by a wildcard only through that wildcard. A name that they show to be an empty non-terminal owns nothing, and a name
/// below it does (RFC 4592 section 2.2.2).
///
/// For A and AAAA this holds if no ANAME answers for them, since a record says nothing about what an ANAME is flattened to.
pub fn absent_data_are_sound()
    ensures own { NoDataSound }
    ensures empty { EmptySound }
    ensures wildcard { WildcardNoDataSound }
{}

/// If any such records prove an answer from a wildcard, the name doesn't exist, and its closest encloser is the one that they
/// name (RFC 4035 section 5.3.4).
pub fn wildcard_answers_are_sound()
    ensures { WildcardAnswerSound }
{}

/// If any such records prove an unsigned delegation, the name is below the origin and owns NS, and neither DS nor SOA (RFC 4035
/// section 5.2). This holds for every name.
pub fn unsigned_delegations_are_sound()
    ensures { UnsignedDelegationSound }
{}

/// No records of the zone prove anything about a name below a zone cut (RFC 6840 section 4.1), and no records at all about a
/// name outside the zone.
pub fn nothing_is_proved_elsewhere()
    ensures below_cut { NothingBelowCut }
    ensures outside { NothingOutside }
{}

/// The same as [`denials_are_accepted`], for denials by NSEC3 without opt-out, to which no wildcard answered: a name error is
/// proved exactly if the name is denied with NXDomain (RFC 5155 section 8.4), and absent data (sections 8.5 to 8.7), a wildcard
/// that may answer (section 8.8) and an unsigned delegation (section 8.9) are proved; whatever the records prove is true, and
/// they sum up to the case that holds in the zone. The premises are that no name owns NSEC, the name itself owns no NSEC3, the
/// origin isn't a delegation, and the hash gives the names on the chain and those that the denial hashes different digests
/// (`IsInNsec3Scope`).
pub fn nsec3_denials_are_accepted()
    ensures { Nsec3DenialAccepted }
{}

/// If a name that begins with `*` is denied with NXDomain, the records of its denial by NSEC3 prove a name error with the same
/// premises, if neither the wildcard at the closest encloser on the chain nor a name below that wildcard owns a set.
pub fn nsec3_wildcard_errors_are_accepted()
    ensures { Nsec3WildcardErrorAccepted }
{}

/// If a wildcard is asked for a name, the fewer records of a denial by NSEC3 to which a wildcard answered prove that an answer
/// may come from this wildcard (RFC 5155 sections 7.2.6 and 8.8), and sum up to that if it does; whatever else they prove is
/// true. The premises are the same.
pub fn nsec3_wildcard_answers_are_accepted()
    ensures { Nsec3WildcardAnswerAccepted }
{}

/// The same as [`name_errors_are_sound`], for NSEC3 records of the zone, with the same premises.
pub fn nsec3_name_errors_are_sound()
    ensures { Nsec3NameErrorSound }
{}

/// The same as [`absent_data_are_sound`], for NSEC3 records of the zone, with the premises of [`nsec3_denials_are_accepted`].
/// Here a record of a name that lists no type is that of an empty non-terminal (RFC 5155 section 7.1), and denies every type.
pub fn nsec3_absent_data_are_sound()
    ensures own { Nsec3NoDataSound }
    ensures empty { Nsec3EmptySound }
    ensures wildcard { Nsec3WildcardNoDataSound }
{}

/// If any such records prove an answer from the wildcard at an encloser, the encloser is at or below the origin, and neither
/// the name nor any name between it and the encloser exists. The records need not show the encloser itself (RFC 5155 section
/// 8.8): that it exists is shown by the signature of the answer, which is the wildcard's, and then it is the closest encloser.
pub fn nsec3_wildcard_answers_are_sound()
    ensures { Nsec3WildcardAnswerSound }
{}

/// If the name's own record among any such records shows an unsigned delegation, the name is below the origin and owns NS, and
/// neither DS nor SOA (RFC 5155 section 8.9). This holds for every name, with opt-out too. Without opt-out nothing else proves
/// one.
pub fn nsec3_unsigned_delegations_are_sound()
    ensures own { Nsec3UnsignedDelegationSound }
    ensures all_in { Nsec3AllInSound }
{}

/// About a name below a zone cut no NSEC3 records of the zone prove anything if the record of the cut is among them, as it is
/// among those of the name's own denial; otherwise at most that a wildcard at or below the cut may have answered, about which
/// its own zone has to be asked (RFC 6840 section 4.1). No records at all prove anything about a name outside the zone. This
/// holds with opt-out too, for a cut that it doesn't leave out.
pub fn nsec3_nothing_is_proved_elsewhere()
    ensures below_cut { Nsec3NothingBelowCut }
    ensures own { Nsec3OwnNothingBelowCut }
    ensures answers { Nsec3AnswersBelowCut }
    ensures outside { Nsec3NothingOutside }
{}

/// With opt-out a proof that a name doesn't exist says less: neither the name nor a name below it is on the chain, so if it
/// exists, it is below a zone cut or is a delegation without DS that opt-out leaves out (RFC 5155 sections 6 and 9.2). With
/// this and the unsigned delegation that a name's own record shows, whatever any such records prove is true (`IsOptOutSound`).
pub fn nsec3_absences_are_sound()
    ensures absence { Nsec3AbsenceSound }
    ensures all { Nsec3OptOutSound }
{}

/// What the calls `nsec::proof` and `nsec3::proof` of `denial_validation` conclude from a name's own denial is the case that
/// holds in the zone: a name error, an unsigned delegation, an empty non-terminal (with NSEC3 that is no data), no data, no
/// data from a wildcard, or a wildcard's answer with the labels of its encloser. With NSEC3 this holds without opt-out; if a
/// wildcard answered, for the fewer records of that denial. `nsec3::proof` finds the zone's parameters in any records of its
/// NSEC3 sets, whatever else is there.
pub fn denials_are_summed_up()
    ensures nsec { DenialSummedUp }
    ensures nsec3 { Nsec3DenialSummedUp }
    ensures wildcard { Nsec3WildcardSummedUp }
    ensures parameters { Nsec3ParametersFound }
{}

/// What the laws above say about a zone with the chain of NSEC sets that `secure` makes holds for any chain, as BIND, ldns and
/// Knot write it: a name's own denial is accepted for what the zone has, and so are the error of a name that begins with `*`
/// and an empty non-terminal; whatever records of the chain are presented, what they prove is true; and below a zone cut with
/// no DNAME above it they prove nothing.
pub fn nsec_chains_are_accepted()
    ensures accepted { ChainDenialAccepted }
    ensures asterisk { ChainWildcardErrorAccepted }
    ensures empty { ChainEmptyAccepted }
    ensures sound { ChainRecordsSound }
    ensures delegation { ChainUnsignedDelegationSound }
    ensures below_cut { ChainNothingBelowCut }
{}

/// The same for a chain of NSEC3 sets through any names that it may go through, in the root zone too: for any of its sets among
/// which are those that deny the name, or, where a wildcard answered, what covers the next closer name (RFC 5155 section 7.2).
/// With opt-out it leaves out delegations without DS, whatever glue there is at or below them, and names below a DNAME; below a
/// zone cut that is one of its names nothing is proved.
pub fn nsec3_chains_are_accepted()
    ensures accepted { Nsec3ChainDenialAccepted }
    ensures wildcard { Nsec3ChainWildcardAnswerAccepted }
    ensures asterisk { Nsec3ChainWildcardErrorAccepted }
    ensures sound { Nsec3ChainRecordsSound }
    ensures delegation { Nsec3ChainUnsignedDelegationSound }
    ensures opt_out { Nsec3ChainOptOutSound }
    ensures below_cut { Nsec3ChainNothingBelowCut }
    ensures own { Nsec3ChainOwnNothingBelowCut }
    ensures answers { Nsec3ChainAnswersBelowCut }
    ensures parameters { Nsec3ChainParametersFound }
{}
