//! Laws of the definitions of denials: which names and types they list, and what a reader of a negative answer may conclude
//! from NSEC and NSEC3 sets. Each is an empty function whose contract is the law, so a program has no need to call one.
//!
//! Those of NSEC are about zones whose NSEC sets are a circle, as they are once the zone is secured, and whose origin
//! is on it, as it is where it owns any other set. A set and its next name cover a name that stands strictly between
//! the two in canonical order; the set of the last owner, whose next name goes back to the origin (RFC 4034 section
//! 4.1.1), covers a name that comes after its owner or before the origin. Those of NSEC3 are about zones whose NSEC3
//! sets are a circle, which goes round in the order of digests.
ghost use Rattle.std.specs.Prelude.{◌≡◌, ◌↔◌, ◌⊎◌, ℕ, Bool, IsTrue};
ghost use Rattle.std.specs.List.{Contains};
ghost use Rattle.std.specs.List.Sorted.{IsStrictlySortedBy};
ghost use Rattle.std.specs.Ordering.{nat_cmp};
ghost use Rattle.zone_proto.specs.Names.{Name, name_cmp};
ghost use Rattle.zone_proto.specs.Types.{NSEC, RRSIG};
ghost use Rattle.zone_map.specs.Zones.{Sets, owns};
ghost use Rattle.zone_denial.specs.ChainLaws.{ChainSetsAreOfZone, ChainSetsAreExact, ChainSetsAreOfOneKind, ChainSetsKeepSets, ChainSetsKeepFound, ChainSetsKeepNames};
ghost use Rattle.zone_denial.specs.ChainLaws.{NsecCircleIsChain, Nsec3CircleIsChain, NsecCircleStays, Nsec3CircleStays};
ghost use Rattle.zone_denial.specs.ChainLaws.{ChainFindsOrCovers, ChainProvesWildcard, ChainListsAllOwned, ChainDenialsAgree, ChainNoNextBelowAbsent, ChainNextBelowEmpty, ChainEnclosersAgree, ChainProvedWildcardIsAsked, ChainAbsentWildcardIsDenied};
ghost use Rattle.zone_denial.specs.ChainLaws.{Nsec3ChainFindsOrEncloses, Nsec3ChainProvesWildcard, Nsec3ChainDenies, Nsec3ChainCoversCloser, Nsec3ChainListsAllOwned, Nsec3ChainDenialsAgree, Nsec3ChainEnclosersAgree, Nsec3ChainProvedWildcardIsAsked, Nsec3ChainAbsentWildcardIsDenied};
ghost use Rattle.zone_denial.specs.Nsec3Circle.{nsec3_types, IsNsec3Type};
ghost use Rattle.zone_denial.specs.Nsec3Laws.{Nsec3CircleListsAllOwned, Nsec3DenialFindsOrEncloses, Nsec3DenialProvesWildcard, Nsec3DenialsAgree, SecuredIsNsec3Circle};
ghost use Rattle.zone_denial.specs.Nsec3Names.{nsec3_names, IsNsec3Name};
ghost use Rattle.zone_denial.specs.TypeLists.{nsec_types};
ghost use Rattle.zone_denial.specs.OwnersRead.{ReadsNoneAfter, CircleReadsOne};
ghost use Rattle.zone_denial.specs.NsecLaws.{SecuredIsCircle, DenialFindsOrCovers, DenialProvesWildcard, CircleListsAllOwned, DenialsAgree, NoNextBelowAbsent, NextBelowEmpty};
ghost use Rattle.zone_denial.specs.WildcardLaws.{EnclosersAgree, ProvedWildcardIsAsked, AbsentWildcardIsDenied, Nsec3EnclosersAgree, Nsec3ProvedWildcardIsAsked, Nsec3AbsentWildcardIsDenied};

/// The types that the NSEC set of a name lists ascend, each occurs once, and they are exactly those that the name owns, RRSIG
/// and NSEC (RFC 4034 section 4.1.2).
pub fn type_lists_are_exact()
    ensures ascending { (m : Sets) (n : Name) → IsStrictlySortedBy nat_cmp (nsec_types m n) }
    ensures types { (m : Sets) (n : Name) (t : ℕ)
        → Contains (nsec_types m n) t ↔ (IsTrue (owns m n t) ⊎ (t ≡ RRSIG) ⊎ (t ≡ NSEC)) }
{}

/// The names that get an NSEC3 set ascend, each occurs once, and they are exactly the origin and, strictly below it, the names
/// that the zone is authoritative for and the empty non-terminals above these; with opt-out those that own only NS, NSEC3
/// aside, don't count (RFC 5155 sections 6 and 7.1).
pub fn nsec3_names_are_exact()
    ensures ascending { (origin : Name) (m : Sets) (opt_out : Bool)
        → IsStrictlySortedBy name_cmp (nsec3_names origin m opt_out) }
    ensures names { (origin : Name) (m : Sets) (opt_out : Bool) (n : Name)
        → Contains (nsec3_names origin m opt_out) n ↔ IsNsec3Name origin m opt_out n }
{}

/// The types that the NSEC3 set of a name lists ascend, each occurs once, and they are exactly those that the name owns except
/// NSEC3, RRSIG if there is one of these, and at the origin NSEC3PARAM and RRSIG (RFC 5155 sections 3.1.8 and 7.1).
pub fn nsec3_type_lists_are_exact()
    ensures ascending { (origin : Name) (m : Sets) (n : Name)
        → IsStrictlySortedBy nat_cmp (nsec3_types origin m n) }
    ensures types { (origin : Name) (m : Sets) (n : Name) (t : ℕ)
        → Contains (nsec3_types origin m n) t ↔ IsNsec3Type origin m n t }
{}

/// A zone that gets its NSEC sets, replacing those that it had, has a closed chain of them: one for each name that it is
/// authoritative for and no other, each with the next of these names and the types of its own (RFC 4035 section 2.3). Its other
/// sets may change, in data, serials and signatures, as long as each name owns the same types.
#[tactic(auto, using(crate::proofs::Chain::NsecSecured::secured_is_circle))]
pub fn secured_is_circle()
    ensures { SecuredIsCircle }
{}

/// The denial of a name in the zone is the name's own NSEC set alone, or its last set covers the name (RFC 4035 sections
/// 3.1.3.1 and 3.1.3.2).
#[tactic(auto, using(crate::proofs::Chain::NsecClosest::finds_or_covers))]
pub fn denial_finds_or_covers()
    ensures { DenialFindsOrCovers }
{}

/// If a name in the zone has no NSEC set, its denial has the NSEC set of the wildcard at its closest encloser, if the wildcard
/// has one, and otherwise a set that covers the wildcard (RFC 4035 section 3.1.3.2). So a validator knows which wildcard might
/// have answered for the name, and what that one owns or that there is none.
#[tactic(auto, using(crate::proofs::Chain::NsecWildcard::proves_wildcard))]
pub fn denial_proves_wildcard()
    ensures { DenialProvesWildcard }
{}

/// What a name owns is in the type list of its NSEC set. A name in the zone that owns a set and has no NSEC set is below a zone
/// cut, so it is glue, or belongs to a child zone (RFC 4035 section 2.3).
#[tactic(auto, using(crate::proofs::Chain::NsecLists::lists_all_owned))]
pub fn circle_lists_all_owned()
    ensures { CircleListsAllOwned }
{}

/// A negative answer and the NSEC sets agree: a name for which the answer is that there is no such name has no NSEC set, and a
/// type for which the answer is that the name has no such set isn't in the list of the name's NSEC set. RRSIG is the exception:
/// it is listed, since there are signatures, and they are in the sets that they sign and in no set of their own.
pub fn denials_agree()
    ensures { DenialsAgree }
{}

/// If neither a name in the zone nor a name below it owns a set, so that there is no such name, the last set of its denial
/// covers it, and the next name of that set is neither it nor below it: so the name isn't an empty non-terminal either (RFC
/// 4035 section 5.4).
#[tactic(auto, using(crate::proofs::Chain::NsecBelow::no_next_below))]
pub fn no_next_below_absent()
    ensures { NoNextBelowAbsent }
{}

/// If a name in the zone owns no set but a name below it does, and there is no zone cut above it, so that it is an empty
/// non-terminal (RFC 4592 section 2.2.2), the last set of its denial covers it, and the next name of that set is below it. So a
/// validator can tell an empty non-terminal from a name that doesn't exist.
#[tactic(auto, using(crate::proofs::Chain::NsecBelow::next_below_empty))]
pub fn next_below_empty()
    ensures { NextBelowEmpty }
{}

/// For a name below the origin with no zone cut above it, the closest encloser in its denial is its longest ancestor that
/// exists. So the wildcard that the denial is about is the one that is asked for the name, if one is: if the name neither
/// begins with `*` nor exists (RFC 4592 section 3.3.1). This holds if no name owns NSEC3.
pub fn enclosers_agree()
    ensures encloser { EnclosersAgree }
    ensures wildcard { ProvedWildcardIsAsked }
{}

/// For a name in the zone that doesn't begin with `*`, if neither it nor a name below it owns a set nor the wildcard that is
/// asked for it exists, so that there is no such name, the denial shows that there is no wildcard: the one at its closest
/// encloser has no NSEC set, and a set of the denial covers it (RFC 4035 section 3.1.3.2). This holds if no name owns NSEC3.
pub fn absent_wildcard_is_denied()
    ensures { AbsentWildcardIsDenied }
{}

/// A search for the closest NSEC set to a name reads no owner after the name: at most as many as there are owners of NSEC sets
/// at or before it.
#[tactic(auto, using(crate::proofs::Chain::CircleReads::none_after))]
pub fn closest_reads_none_after()
    ensures { ReadsNoneAfter }
{}

/// If the NSEC sets form a closed chain, it reads at most one owner, whatever the name.
#[tactic(auto, using(crate::proofs::Chain::CircleReads::circle_reads_one))]
pub fn circle_reads_one()
    ensures { CircleReadsOne }
{}

/// A zone that gets its NSEC3 sets, replacing those that it had, has a closed chain of them, so that NSEC3 denies it: one set
/// for each name that gets one and no other, under the name's hashed owner, with the next digest and the types of the name; and
/// the origin owns NSEC3PARAM, with whichever parameters (RFC 5155 section 7.1). This holds if the origin isn't the root, and
/// the hash gives the names on the chain digests of one length that differ. The zone's other sets may change, in data, serials
/// and signatures, as long as each name owns the same types.
pub fn secured_is_nsec3_circle()
    ensures { SecuredIsNsec3Circle }
{}

/// The denial by NSEC3 of a name in the zone is the name's own set alone, if the name is on the chain; otherwise it has the set
/// of the name's closest encloser and one that covers the next closer name (RFC 5155 section 7.2.1). This holds if the hash
/// gives the names on the chain and those that the denial hashes digests of one length that differ.
#[tactic(auto, using(crate::proofs::Hashed::Nsec3Encloses::finds_or_encloses))]
pub fn nsec3_denial_finds_or_encloses()
    ensures { Nsec3DenialFindsOrEncloses }
{}

/// If a name in the zone isn't on the chain, its denial by NSEC3 has the NSEC3 set of the wildcard at its closest encloser, if
/// the wildcard is on the chain, and otherwise a set that covers the wildcard (RFC 5155 section 7.2.2). So a validator knows
/// which wildcard might have answered for the name, and what that one owns or that there is none. The hash has to give the same
/// names different digests.
#[tactic(auto, using(crate::proofs::Hashed::Nsec3Wildcard::proves_wildcard))]
pub fn nsec3_denial_proves_wildcard()
    ensures { Nsec3DenialProvesWildcard }
{}

/// What a name owns other than NSEC3 is in the type list of its NSEC3 set, if the name is on the chain. A name in the zone that
/// owns a type other than NSEC3 and isn't on the chain is below a zone cut, so that what it owns is glue, or belongs to a child
/// zone; or opt-out leaves it out, and then it owns only NS, NSEC3 aside (RFC 5155 sections 6 and 7.1).
#[tactic(auto, using(crate::proofs::Hashed::Nsec3Lists::lists_all_owned))]
pub fn nsec3_circle_lists_all_owned()
    ensures { Nsec3CircleListsAllOwned }
{}

/// A negative answer and the NSEC3 sets agree: if nothing is found for a name on the chain and a type, the name or one below it
/// owns a set, so that the answer isn't that there is no such name, and the type isn't in the list of the name's NSEC3 set (RFC
/// 5155 section 7.1). RRSIG is the exception: it is listed, since there are signatures, and they are in the sets that they sign
/// and in no set of their own.
pub fn nsec3_denials_agree()
    ensures { Nsec3DenialsAgree }
{}

/// The same as [`enclosers_agree`], for denials by NSEC3 without opt-out: for a name below the origin with no zone cut above
/// it, the closest encloser is the longest ancestor that exists, and the wildcard that is proved is the one that is asked. This
/// holds if no name owns NSEC.
pub fn nsec3_enclosers_agree()
    ensures encloser { Nsec3EnclosersAgree }
    ensures wildcard { Nsec3ProvedWildcardIsAsked }
{}

/// The same as [`absent_wildcard_is_denied`], for denials by NSEC3 without opt-out: if there is no such name, the wildcard at its
/// closest encloser isn't on the chain, and a set of the denial covers it (RFC 5155 section 7.2.2). This holds if no name owns
/// NSEC, and the hash gives the names on the chain and those that the denial hashes different digests.
pub fn nsec3_absent_wildcard_is_denied()
    ensures { Nsec3AbsentWildcardIsDenied }
{}

/// The sets of a zone without the NSEC and NSEC3 sets that don't belong to the chain by which it denies are the sets of a zone,
/// and a lookup finds among them exactly those that are in the zone and either are neither NSEC nor NSEC3 sets or belong to the
/// chain: the NSEC sets, or the NSEC3 sets with its algorithm, salt and iterations (RFC 5155 sections 7.2 and 8.2). So none of
/// the other kind is left.
pub fn chain_sets_are_exact()
    ensures zone { ChainSetsAreOfZone }
    ensures sets { ChainSetsAreExact }
    ensures kind { ChainSetsAreOfOneKind }
{}

/// Apart from denials, a search finds the same among these sets as in the zone: the same sets, so that the same names exist,
/// for which the same wildcards are asked, and which are below the same zone cuts and DNAME sets.
pub fn chain_sets_find_the_same()
    ensures sets { ChainSetsKeepSets }
    ensures found { ChainSetsKeepFound }
    ensures names { ChainSetsKeepNames }
{}

/// The closed chain of NSEC sets that a zone has once it is secured is a chain; and so is that of NSEC3 sets, through the names
/// that get one. If the zone has no sets of the other kind of denial, its sets are all of that chain.
pub fn circles_are_chains()
    ensures nsec { NsecCircleIsChain }
    ensures nsec3 { Nsec3CircleIsChain }
    ensures nsec_sets { NsecCircleStays }
    ensures nsec3_sets { Nsec3CircleStays }
{}

/// What the laws above say about the chain of NSEC sets that `secure` makes holds for any chain: the denial of a name in the
/// zone is the name's own set or covers the name, and has the set of the wildcard at its closest encloser or covers that
/// wildcard; the lists have what is owned, as far as they say so, and no denial contradicts one; and the next name
/// distinguishes an empty non-terminal from a name that doesn't exist, the encloser is the one that exists, and its wildcard
/// the one that is asked. The last three hold if there is neither a zone cut nor a DNAME above the name, since a chain may
/// leave out names below a DNAME.
pub fn nsec_chains_deny()
    ensures found_or_covered { ChainFindsOrCovers }
    ensures wildcard { ChainProvesWildcard }
    ensures listed { ChainListsAllOwned }
    ensures agree { ChainDenialsAgree }
    ensures absent { ChainNoNextBelowAbsent }
    ensures empty { ChainNextBelowEmpty }
    ensures encloser { ChainEnclosersAgree }
    ensures asked_wildcard { ChainProvedWildcardIsAsked }
    ensures absent_wildcard { ChainAbsentWildcardIsDenied }
{}

/// The same as [`nsec_chains_deny`], for a chain of NSEC3 sets through any names that it may go through: what the laws above say
/// about the names on the chain that `secure` makes holds for these. The last three hold without opt-out. What is said about the
/// sets that `nsec3_denial` finds holds where the origin isn't the root: that call never looks up the root's set.
pub fn nsec3_chains_deny()
    ensures found_or_enclosed { Nsec3ChainFindsOrEncloses }
    ensures wildcard { Nsec3ChainProvesWildcard }
    ensures denied { Nsec3ChainDenies }
    ensures closer { Nsec3ChainCoversCloser }
    ensures listed { Nsec3ChainListsAllOwned }
    ensures agree { Nsec3ChainDenialsAgree }
    ensures encloser { Nsec3ChainEnclosersAgree }
    ensures asked_wildcard { Nsec3ChainProvedWildcardIsAsked }
    ensures absent_wildcard { Nsec3ChainAbsentWildcardIsDenied }
{}
