//! Laws of what a response says, of what is in it, of what a lookup says beside it, and of what it proves to a
//! validator; of failures, and of the names that a DNAME gives. Each is an empty function whose contract is the law, so
//! a program has no need to call one.
//!
//! What a response says is read in the response alone: the data of a name, a name error, no data, or a referral (`saying`); and so are
//! the NSEC or NSEC3 records by which it proves that. Signatures are taken as verified. A law of responses is said of any server, and
//! its contract says it of the responses of `zone_response` (`IsResponse`).
ghost use Rattle.zone_response.specs.Responses.{IsResponse};
ghost use Rattle.response_laws.specs.Agreement.{ProvableByOwners, ResponsesAgree};
ghost use Rattle.response_laws.specs.Contents.{NegativeTtlIsLesser, ResponseHasContents};
ghost use Rattle.response_laws.specs.Failures.{AnswerableIsAnswered, FailureHasReason, FailureIsReported};
ghost use Rattle.response_laws.specs.HashCounts.{FewNamesAreHashed};
ghost use Rattle.response_laws.specs.HashedSayings.{ResponseProvesByHashes};
ghost use Rattle.response_laws.specs.NewNames.{OwnersAreReplaced, TargetsAreRead};
ghost use Rattle.response_laws.specs.ProvedSayings.{ResponseProvesWhatItSays};
ghost use Rattle.response_laws.specs.Repeats.{SetsStandOnce};
ghost use Rattle.response_laws.specs.Sayings.{ResponseSaysHowItEnds};
ghost use Rattle.response_laws.specs.SecuredZones.{Nsec3ZonesDeny, NsecZonesDeny};

/// Each response of each zone says how its search ended: with the set that is asked for, that these are the data; at a zone
/// cut, a referral to it; at a name without the set, a name error or no data (RFC 2308 section 2). About a name outside the
/// zone, one that isn't followed any farther, and one to which a DNAME gives a name that is too long it says nothing, but has
/// the aliases that lead there. Only a refusal, a type that no record has, and a failure are a code alone, each for its reason
/// (`WhyAlone`).
pub fn responses_say_how_they_end()
    ensures { ResponseSaysHowItEnds IsResponse }
{}

/// SERVFAIL has a reason (`Failure`): the zone has no SOA; the search ends at a DNAME set without a target, or at an ANAME set
/// that leads to a name about which the zone can't say, or to addresses that have to be proved and that nobody signs (`Fault`);
/// or something has to be proved, and a name that is hashed for that has no hashed owner. So it doesn't occur if the zone has
/// an SOA and no such fault, and each name has a hashed owner, as in each zone that doesn't deny by hashed names
/// (`IsAnswerable`); and whenever there is a reason, it is the whole response.
pub fn failures_have_reasons()
    ensures reason { FailureHasReason IsResponse }
    ensures answered { AnswerableIsAnswered IsResponse }
    ensures call_concludes { FailureIsReported IsResponse }
{}

/// What the sections of each response of each zone contain, signed or not (`HasContents`).
///
/// AA is set except in a refusal and a failure, and if the queried name is at a zone cut or below it (RFC 1035 section 4.1.1).
/// Each set of the answer section is the zone's own, or that of the wildcard that is asked for the owner, with its own TTL; or
/// the CNAME synthesized from a DNAME set of the section, with the TTL of that set (RFC 6672 section 3.1); or has the addresses
/// for which an ANAME set stands in (`Origin`). All records and signatures of a set have its TTL (RFC 2181 section 5.2, RFC
/// 4034 section 3).
///
/// The authority section has the SOA of a negative response, with the lesser of its own TTL and its MINIMUM (RFC 2308 sections
/// 3 and 5); the NS set of the child to which it refers, and with DNSSEC its DS set; and with DNSSEC, if something has to be
/// proved (`HasToProve`), sets of NSEC or NSEC3, with no greater TTL than that of a negative response (RFC 9077 section 3); and
/// nothing else (`AuthorityOrigin`). The glue of a referral is each address of each server that its NS set names and that is in
/// the child (RFC 9471 section 3.1), for the first 64 records of that set, and nothing else (`HasGlue`); what else is in the
/// additional section are sets of the zone with their own TTL (`IsHelpful`).
pub fn sections_have_what_belongs_there()
    ensures contents { ResponseHasContents IsResponse }
    ensures negative_ttl { NegativeTtlIsLesser }
{}

/// Each set appears once in a section of each response, however often a search comes below a DNAME or back to its owner (RFC
/// 2181 section 5.5): of two with the same owner and type, not both have records, and not both signatures (`repeats`).
pub fn sets_stand_once()
    ensures { SetsStandOnce IsResponse }
{}

/// The answer section of a response has the sets with which a lookup answers, as they are sent, the addresses of an ANAME with
/// the same signatures. If the search ends at a name in the zone without a set, either the queried one or the one to which a
/// chain of aliases leads, the code is that of the lookup's negative answer for this name (RFC 6604 section 3); otherwise there
/// is no error (`Agrees`).
///
/// This holds if the rules of both are the same, with DNSSEC and without it. The zone has an SOA and no sets outside it, its
/// origin doesn't begin with `*`, and a CNAME is alone at its name (`IsOrdinaryZone`). The query is of class IN, for one type
/// of data other than NSEC3 (`IsOrdinaryType`), and for a name in the zone. On the way down to each name in the zone that is
/// searched there is no zone cut and no DNAME; and if the name doesn't exist, it doesn't begin with `*` and its wildcard isn't
/// a delegation (`IsOrdinary`, which also has a condition for NSEC). Behind an alias no ANAME stands in for addresses
/// (`NoStandIn`), and one that stands in for those of the queried name leads to some, which have a signature if the response
/// has to prove them; with DNSSEC the lookup signs them as the response does (`StandInsLead`), as it does at the same time with
/// the same signers. What the response says is provable (`IsProvable`), as it is without DNSSEC, and in each zone that doesn't
/// deny by hashed names or in which each name has a hashed owner. For a name that owns only NSEC or NSEC3, such as the owner of
/// an NSEC3 set, the code is a name error, whereas a lookup may say that it exists (RFC 5155 section 7.2.8).
pub fn responses_agree_with_lookups()
    ensures agreement { ResponsesAgree IsResponse }
    ensures provable { ProvableByOwners }
{}

/// Octets give a target exactly if they are the wire form of a name, and then that name (RFC 6672 section 2.1); and a name
/// below an owner then has its own labels in front of those of the target (section 2.2).
pub fn targets_are_read()
    ensures targets { TargetsAreRead }
    ensures owners { OwnersAreReplaced }
{}

/// Each response to a query with DNSSEC proves what it says, from a zone that denies by NSEC (`DeniesByNsec`): without the
/// NSEC3 sets that it may also have, its NSEC sets are a chain, as BIND, ldns, Knot and this library write it, and nothing at
/// its origin or above it refers elsewhere. In such a chain a type list is exactly what the name owns; but at a zone cut only
/// NS, CNAME, SOA and DS count, so that glue may be listed or not, and RRSIG is listed at least if something is signed (RFC
/// 4035 section 2.3). Names below a DNAME may be on it or not.
///
/// The NSEC records in the authority section of the response prove a name error for the name about which it says so
/// (RFC 4035 section 3.1.3.2), no data of a type (sections 3.1.3.1 and 3.1.3.4), a delegation without DS if a referral
/// has no DS set (section 3.1.4), and that a wildcard may answer if one did (section 3.1.3.3). They prove nothing about
/// any name in scope that isn't true among the zone's sets without those of NSEC3, since each of them belongs to the
/// chain; among these a search finds what it finds in the zone, denials aside (`chain_sets_find_the_same` of
/// `zone_denial`). Each set of the answer section is the zone's, or that of a wildcard that may answer, except the
/// CNAME synthesized from a DNAME set in it, and the addresses for which an ANAME set of the zone stands in: these have
/// a signature that was made for the response (`ProvesWhatItSays`). Below a DNAME it is about the new name; if CNAME or
/// ANY is asked for there, that CNAME is the answer, and no NSEC record says anything about its owner.
///
/// No data are proved for every type except RRSIG, and DS at an apex; and for a name that doesn't exist if the wildcard that is
/// asked for it owns no NS (RFC 4592 section 4.2); `HasProvableAbsence` says all this. The same goes for a name whose ANAME leads to no
/// addresses, for which a lookup finds the ANAME; if none stands in, it finds nothing (`HasNoStandIn`). A referral to a name
/// that owns SOA too isn't proved unsigned, since the NSEC set there is the child's.
pub fn responses_prove_what_they_say()
    ensures { ResponseProvesWhatItSays IsResponse }
{}

/// Each response to a query with DNSSEC proves what it says, from a zone that denies by NSEC3, with opt-out or without
/// (`DeniesByNsec3`): without the sets of NSEC and of other chains of NSEC3 that it may also have, its NSEC3 sets are a chain,
/// as BIND, ldns, Knot and this library write it, and nothing at its origin or above it refers elsewhere. In such a chain the
/// type lists are as with NSEC; they may list NSEC where a name owns it. It goes through the names that the zone is authoritative for and
/// those between them and the origin; names below a DNAME may be left out, and with opt-out delegations without DS, whatever
/// glue they have (RFC 5155 sections 6 and 7.1). Its own records say whether it has opt-out, and not NSEC3PARAM (section
/// 4.1.2).
///
/// All NSEC3 records in the authority section of the response together prove a name error for the name about which it says so
/// (RFC 5155 section 7.2.2), no data of a type (sections 7.2.3 to 7.2.5), a delegation without DS if a referral has no DS set
/// (section 7.2.7), and that a wildcard may answer if one did (section 7.2.6); and they prove nothing about any name that isn't
/// true among the zone's sets without those of other chains, since each of them belongs to the chain. Each set of the answer
/// section is the zone's, or that of a wildcard that may answer, except the CNAME synthesized from a DNAME set in it, and the
/// addresses for which an ANAME set of the zone stands in, which have a signature that was made for the response
/// (`ProvesByHashes`). All this holds for names such that the hash gives different digests to those that a denial of them
/// hashes, and those of the chain (`HashesDistinctly`). Below a DNAME it is about the new name; if CNAME or ANY is asked for there,
/// that CNAME is the answer, and no NSEC3 record says anything about its owner.
///
/// With opt-out, what is proved about a name without an NSEC3 set says less, and is insecure (section 9.2): if the name exists,
/// it is an unsigned delegation that is left out, or is below a zone cut or a DNAME (`IsLeftOutOn`). One name error has no
/// proof then: that of a name below an empty non-terminal that is left out, if there is a wildcard above that
/// (`HasErrorProof`). That a wildcard may answer is proved even if the parent of the wildcard has no NSEC3 set.
///
/// No data are proved as with NSEC: for every type except RRSIG, and DS at an apex; and for a name that doesn't exist if the
/// wildcard that is asked for it owns no NS (`HasHashedProvableAbsence`); if no ANAME stands in (`HasNoHashedStandIn`), a lookup among
/// these sets finds nothing then. A validator finds the parameters in the records (`concluded_by`).
pub fn hashed_responses_prove_what_they_say()
    ensures { ResponseProvesByHashes IsResponse }
{}

/// The names that are hashed for a response, as many of them as `respond_counted` of `zone_response` counts at most, are few: from a
/// zone that denies by NSEC3 without opt-out (`DeniesByNsec3`), with a hash that answers, one for each answer from a wildcard;
/// and for the end of the search three if a wildcard was asked, as for each name error, and one for a name without data and for
/// a referral without DS (`most_hashed`). So their number doesn't grow with that of the name's labels (RFC 5155 section 7.2).
pub fn few_names_are_hashed()
    ensures { FewNamesAreHashed }
{}

/// A zone that is secured by this library (`secured_is_circle` and `secured_is_nsec3_circle` of `zone_denial`), and that lends
/// its own sets for its denials, is one to which these two laws apply, if it has no sets of the other kind and nothing at its
/// origin or above it refers elsewhere.
pub fn secured_zones_deny()
    ensures nsec { NsecZonesDeny }
    ensures nsec3 { Nsec3ZonesDeny }
{}
