//! Laws of zones that are signed again. Each is an empty function whose contract is the law, so a program has no need to call one.
ghost use Rattle.zone_keeping.specs.DenialLaws.{Nsec3SetsFollowNames, NsecSetsFollowNames, NsecSetsFollowTypes};
ghost use Rattle.zone_keeping.specs.KeepingLaws.{KeptPlansAreSecured, KeptSignaturesAreStanding};

/// A zone that is secured by planning signers, once standing signatures are put into it and what is left blank is answered, is the
/// zone that is secured by the signers that answer so, or by what stands: the same denials, serial and records. There are as many
/// answers as blank places left.
pub fn kept_plans_are_secured()
    ensures { KeptPlansAreSecured }
{}

/// A signature that stays is one that stood in the old zone, by the key that was to make it; it holds as long as is asked; and the
/// octets that it was made of are those that would be signed (RFC 4034 section 3.1.8.1), so that a validator takes it as it did.
pub fn kept_signatures_are_standing()
    ensures { KeptSignaturesAreStanding }
{}

/// The denials that a zone gets change only where its names or their types did: two zones that own the same types at the same names
/// get the same NSEC sets and the same NSEC3 sets, by one TTL and serial; and where the names alone are the same, the NSEC set of a name
/// is, unless its types changed.
pub fn denials_follow_names()
    ensures nsec { NsecSetsFollowNames }
    ensures nsec3 { Nsec3SetsFollowNames }
    ensures types { NsecSetsFollowTypes }
{}
