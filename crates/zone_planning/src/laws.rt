//! Laws of plans: what they are once they are answered, and that what they ask for can be read back. Each is an empty function whose
//! contract is the law, so a program has no need to call one.
ghost use Rattle.zone_planning.specs.PlanLaws.{AnsweredPlansAreSecured, AnsweredPlansAreSigned};
ghost use Rattle.zone_planning.specs.ReadBack.{AskedAreSome, CanonicalOctetsReadBack, FramesReadBack, SignaturesTellApart, SignedDataTellApart};

/// A plan whose frames are answered, whoever answers and with whatever octets, is the zone whose sets are signed with these
/// keys and octets, and nothing else in it changes.
pub fn answered_plans_are_signed()
    ensures { AnsweredPlansAreSigned }
{}

/// A zone that is secured by planning signers, once its frames are answered, is the zone that is secured by the signers that
/// answer so: the same denials, serial and records, and these signatures.
pub fn answered_plans_are_secured()
    ensures { AnsweredPlansAreSecured }
{}

/// Octets to be signed determine the numbers and the signer of the signature, and the owner, type and records of the set, up to the
/// case of names, the order of the records and repetitions (RFC 4034 section 3.1.8.1): so no signature of one set is one of another.
/// The octets of each record are read back as its data, with the names in lower case in the types of RFC 4034 section 6.2.
pub fn signed_data_tell_apart()
    ensures sets { SignedDataTellApart }
    ensures octets { CanonicalOctetsReadBack }
{}

/// Frames and the end after them are read back as what they ask for, if each has octets, as what is to be signed has; and two lists
/// of signatures that are handed over as the same octets are the same.
pub fn frames_read_back()
    ensures frames { FramesReadBack }
    ensures some { AskedAreSome }
    ensures signatures { SignaturesTellApart }
{}
