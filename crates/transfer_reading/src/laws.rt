//! Laws of the definitions that the calls of this crate are proved to meet. Each is an empty function whose contract is the law, for
//! every value, so a program has no need to call one.
ghost use Rattle.transfer_reading.specs.Laws.{TakesDifferences, TakesMessages, TakesWholeZones};

/// A zone between an SOA record and another one of the same serial is taken whole, where it was asked for (RFC 5936 section 2.2) and in place of
/// what changed since an older version (RFC 1995 section 4).
#[tactic(auto, using(crate::proofs::Forms::takes_whole_zones))]
pub fn zones_are_taken_whole()
    ensures { TakesWholeZones }
{}

/// Differences that lead from the version that is held to a newer one are taken (RFC 1995 section 4).
#[tactic(auto, using(crate::proofs::Forms::takes_differences))]
pub fn differences_are_taken()
    ensures { TakesDifferences }
{}

/// The messages of an answer are taken one after the other if their records are, however these are parted (RFC 5936 section 2.2).
#[tactic(auto, using(crate::proofs::Messages::takes_messages))]
pub fn messages_are_taken()
    ensures { TakesMessages }
{}
