//! Laws of the definitions of replies and of additional records. Each is an empty function whose contract is the law, so a
//! program has no need to call one.
ghost use Rattle.zone_lookup.specs.AdditionalLaws.{OneRun, NoNameTwice, RunIsLongestFront, RunIsShort, SearchesAreFew, OneList};
ghost use Rattle.zone_lookup.specs.ReplyLaws.{NegativeIsNotFound, NegativeByName};

/// A query gets a negative answer only if nothing is found for it, and then that of its name: so what holds if nothing is
/// found, such as that the answer agrees with a chain of denials, holds for each negative reply.
pub fn negative_is_not_found()
    ensures found { NegativeIsNotFound }
    ensures by_name { NegativeByName }
{}

/// A run of an additional search searches exactly one list of names: no name twice, and none that was seen before. They are at
/// most one more than the zone has CNAME and ANAME sets.
pub fn runs_end()
    ensures one { OneRun }
    ensures distinct { NoNameTwice }
    ensures at_most { RunIsShort }
    ensures together { SearchesAreFew }
{}

/// However far the first targets from a name on are followed, a run searches the longest prefix of them in which no name is
/// repeated and none was seen before the run began.
pub fn run_is_longest_front()
    ensures { RunIsLongestFront }
{}

/// A query has exactly one list of additional sets.
pub fn additionals_are_one_list()
    ensures { OneList }
{}
