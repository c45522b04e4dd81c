//! Laws of responses. Each is an empty function whose contract is the law, so a program has no
//! need to call one.
ghost use Rattle.zone_response.specs.ApexDenials.{MissingChildrenAreDenied};
ghost use Rattle.zone_response.specs.SearchLaws.{NamesAreFew, SearchesAreFew};

/// The searches of the zone's map that `respond_counted` of `zone_response` counts at most (`most_searches`) don't grow with the
/// labels of the names: for a name of the zone there are 12, and five more for each name between the zone's origin and this one
/// that is in the zone's tree, since it, or a name below it, owns RRsets (RFC 4592 section 2.2.2); and a response looks for 8 names
/// at most, the one that is asked for and those to which aliases and DNAMEs lead.
pub fn few_searches_are_made()
    ensures searches { SearchesAreFew }
    ensures names { NamesAreFew }
{}

/// A name one label below the origin of a zone that doesn't exist is denied by the zone's SOA, and with DNSSEC by the sets that prove it, where the
/// origin owns no DNAME set and the wildcard below it doesn't exist (RFC 2308 section 2.1).
#[tactic(auto, using(crate::proofs::ApexDenials::missing_children_are_denied))]
pub fn missing_children_are_denied()
    ensures { MissingChildrenAreDenied }
{}
