//! Laws of updates of signed zones. Each is an empty function whose contract is the law, so a program has no need to call one.
ghost use Rattle.update_denials.specs.Laws.{UpdatedIsNsec3Chain, UpdatedIsNsecChain, UpdatedNsec3SetsStay};

/// A zone with NSEC has a closed chain of them after each update that is prepared, once what was left blank is signed, by whoever and with
/// whatever octets (RFC 4035 section 2.3). This is said of its sets alone; `update_laws` says it of its responses.
pub fn updated_zones_are_nsec_chains()
    ensures { UpdatedIsNsecChain }
{}

/// The same with NSEC3, with opt-out or without (RFC 5155 section 7.1), where the hash tells the names of the chain apart; and all its sets
/// are of that chain.
pub fn updated_zones_are_nsec3_chains()
    ensures chain { UpdatedIsNsec3Chain }
    ensures all { UpdatedNsec3SetsStay }
{}
