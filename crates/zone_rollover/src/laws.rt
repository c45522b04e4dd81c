//! Laws of the definitions that the calls of this crate are proved to meet. Each is an empty function whose contract is the law, for
//! every value, so a program has no need to call one.
ghost use Rattle.zone_rollover.specs.RolloverLaws.{AlgorithmRolloversKeepTrust, KskRolloversKeepTrust, ZskRolloversKeepTrust};

/// While the key that signs a zone is rolled by pre-publication, at each moment each chain of trust that caches may have parts of is
/// whole: whichever DS set, DNSKEY set and signed set they hold of what was served within its TTL and propagation delay.
pub fn zsk_rollovers_keep_trust()
    ensures { ZskRolloversKeepTrust }
{}

/// The same while a key that the parent tells of is rolled by double signature, whenever the parent changes its DS set between the
/// moment at which it is asked and that at which the new one is seen.
pub fn ksk_rollovers_keep_trust()
    ensures { KskRolloversKeepTrust }
{}

/// The same while a zone is changed to keys of another algorithm, by signatures before keys and keys before signatures; and for
/// validators that want each algorithm of the DS set and of the DNSKEY set to be whole.
pub fn algorithm_rollovers_keep_trust()
    ensures { AlgorithmRolloversKeepTrust }
{}
