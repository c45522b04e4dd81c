//! Laws of the definitions of a zone. Each is an empty function whose contract is the law, so a program has no need to
//! call one.
ghost use Rattle.std.specs.Prelude.{◌≡◌, ◌↔◌, ◌<◌, ℕ, [], Some, None, IsTrue, false, length};
ghost use Rattle.std.specs.List.{All, AllPairs, Contains};
ghost use Rattle.std.specs.List.Sorted.{IsStrictlySortedBy};
ghost use Rattle.std.specs.Ordering.{nat_cmp};
ghost use Rattle.zone_proto.specs.declared.record.Record.{Record};
ghost use Rattle.zone_proto.specs.Data.{type_of};
ghost use Rattle.zone_proto.specs.Names.{Name, IsName, IsLowerName, name_cmp, lower, IsAtOrAbove};
ghost use Rattle.zone_proto.specs.Order.{is_upto};
ghost use Rattle.zone_proto.specs.Sets.{RRset};
ghost use Rattle.zone_map.specs.Direct.{is_delegated_for, nearest_delegation};
ghost use Rattle.zone_map.specs.SearchLaws.{WildcardIsOfClosestEncloser, ChainIsLongestFront, ChainHasAtMost8};
ghost use Rattle.zone_map.specs.Upserts.{upserted};
ghost use Rattle.zone_map.specs.Zones.{Sets, set_at, owns, names_of, owners, types_at, put, without, IsStoredAt, IsZone};
ghost use Rattle.zone_in_memory.specs.CircleLaws.{UntakenKeepsCircle, RefusedKeyKeepsCircle, RefusedSecuringKeepsCircle};
ghost use Rattle.zone_in_memory.specs.TransferLaws.{BeginsAndEndsWithSoa, HasEachRecord, HasNoneTwice};

pub use denial_laws::laws::{
    absent_data_are_accepted, absent_data_are_sound, denials_are_accepted, denials_are_summed_up,
    name_errors_are_accepted, name_errors_are_sound, nothing_is_proved_elsewhere,
    nsec3_absences_are_sound, nsec3_absent_data_are_sound, nsec3_denials_are_accepted,
    nsec3_name_errors_are_sound, nsec3_nothing_is_proved_elsewhere,
    nsec3_unsigned_delegations_are_sound, nsec3_wildcard_answers_are_accepted,
    nsec3_wildcard_answers_are_sound, nsec3_wildcard_errors_are_accepted,
    unsigned_delegations_are_accepted, unsigned_delegations_are_sound,
    wildcard_answers_are_accepted, wildcard_answers_are_sound,
};
pub use zone_lookup::laws::{
    additionals_are_one_list, negative_is_not_found, run_is_longest_front, runs_end,
};
use zone_proto::{Nsec3Hash, Signer};

/// A zone may have no sets, and its sets remain those of a zone when a set is put under its own owner and type, when one is
/// removed, and when a record is inserted.
pub fn zones_stay_zones()
    ensures empty { IsZone [] }
    ensures put { (m : Sets) (n : Name) (t : ℕ) (s : RRset) → IsZone m → IsStoredAt n t s
        → IsZone (put m n t s) }
    ensures without { (m : Sets) (n : Name) (t : ℕ) → IsZone m → IsZone (without m n t) }
    ensures insertion { (m after : Sets) (class : ℕ) (r : Record) (serial : ℕ) → IsZone m
        → IsName (lower r.name) → upserted m class r serial ≡ Some after → IsZone after }
{}

/// In a zone an owner is a name in lower case, and each record of a set has the type of the set's key.
pub fn sets_stand_under_their_own()
    ensures owners { (m : Sets) (n : Name) (t : ℕ) → IsZone m → IsTrue (owns m n t)
        → IsLowerName n }
    ensures types { (m : Sets) (n : Name) (t : ℕ) (s : RRset) → IsZone m → set_at m n t ≡ Some s
        → All (λ (r : Record). type_of r.rdata ≡ t) s.records }
{}

/// In a zone the types of a name, the owners of a type and the names ascend. The first two have each only once; a name occurs
/// among the names as often as it owns a set.
pub fn lists_ascend()
    ensures types { (m : Sets) (n : Name) → IsZone m → IsStrictlySortedBy nat_cmp (types_at m n) }
    ensures owners { (m : Sets) (t : ℕ) → IsZone m → IsStrictlySortedBy name_cmp (owners m t) }
    ensures names { (m : Sets) → IsZone m
        → AllPairs (λ (a b : Name). IsTrue (is_upto name_cmp a b)) (names_of m) }
{}

/// These lists have exactly what is owned.
pub fn lists_have_what_is_owned()
    ensures types { (m : Sets) (n : Name) (t : ℕ)
        → Contains (types_at m n) t ↔ IsTrue (owns m n t) }
    ensures owners { (m : Sets) (n : Name) (t : ℕ) → Contains (owners m t) n ↔ IsTrue (owns m n t) }
    ensures names { (m : Sets) (n : Name)
        → Contains (names_of m) n ↔ ((t : ℕ) × IsTrue (owns m n t)) }
{}

/// The nearest delegation of a query is the longest name at or above its own that is one (RFC 1034 section 4.3.2): no longer
/// one is, and if there is none, no name at or above is one.
pub fn nearest_delegation_is_the_longest()
    ensures above { (m : Sets) (n a : Name) (t : ℕ) → nearest_delegation m n t ≡ Some a
        → IsAtOrAbove a n }
    ensures delegated { (m : Sets) (n a : Name) (t : ℕ) → nearest_delegation m n t ≡ Some a
        → IsTrue (is_delegated_for m n t a) }
    ensures longest { (m : Sets) (n a b : Name) (t : ℕ) → nearest_delegation m n t ≡ Some a
        → IsAtOrAbove b n → length a < length b → is_delegated_for m n t b ≡ false }
    ensures none { (m : Sets) (n b : Name) (t : ℕ) → nearest_delegation m n t ≡ None
        → IsAtOrAbove b n → is_delegated_for m n t b ≡ false }
{}

/// The wildcard that is asked for a name is the one at its closest encloser, the longest of the name's proper ancestors that
/// exists (RFC 4592 section 3.3.1). None is asked for a name that begins with `*`, for one that exists, and if none of the
/// ancestors exists; for every other name except the root one is.
pub fn wildcard_is_of_closest_encloser()
    ensures { WildcardIsOfClosestEncloser }
{}

/// However far the sets along CNAME targets are followed, the chain from a name and its set is the longest prefix of them that
/// has at most 8 sets and no name twice (RFC 1034 section 3.6.2).
pub fn chain_is_longest_front()
    ensures front { ChainIsLongestFront }
    ensures at_most { ChainHasAtMost8 }
{}

/// The transfer of a zone begins and ends with its SOA record, if it has one that a lookup finds, and has between the two every
/// record of the zone that isn't an SOA, and no other (RFC 5936 section 2.2). Without signatures it has none twice.
pub fn transfers_have_each_record()
    ensures ends { BeginsAndEndsWithSoa }
    ensures each { HasEachRecord }
    ensures once { HasNoneTwice }
{}

/// In a zone whose NSEC sets are a closed chain with the origin on it they remain one after an insertion that returns false,
/// and after one that is refused, as when a signer isn't added or the zone isn't secured.
pub fn refused_writes_keep_the_circle<S: Signer, H: Nsec3Hash>()
    ensures insertion { UntakenKeepsCircle S H }
    ensures key { RefusedKeyKeepsCircle S H }
    ensures securing { RefusedSecuringKeepsCircle S H }
{}
