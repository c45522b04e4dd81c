//! What is at one name, seen in one walk of the map: the sets of a name stand together in it, the least type first.
ghost use Rattle.std.specs.Prelude.{◌≡◌, ℕ, ◌<◌, ◌≤◌, ◌==◌, ◌||◌, false, None, option_copied};
ghost use Rattle.std.specs.Option.{option_or};
ghost use Rattle.zone_proto.specs.Types.{NS, SOA};
ghost use Rattle.zone_map.specs.Zones.{set_at, owns, IsZone};
ghost use Rattle.zone_map.specs.Direct.{exact, answers_for, set_if};
ghost use Rattle.zone_map.specs.Walks.{first_key_from};
ghost use Rattle.zone_map.specs.Wildcards.{exists};

use crate::direct::is_address;
use crate::record_map::{RecordMap, is_denial_type};
use zone_proto::{RecordSet, RecordType, RrKey};

/// What a search for a type needs of what is at a name.
#[derive(Clone, Copy, Drop)]
pub(crate) struct AtName<'m> {
    /// The set of the least type that answers for the one that is searched for.
    pub(crate) exact: Option<&'m RecordSet>,
    /// The set of type NS.
    pub(crate) ns: Option<&'m RecordSet>,
    /// Whether there is a set of type SOA.
    pub(crate) owns_soa: bool,
    /// The first key from the name's least key on, of the name or of another.
    pub(crate) first: Option<&'m RrKey>,
}

/// What is at the name of its least key, that of type 0, for a query of `record_type`.
pub(crate) fn at_name<'m>(
    records: &'m RecordMap,
    least: &RrKey,
    record_type: RecordType,
) -> AtName<'m>
    requires { least.now.record_type.0 ≡ 0 }
    ensures exact { option_copied result.exact ≡ exact records.now least.now.name record_type.0 }
    ensures ns { option_copied result.ns ≡ set_at records.now least.now.name NS }
    ensures soa { result.owns_soa ≡ owns records.now least.now.name SOA }
    ensures first { option_copied result.first ≡ first_key_from records.now least.now.name }
    ensures zone { IsZone records.now }
{
    let mut here = AtName {
        exact: None,
        ns: None,
        owns_soa: false,
        first: None,
    };
    for (key, set) in records.as_map().from(least) {
        here.first = here.first.or(Some(key));
        if key.name != least.name {
            break;
        }
        here = here.with(key.record_type, set, record_type);
        // Further types are greater.
        if key.record_type >= here.last_awaited(record_type) {
            break;
        }
    }
    here
}

impl<'m> AtName<'m> {
    /// The same with the set of a further type.
    fn with(self, set_type: RecordType, set: &'m RecordSet, record_type: RecordType) -> AtName<'m>
        ensures exact { option_copied result.exact
            ≡ option_or (option_copied self.entry.exact)
            (set_if (answers_for record_type.0 set_type.0) set.now) }
        ensures ns { option_copied result.ns
            ≡ option_or (option_copied self.entry.ns)
            (set_if (NS == set_type.0) set.now) }
        ensures soa { result.owns_soa ≡ (self.entry.owns_soa || (SOA == set_type.0)) }
        ensures first { option_copied result.first ≡ option_copied self.entry.first }
    {
        let mut here = self;
        if here.exact.is_none() && answers(set_type, record_type) {
            here.exact = Some(set);
        }
        if here.ns.is_none() && set_type == RecordType::NS {
            here.ns = Some(set);
        }
        here.owns_soa |= set_type == RecordType::SOA;
        here
    }

    /// The greatest type whose set may still count: one that answers does only while there is none, NS and SOA always.
    fn last_awaited(self, record_type: RecordType) -> RecordType
        ensures known { SOA ≤ result.0 }
        ensures exact { option_copied self.entry.exact ≡ None → (u : ℕ) → result.0 < u
            → answers_for record_type.0 u ≡ false }
    {
        if self.exact.is_some() {
            RecordType::SOA
        } else if is_address(record_type) {
            RecordType::ANAME
        } else {
            record_type.max(RecordType::SOA)
        }
    }

    /// Whether the name of its least key, that of type 0, at which this stands, exists: whether it, or a name below it, owns a
    /// set of a type other than those of denial (RFC 4592 section 2.2.2). The first key from there on tells, since the names
    /// below a name stand together after it; only where that key is of a type of denial is a further one read.
    pub(crate) fn exists(self, records: &RecordMap, least: &RrKey) -> bool
        requires type_zero { least.now.record_type.0 ≡ 0 }
        requires first { option_copied self.first ≡ first_key_from records.now least.now.name }
        requires zone { IsZone records.now }
        ensures { result ≡ exists records.now least.now.name }
    {
        let Some(first) = self.first else {
            return false;
        };
        if !least.name.zone_of(&first.name) {
            return false;
        }
        !is_denial_type(first.record_type) || records.exists(least)
    }
}

/// Whether a set of `set_type` answers a query of `record_type`.
fn answers(set_type: RecordType, record_type: RecordType) -> bool
    ensures { result ≡ answers_for record_type.0 set_type.0 }
{
    set_type == record_type
        || set_type == RecordType::CNAME
        || set_type == RecordType::ANAME && is_address(record_type)
}
