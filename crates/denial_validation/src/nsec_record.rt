// What one NSEC record says.
ghost use Rattle.std.specs.Prelude.{◌≡◌, ◌==◌, ◌||◌, option_map};
ghost use Rattle.std.specs.List.{list_any};
ghost use Rattle.zone_proto.specs.declared.record_type.RecordType.{RecordType};
ghost use Rattle.zone_proto.specs.Names.{lower, is_at_or_above};
ghost use Rattle.denial_validation.specs.NsecProofs.{lists, shows_type, is_ancestor_delegation, may_apply_to, is_of_zone, covers, denies_name, shows_empty, is_of_apex, is_wrong_side, denies_type, shown_encloser, shows_unsigned_delegation};
ghost use Rattle.denial_validation.specs.NsecRecords.{read_nsec};

use crate::asked_name::AskedName;
use std::marker::Model;
use zone_proto::{Labels, LowerName, RData, Record, RecordType};

/// An NSEC record, lent.
#[derive(Drop)]
pub(crate) struct LentNsec<'r> {
    owner: AskedName<'r>,
    next: AskedName<'r>,
    types: &'r [RecordType],
}

impl<'r> Model for LentNsec<'r> {
    ghost use Rattle.std.specs.Prelude.{map};
    ghost use Rattle.denial_validation.specs.NsecRecords.{NsecRecord};

    ghost Value = { NsecRecord };

    ghost view = { λ r. record {
      owner = r.owner;
      next = r.next;
      types = map (λ t. t.0) r.types.now;
    } };
}

impl<'r> LentNsec<'r> {
    /// The record, if it is one of type NSEC.
    pub(crate) fn read(lent: &'r Record) -> Option<LentNsec<'r>>
        ensures { result ≡ read_nsec lent.now }
    {
        match &lent.rdata {
            RData::NSEC(data) => Some(LentNsec {
                owner: AskedName::of_any(&lent.name),
                next: AskedName::of_any(&data.next_domain_name),
                types: data.types.as_slice(),
            }),
            _ => None,
        }
    }

    /// Whether its bit map lists a type.
    fn lists(&self, record_type: RecordType) -> bool
        ensures { result ≡ lists self.now record_type.0 }
    {
        has_type(self.types, record_type)
    }

    /// Whether it shows a set of the type at its owner (RFC 4035 section 5.4).
    fn shows_type(&self, record_type: RecordType) -> bool
        ensures { result ≡ shows_type self.now record_type.0 }
    {
        record_type == RecordType::NSEC
            || record_type == RecordType::RRSIG
            || record_type == RecordType::ANY
            || self.lists(record_type)
    }

    /// Whether it is the parent's record at a zone cut (RFC 6840 section 4.1).
    fn is_ancestor_delegation(&self) -> bool
        ensures { result ≡ is_ancestor_delegation self.now }
    {
        self.lists(RecordType::NS) && !self.lists(RecordType::SOA)
    }

    /// Whether it may tell of a name: an ancestor delegation and a DNAME tell nothing of the names below them (RFC 6840
    /// section 4.1).
    fn may_apply_to(&self, name: &AskedName<'_>) -> bool
        ensures { result ≡ may_apply_to self.now name.now }
    {
        !(self.owner.is_above(name)
            && (self.is_ancestor_delegation() || self.lists(RecordType::DNAME)))
    }

    /// Whether its owner is a name of the zone.
    fn is_of_zone(&self, apex: &AskedName<'_>) -> bool
        ensures { result ≡ is_of_zone apex.now self.now }
    {
        apex.is_at_or_above(&self.owner)
    }

    /// Whether a name below the apex would stand between the owner and the next name (RFC 4035 section 5.4).
    fn covers(&self, apex: &AskedName<'_>, name: &AskedName<'_>) -> bool
        ensures { result ≡ covers apex.now self.now name.now }
    {
        self.is_of_zone(apex)
            && apex.is_above(name)
            && self.owner.is_before(name)
            && (name.is_before(&self.next) || self.next.equals(apex))
    }

    /// Whether it shows that a name doesn't exist.
    pub(crate) fn denies_name(&self, apex: &AskedName<'_>, name: &AskedName<'_>) -> bool
        ensures { result ≡ denies_name apex.now self.now name.now }
    {
        self.may_apply_to(name) && self.covers(apex, name) && !name.is_above(&self.next)
    }

    /// Whether it shows that a name is an empty non-terminal (RFC 4592 section 2.2.2).
    pub(crate) fn shows_empty(&self, apex: &AskedName<'_>, name: &AskedName<'_>) -> bool
        ensures { result ≡ shows_empty apex.now self.now name.now }
    {
        self.may_apply_to(name) && self.covers(apex, name) && name.is_above(&self.next)
    }

    /// Whether it is that of the apex of a zone, of this or of another.
    fn is_of_apex(&self, apex: &AskedName<'_>) -> bool
        ensures { result ≡ is_of_apex apex.now self.now }
    {
        self.lists(RecordType::SOA) || self.owner.equals(apex)
    }

    /// Whether it is of the side of a zone cut that has no say on the type (RFC 4035 section 5.2, RFC 6840 section 4.1).
    fn is_wrong_side(&self, apex: &AskedName<'_>, record_type: RecordType) -> bool
        ensures { result ≡ is_wrong_side apex.now self.now record_type.0 }
    {
        if record_type == RecordType::DS {
            self.is_of_apex(apex) && !self.owner.is_root()
        } else {
            self.is_ancestor_delegation()
        }
    }

    /// Whether it shows that a name owns no set of the type, and no alias either (RFC 6840 section 4.3).
    pub(crate) fn denies_type(
        &self,
        apex: &AskedName<'_>,
        name: &AskedName<'_>,
        record_type: RecordType,
    ) -> bool
        ensures { result ≡ denies_type apex.now self.now name.now record_type.0 }
    {
        self.is_of_zone(apex)
            && self.owner.equals(name)
            && !self.shows_type(record_type)
            && !self.lists(RecordType::CNAME)
            && !self.is_wrong_side(apex, record_type)
    }

    /// Whether it shows that a name below the apex is a delegation without DS (RFC 6840 section 4.4).
    pub(crate) fn shows_unsigned_delegation(
        &self,
        apex: &AskedName<'_>,
        name: &AskedName<'_>,
    ) -> bool
        ensures { result ≡ shows_unsigned_delegation apex.now self.now name.now }
    {
        apex.is_above(&self.owner)
            && self.owner.equals(name)
            && self.lists(RecordType::NS)
            && !self.lists(RecordType::DS)
            && !self.lists(RecordType::SOA)
    }

    /// The closest encloser of a name that it shows: the longest proper ancestor at or below which one of its names stands
    /// (RFC 4592 section 3.3.1).
    pub(crate) fn shown_encloser<'n>(&self, name: &'n LowerName) -> Option<Labels<'n>>
        ensures { option_map lower result ≡ shown_encloser self.now name.now }
    {
        let mut ancestor = name.labels();
        while ancestor.next().is_some() {
            if self.shows_below(&ancestor) {
                return Some(ancestor);
            }
        }
        None
    }

    /// Whether its owner or its next name is at or below a name.
    fn shows_below(&self, ancestor: &Labels<'_>) -> bool
        ensures { result ≡ is_at_or_above (lower ancestor.now) self.now.owner
            || is_at_or_above (lower ancestor.now) self.now.next }
    {
        let ancestor = AskedName::of_labels(ancestor.clone());
        ancestor.is_at_or_above(&self.owner) || ancestor.is_at_or_above(&self.next)
    }
}

/// Whether a type is one of a list.
pub(crate) fn has_type(types: &[RecordType], record_type: RecordType) -> bool
    ensures { result ≡ list_any (λ (t : RecordType). t.0 == record_type.0) types.now }
{
    types.iter().any(|listed| listed.0 == record_type.0)
}
