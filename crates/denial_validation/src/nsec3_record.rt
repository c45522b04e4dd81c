// What one NSEC3 record says.
ghost use Rattle.std.specs.Prelude.{◌≡◌, option_copied};
ghost use Rattle.denial_validation.specs.Nsec3Proofs.{lists, lists_none, has_owner, is_of_encloser, is_of_unsigned, is_wrong_side, denies_type};
ghost use Rattle.denial_validation.specs.Nsec3Records.{nsec3_data, read_nsec3};

use crate::asked_name::AskedName;
use crate::hashed_owner::HashedOwner;
use crate::nsec_record::has_type;
use std::marker::Model;
use zone_proto::{NSEC3, RData, Record, RecordType};

/// An NSEC3 record, lent.
#[derive(Drop)]
pub(crate) struct LentNsec3<'r> {
    owner: AskedName<'r>,
    rdata: &'r NSEC3,
}

impl<'r> Model for LentNsec3<'r> {
    ghost use Rattle.std.specs.Prelude.{map};
    ghost use Rattle.denial_validation.specs.Nsec3Records.{Nsec3Record};

    ghost Value = { Nsec3Record };

    ghost view = { λ r. record {
      owner = r.owner;
      next = r.rdata.now.next_hashed_owner_name;
      types = map (λ t. t.0) r.rdata.now.types;
      opt_out = r.rdata.now.opt_out;
    } };
}

impl<'r> LentNsec3<'r> {
    /// The record, if it is one of type NSEC3.
    pub(crate) fn read(lent: &'r Record) -> Option<LentNsec3<'r>>
        ensures { result ≡ read_nsec3 lent.now }
    {
        let rdata = nsec3_data(lent)?;
        Some(LentNsec3 {
            owner: AskedName::of_any(&lent.name),
            rdata,
        })
    }

    /// Whether the flag Opt-Out is set.
    pub(crate) fn opt_out(&self) -> bool
        ensures { result ≡ self.now.opt_out }
    {
        self.rdata.opt_out
    }

    /// Whether its bit map lists a type.
    fn lists(&self, record_type: RecordType) -> bool
        ensures { result ≡ lists self.now record_type.0 }
    {
        has_type(self.rdata.types.as_slice(), record_type)
    }

    /// Whether its bit map is empty, as that of a name without sets is (RFC 5155 section 7.1).
    fn lists_none(&self) -> bool
        ensures { result ≡ lists_none self.now }
    {
        self.rdata.types.as_slice().is_empty()
    }

    /// Whether it is of this zone, and of no name that hands on what is below it (RFC 5155 section 8.3).
    pub(crate) fn is_of_encloser(&self) -> bool
        ensures { result ≡ is_of_encloser self.now }
    {
        !self.lists(RecordType::DNAME)
            && (!self.lists(RecordType::NS) || self.lists(RecordType::SOA))
    }

    /// Whether it is of the side of a zone cut, the name, that has no say on the type (RFC 4035 section 5.2, RFC 6840 section
    /// 4.1).
    fn is_wrong_side(
        &self,
        apex: &AskedName<'_>,
        name: &AskedName<'_>,
        record_type: RecordType,
    ) -> bool
        ensures { result ≡ is_wrong_side apex.now self.now name.now record_type.0 }
    {
        if record_type == RecordType::DS {
            (self.lists(RecordType::SOA) || name.equals(apex)) && !name.is_root()
        } else {
            self.lists(RecordType::NS) && !self.lists(RecordType::SOA)
        }
    }

    /// Whether its name, which is this one, owns no set of the type, and no alias either (RFC 5155 sections 8.5 and 8.6).
    pub(crate) fn denies_type(
        &self,
        apex: &AskedName<'_>,
        name: &AskedName<'_>,
        record_type: RecordType,
    ) -> bool
        ensures { result ≡ denies_type apex.now self.now name.now record_type.0 }
    {
        !self.is_wrong_side(apex, name, record_type)
            && (self.lists_none()
                || (record_type != RecordType::ANY
                    && !self.lists(record_type)
                    && !self.lists(RecordType::CNAME)))
    }

    /// Whether it has the hashed owner of a name: whether it matches the name (RFC 5155 section 1.3). That of a name without
    /// a digest it has not.
    pub(crate) fn has_owner(&self, hashed: Option<&HashedOwner<'_>>) -> bool
        ensures { result ≡ has_owner self.now (option_copied hashed.entry) }
    {
        match hashed {
            Some(owner) => self.owner.equals(&owner.name()),
            None => false,
        }
    }

    /// Whether its name is a delegation without DS (RFC 5155 section 8.9).
    pub(crate) fn is_of_unsigned(&self) -> bool
        ensures { result ≡ is_of_unsigned self.now }
    {
        self.lists(RecordType::NS) && !self.lists(RecordType::DS) && !self.lists(RecordType::SOA)
    }

    /// Its owner.
    pub(crate) fn owner(&self) -> &AskedName<'r>
        ensures { result.now ≡ self.now.owner }
    {
        &self.owner
    }

    /// The next digest.
    pub(crate) fn next(&self) -> &'r [u8]
        ensures { result.now ≡ self.now.next }
    {
        self.rdata.next_hashed_owner_name.as_slice()
    }
}

/// The data of a record of type NSEC3.
pub(crate) fn nsec3_data(lent: &Record) -> Option<&NSEC3>
    ensures { option_copied result ≡ nsec3_data lent.now.rdata }
{
    match &lent.rdata {
        RData::NSEC3(found) => Some(found),
        _ => None,
    }
}
