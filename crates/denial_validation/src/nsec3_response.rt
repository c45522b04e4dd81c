// A name, and the NSEC3 records of a response by which it is judged.
ghost use Rattle.std.specs.Prelude.{◌≡◌, ◌&&◌, not, Some, option_copied, IfOk, IsOkUnless};
ghost use Rattle.std.specs.List.{list_any};
ghost use Rattle.zone_proto.specs.Names.{is_above, is_at_or_above};
ghost use Rattle.denial_validation.specs.Nsec3Proofs.{has_owner, is_of_encloser, is_of_unsigned, denies_type, covers_owner};
ghost use Rattle.denial_validation.specs.Nsec3Responses.{nsec3_response, lent_records, owner_in};

use crate::asked_name::AskedName;
use crate::hashed_owner::HashedOwner;
use crate::nsec3_parameters::{KnownParameters, common_parameters, hashed_owner};
use crate::nsec3_record::LentNsec3;
use crate::nsec3_records::Nsec3Records;
use std::marker::Model;
use zone_proto::{LowerName, NSEC3, Nsec3Hash, ProtoError, Record, RecordType};

/// A name, and what it is judged by: the apex, the hash, the parameters that the records tell, and the records that have them.
#[derive(Drop)]
pub(crate) struct Nsec3Response<'q, 'r, H: Nsec3Hash> {
    apex: &'q LowerName,
    name: &'q LowerName,
    own: HashedOwner<'q>,
    hash: &'q H,
    parameters: &'r NSEC3,
    records: &'q [&'r Record],
}

impl<'q, 'r, H: Nsec3Hash> Model for Nsec3Response<'q, 'r, H> {
    ghost use Rattle.std.specs.Prelude.{◌≡◌, Some, map};
    ghost use Rattle.denial_validation.specs.Nsec3Parameters.{digest_by, records_with};
    ghost use Rattle.denial_validation.specs.Nsec3Proofs.{owner_of};
    ghost use Rattle.denial_validation.specs.Nsec3Responses.{Nsec3Response};

    ghost Value = { Nsec3Response H };

    ghost view = { λ r. record {
      apex = r.apex.now;
      name = r.name.now;
      hash = r.hash.now;
      parameters = r.parameters.now;
      records = records_with r.apex.now r.parameters.now (map (λ lent. lent.now) r.records.now);
    } };

    ghost invariant = { λ r. Some r.own
        ≡ owner_of r.apex.now (digest_by (H.digest_of r.hash.now) r.parameters.now) r.name.now };
}

impl<'q, 'r, H: Nsec3Hash> Nsec3Response<'q, 'r, H> {
    /// What the records of a response are to a name; nothing where those that the hash knows have no parameters in
    /// common. Fails only for lack of memory.
    pub(crate) fn read(
        apex: &'q LowerName,
        records: &'q [&'r Record],
        name: &'q LowerName,
        hash: &'q H,
    ) -> Result<Option<Nsec3Response<'q, 'r, H>>, ProtoError>
        ensures ok { IfOk result (λ response. response
            ≡ nsec3_response H.digest_of apex.now (lent_records records.now) name.now hash.now) }
        ensures err { IsOkUnless result ProtoError.Memory }
    {
        match common_parameters(apex, records, name, hash)? {
            Some(KnownParameters { parameters, owner }) => Ok(Some(Nsec3Response {
                apex,
                name,
                own: owner,
                hash,
                parameters,
                records,
            })),
            None => Ok(None),
        }
    }

    /// The hashed owner of a name, if the hash has a digest of it. Fails only for lack of memory.
    pub(crate) fn owner_of(&self, name: &LowerName) -> Result<Option<HashedOwner<'q>>, ProtoError>
        ensures ok { IfOk result (λ owner. owner ≡ owner_in H.digest_of self.now name.now) }
        ensures err { IsOkUnless result ProtoError.Memory }
    {
        hashed_owner(self.apex, self.parameters, name, self.hash)
    }

    /// The name.
    pub(crate) fn name(&self) -> &'q LowerName
        ensures { result.now ≡ self.now.name }
    {
        self.name
    }

    /// The hashed owner of the name.
    pub(crate) fn own(&self) -> &HashedOwner<'q>
        ensures { Some result.now ≡ owner_in H.digest_of self.now self.now.name }
    {
        &self.own
    }

    /// Whether the name is the apex or below it.
    pub(crate) fn is_in_zone(&self) -> bool
        ensures { result ≡ is_at_or_above self.now.apex self.now.name }
    {
        AskedName::of(self.apex).is_at_or_above(&AskedName::of(self.name))
    }

    /// Whether a name is below the apex.
    pub(crate) fn is_below_apex(&self, name: &LowerName) -> bool
        ensures { result ≡ is_above self.now.apex name.now }
    {
        AskedName::of(self.apex).is_above(&AskedName::of(name))
    }

    /// The records.
    fn records(&self) -> Nsec3Records<'_, 'r>
        ensures { result ≡ self.now.records }
    {
        Nsec3Records::among(self.apex, self.records, self.parameters)
    }

    /// Whether a record matches the name with this hashed owner.
    pub(crate) fn is_matched(&self, hashed: Option<&HashedOwner<'_>>) -> bool
        ensures { result
            ≡ list_any (λ r. has_owner r (option_copied hashed.entry)) self.now.records }
    {
        self.records().any(|nsec3| nsec3.has_owner(hashed))
    }

    /// Whether a record matches it that is of this zone, and of no name that hands on what is below it.
    pub(crate) fn is_encloser(&self, hashed: Option<&HashedOwner<'_>>) -> bool
        ensures { result
            ≡ list_any (λ r. has_owner r (option_copied hashed.entry) && is_of_encloser r)
            self.now.records }
    {
        self.records()
            .any(|nsec3| nsec3.has_owner(hashed) && nsec3.is_of_encloser())
    }

    /// Whether a record matches it that is of a name which hands on what is below it.
    pub(crate) fn is_handing_on(&self, hashed: Option<&HashedOwner<'_>>) -> bool
        ensures { result
            ≡ list_any (λ r. has_owner r (option_copied hashed.entry) && not (is_of_encloser r))
            self.now.records }
    {
        self.records()
            .any(|nsec3| nsec3.has_owner(hashed) && !nsec3.is_of_encloser())
    }

    /// Whether any record is of such a name.
    pub(crate) fn has_referral(&self) -> bool
        ensures { result ≡ list_any (λ r. not (is_of_encloser r)) self.now.records }
    {
        self.records().any(|nsec3| !nsec3.is_of_encloser())
    }

    /// Whether a record matches the name, which has this hashed owner, and denies the type.
    pub(crate) fn denies_type(
        &self,
        name: &LowerName,
        hashed: Option<&HashedOwner<'_>>,
        record_type: RecordType,
    ) -> bool
        ensures { result
            ≡ list_any (λ r. has_owner r (option_copied hashed.entry)
            && denies_type self.now.apex r name.now record_type.0) self.now.records }
    {
        let apex = AskedName::of(self.apex);
        let asked = AskedName::of(name);
        self.records().any(|nsec3| nsec3.has_owner(hashed)
            && nsec3.denies_type(&apex, &asked, record_type))
    }

    /// Whether a record matches it and shows a delegation without DS.
    pub(crate) fn is_unsigned(&self, hashed: Option<&HashedOwner<'_>>) -> bool
        ensures { result
            ≡ list_any (λ r. has_owner r (option_copied hashed.entry) && is_of_unsigned r)
            self.now.records }
    {
        self.records()
            .any(|nsec3| nsec3.has_owner(hashed) && nsec3.is_of_unsigned())
    }

    /// Whether a record covers the name with this hashed owner. Fails only for lack of memory.
    pub(crate) fn is_covered(&self, hashed: Option<&HashedOwner<'_>>) -> Result<bool, ProtoError>
        ensures ok { IfOk result (λ covered. covered
            ≡ list_any (λ r. covers_owner self.now.apex r (option_copied hashed.entry))
            self.now.records) }
        ensures err { IsOkUnless result ProtoError.Memory }
    {
        for nsec3 in self.records() {
            if self.covers_owner(&nsec3, hashed)? {
                return Ok(true);
            }
        }
        Ok(false)
    }

    /// Whether a record covers it whose flag Opt-Out is set. Fails only for lack of memory.
    pub(crate) fn is_opted_out(&self, hashed: Option<&HashedOwner<'_>>) -> Result<bool, ProtoError>
        ensures ok { IfOk result (λ out. out
            ≡ list_any (λ r. covers_owner self.now.apex r (option_copied hashed.entry) && r.opt_out)
            self.now.records) }
        ensures err { IsOkUnless result ProtoError.Memory }
    {
        for nsec3 in self.records() {
            if self.covers_owner(&nsec3, hashed)? && nsec3.opt_out() {
                return Ok(true);
            }
        }
        Ok(false)
    }

    /// Whether this record covers it. Fails only for lack of memory.
    fn covers_owner(
        &self,
        nsec3: &LentNsec3<'_>,
        hashed: Option<&HashedOwner<'_>>,
    ) -> Result<bool, ProtoError>
        ensures ok { IfOk result (λ covers. covers
            ≡ covers_owner self.now.apex nsec3.now (option_copied hashed.entry)) }
        ensures err { IsOkUnless result ProtoError.Memory }
    {
        match hashed {
            Some(owner) => {
                let next = HashedOwner::of(self.apex, nsec3.next())?;
                Ok(owner.name().is_between(nsec3.owner(), &next.name()))
            }
            None => Ok(false),
        }
    }
}
