//! What a zone has at a name, and what stands above it.
ghost use Rattle.std.specs.Prelude.{◌≡◌, IfOk, IsOkUnless, option_copied};
ghost use Rattle.zone_proto.specs.Names.{is_at_or_above};
ghost use Rattle.zone_map.specs.Zones.{owns, set_at};
ghost use Rattle.zone_publication.specs.Names.{is_below, is_below_cut, is_below_dname, is_cut, is_dname};

use zone_map::RecordMap;
use zone_proto::{LowerName, ProtoError, RecordSet, RecordType, RrKey};

/// The sets of a zone and its origin.
#[derive(Clone, Copy)]
pub(crate) struct Zone<'z> {
    pub(crate) records: &'z RecordMap,
    pub(crate) origin: &'z LowerName,
}

impl<'z> Zone<'z> {
    /// The set of a name and a type, if there is one. Its only error is `Memory`.
    pub(crate) fn set_at(
        &self,
        name: &LowerName,
        record_type: RecordType,
    ) -> Result<Option<&'z RecordSet>, ProtoError>
        ensures ok { IfOk result
            (λ set. option_copied set ≡ set_at self.now.records.now name.now record_type.0) }
        ensures err { IsOkUnless result ProtoError.Memory }
    {
        let key = RrKey::new(name.clone()?, record_type);
        Ok(self.records.get(&key))
    }

    /// Whether a name owns a type. Its only error is `Memory`.
    pub(crate) fn owns(&self, name: &LowerName, record_type: RecordType) -> Result<bool, ProtoError>
        ensures ok { IfOk result
            (λ owned. owned ≡ owns self.now.records.now name.now record_type.0) }
        ensures err { IsOkUnless result ProtoError.Memory }
    {
        Ok(self.set_at(name, record_type)?.is_some())
    }

    /// Whether a name is at or below the origin.
    pub(crate) fn has(&self, name: &LowerName) -> bool
        ensures { result ≡ is_at_or_above self.now.origin.now name.now }
    {
        is_at_or_above(self.origin, name)
    }

    /// Whether a name is below the origin.
    pub(crate) fn is_below(&self, name: &LowerName) -> bool
        ensures { result ≡ is_below self.now.origin.now name.now }
    {
        self.has(name) && self.origin.num_labels() < name.num_labels()
    }

    /// Whether a name is a zone cut. Its only error is `Memory`.
    pub(crate) fn is_cut(&self, name: &LowerName) -> Result<bool, ProtoError>
        ensures ok { IfOk result
            (λ is. is ≡ is_cut self.now.origin.now self.now.records.now name.now) }
        ensures err { IsOkUnless result ProtoError.Memory }
    {
        if self.is_below(name) {
            self.owns(name, RecordType::NS)
        } else {
            Ok(false)
        }
    }

    /// Whether a zone cut is above a name. Its only error is `Memory`.
    #[tactic(auto, using(crate::proofs::Ancestors::next_cut, crate::proofs::Ancestors::at_cut))]
    pub(crate) fn is_below_cut(&self, name: &LowerName) -> Result<bool, ProtoError>
        ensures ok { IfOk result
            (λ is. is ≡ is_below_cut self.now.origin.now self.now.records.now name.now) }
        ensures err { IsOkUnless result ProtoError.Memory }
    {
        let mut ancestor = name.clone()?;
        while !ancestor.is_root() {
            ancestor.shorten();
            if self.is_cut(&ancestor)? {
                return Ok(true);
            }
        }
        Ok(false)
    }

    /// Whether a name of the zone owns a DNAME. Its only error is `Memory`.
    fn is_dname(&self, name: &LowerName) -> Result<bool, ProtoError>
        ensures ok { IfOk result
            (λ is. is ≡ is_dname self.now.origin.now self.now.records.now name.now) }
        ensures err { IsOkUnless result ProtoError.Memory }
    {
        if self.has(name) {
            self.owns(name, RecordType::DNAME)
        } else {
            Ok(false)
        }
    }

    /// Whether a DNAME of the zone is above a name. Its only error is `Memory`.
    #[tactic(auto, using(crate::proofs::Ancestors::next_dname, crate::proofs::Ancestors::at_dname))]
    pub(crate) fn is_below_dname(&self, name: &LowerName) -> Result<bool, ProtoError>
        ensures ok { IfOk result
            (λ is. is ≡ is_below_dname self.now.origin.now self.now.records.now name.now) }
        ensures err { IsOkUnless result ProtoError.Memory }
    {
        let mut ancestor = name.clone()?;
        while !ancestor.is_root() {
            ancestor.shorten();
            if self.is_dname(&ancestor)? {
                return Ok(true);
            }
        }
        Ok(false)
    }
}

/// Whether a name is at or above another.
pub(crate) fn is_at_or_above(ancestor: &LowerName, name: &LowerName) -> bool
    ensures { result ≡ is_at_or_above ancestor.now name.now }
{
    ancestor.zone_of(name)
}
