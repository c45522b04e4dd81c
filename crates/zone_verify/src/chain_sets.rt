//! The sets of a zone without those of denial that don't belong to its chain.
ghost use Rattle.std.specs.Prelude.{◌≡◌, IfOk, IsOkUnless, option_copied};
ghost use Rattle.zone_proto.specs.Names.{Name as NameLabels};
ghost use Rattle.zone_map.specs.Zones.{set_at, owns};
ghost use Rattle.zone_denial.specs.Chains.{stays};
ghost use Rattle.zone_verify.specs.ChainSets.{kind_of, sets_of};

use zone_denial::chain_sets::has_parameters;
use zone_map::RecordMap;
use zone_proto::{LowerName, NSEC3PARAM, ProtoError, RecordSet, RecordType, RrKey};

/// The sets of a zone that stay where only those of its chain deny: of the chain of NSEC sets, or of the chain of NSEC3 sets with
/// these parameters.
#[derive(Clone, Copy, Drop)]
pub(crate) struct ChainSets<'z> {
    pub(crate) records: &'z RecordMap,
    pub(crate) parameters: Option<&'z NSEC3PARAM>,
}

impl<'z> ChainSets<'z> {
    /// Whether a set stays.
    pub(crate) fn has(&self, record_type: RecordType, set: &RecordSet) -> bool
        ensures { result
            ≡ stays (kind_of (option_copied self.now.parameters)) record_type.0 set.now }
    {
        match record_type {
            RecordType::NSEC => self.parameters.is_none(),
            RecordType::NSEC3 => match self.parameters {
                Some(parameters) => has_parameters(
                    parameters.algorithm,
                    parameters.salt.as_slice(),
                    parameters.iterations,
                    set,
                ),
                None => false,
            },
            _ => true,
        }
    }

    /// The set of a name and a type, if one stays. Its only error is `Memory`.
    pub(crate) fn get(
        &self,
        name: &LowerName,
        record_type: RecordType,
    ) -> Result<Option<&'z RecordSet>, ProtoError>
        ensures ok { IfOk result
            (λ found. option_copied found ≡ set_at (sets_of self.now) name.now record_type.0) }
        ensures err { IsOkUnless result ProtoError.Memory }
    {
        let key = RrKey::new(name.clone()?, record_type);
        Ok(self.at(&key))
    }

    /// The set of a key, if one stays.
    pub(crate) fn at(&self, key: &RrKey) -> Option<&'z RecordSet>
        ensures { option_copied result
            ≡ set_at (sets_of self.now) key.now.name key.now.record_type.0 }
    {
        // Its keys ascend, so what a lookup finds is all there is.
        let _sets = self.records.as_map();
        match self.records.get(key) {
            Some(set) => {
                if self.has(key.record_type, set) {
                    Some(set)
                } else {
                    None
                }
            }
            None => None,
        }
    }

    /// Whether a name owns a type. Its only error is `Memory`.
    pub(crate) fn owns(&self, name: &LowerName, record_type: RecordType) -> Result<bool, ProtoError>
        ensures ok { IfOk result
            (λ owned. owned ≡ owns (sets_of self.now) name.now record_type.0) }
        ensures err { IsOkUnless result ProtoError.Memory }
    {
        Ok(self.get(name, record_type)?.is_some())
    }

    /// Whether a name owns a type in the zone, among the sets that stay or beside them. Its only error is `Memory`.
    pub(crate) fn owns_beside(
        &self,
        name: &LowerName,
        record_type: RecordType,
    ) -> Result<bool, ProtoError>
        ensures ok { IfOk result
            (λ owned. owned ≡ owns self.now.records.now name.now record_type.0) }
        ensures err { IsOkUnless result ProtoError.Memory }
    {
        let key = RrKey::new(name.clone()?, record_type);
        Ok(self.records.get(&key).is_some())
    }
}
