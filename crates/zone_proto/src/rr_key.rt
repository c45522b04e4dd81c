//! Keys of record sets, in their order.
ghost use Rattle.std.specs.Prelude.{◌≡◌, IfOk};
ghost use Rattle.zone_proto.specs.Keys.{key, first_key, key_eq, IsKeyInRange};
ghost use Rattle.zone_proto.specs.Names.{IsLowerName};
ghost use Rattle.zone_proto.specs.Results.{IsCopy};

use crate::error::ProtoError;
use crate::lower_name::LowerName;
use crate::record_type::RecordType;

/// The key of a record set in a zone: its owner name in lower case, and its type.
///
/// Keys are ordered by name, in the canonical order of RFC 4034 section 6.1, and then by the type's number.
#[derive(PartialEq, Eq, PartialOrd, Ord, Hash, Debug, Drop)]
pub struct RrKey {
    /// The owner name.
    pub name: LowerName,
    /// The type of the records.
    pub record_type: RecordType,
}

impl RrKey {
    /// The key of a name and a type. Doesn't allocate.
    pub fn new(name: LowerName, record_type: RecordType) -> RrKey
        ensures value { result ≡ key name record_type.0 }
        ensures named { IsLowerName result.name }
        ensures range { IsKeyInRange result }
    {
        name.into_key(record_type)
    }

    /// The key of a name and type 0. No key of the name, or of a name below it, comes before it, so what a map has of
    /// these stands from it on. Fails only for lack of memory.
    pub fn first_of(name: &LowerName) -> Result<RrKey, ProtoError>
        ensures copy { IsCopy result (first_key name.now) }
        ensures range { IfOk result (λ first. IsKeyInRange first) }
    {
        Ok(RrKey::new(name.clone()?, RecordType(0)))
    }

    /// Whether the keys are equal, as `==` says. The types are compared first, so that of keys of different types no name is
    /// looked at, whose octets stand elsewhere in memory.
    pub fn same_as(&self, other: &RrKey) -> bool
        ensures { result ≡ key_eq self.now other.now }
    {
        self.record_type == other.record_type && self.name == other.name
    }

    /// A copy of the key. Fails only for lack of memory.
    pub fn clone(&self) -> Result<RrKey, ProtoError>
        ensures copy { IsCopy result self.now }
        ensures range { IsKeyInRange self.now }
    {
        // The pattern says that the number is in range.
        let RecordType(number) = self.record_type;
        Ok(RrKey::new(self.name.clone()?, RecordType(number)))
    }
}
