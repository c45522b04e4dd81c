//! The records that a zone is made of, by the sets that they are of, or sign.
ghost use Rattle.std.specs.Prelude.{◌≡◌, ◌++◌, ◌∷◌, ◌&&◌, [], not, filter, IfOk, OnOk, IsOkUnless};
ghost use Rattle.zone_proto.specs.declared.rr_key.RrKey.{RrKey as Key};
ghost use Rattle.zone_proto.specs.Keys.{key_eq};
ghost use Rattle.zone_proto.specs.Names.{is_at_or_above, IsName};
ghost use Rattle.zone_builder.specs.Groups.{all_records_in, all_signatures_in, records_in, signatures_in, AreNamed, AreOrdered};
ghost use Rattle.zone_builder.specs.Records.{is_data_of, is_signature, is_signature_of, set_key, set_type};
ghost use Rattle.zone_builder.specs.Warnings.{outside_warnings};

use crate::given::{GivenRecord, RecordAt};
use crate::groups::{Group, ordered, put_behind};
use crate::warning::LoadWarning;
use std::alloc::Global;
use zone_proto::{LowerName, ProtoError, RData, Record, RecordType, RrKey};

/// The records at or below an origin, by the key of the set that they are of or, as signatures, cover, in the order of
/// the keys. The others are left out, each with a warning. Its only error is `Memory`.
pub(crate) fn grouped(
    alloc: Global,
    origin: &LowerName,
    records: Vec<GivenRecord>,
    warnings: &mut Vec<LoadWarning>,
) -> Result<Vec<(RrKey, Group)>, ProtoError>
    ensures records { IfOk result
        (λ groups. (k : Key)
        → records_in groups.items k ≡ filter (is_data_of origin.now k) records.items) }
    ensures signatures { IfOk result
        (λ groups. (k : Key)
        → signatures_in groups.items k ≡ filter (is_signature_of origin.now k) records.items) }
    ensures named { IfOk result (λ groups. AreNamed groups.items) }
    ensures ordered { IfOk result (λ groups. AreOrdered groups.items) }
    ensures warned { OnOk result
        (warnings.new.items ≡ warnings.old.items ++ outside_warnings origin.now records.items) }
    ensures err { IsOkUnless result ProtoError.Memory }
{
    let groups = in_turn(alloc, origin, records, warnings)?;
    ordered(alloc, groups)
}

/// The same in the order of the records: those that stand together and have one key are one group.
fn in_turn(
    alloc: Global,
    origin: &LowerName,
    records: Vec<GivenRecord>,
    warnings: &mut Vec<LoadWarning>,
) -> Result<Vec<(RrKey, Group)>, ProtoError>
    ensures records { IfOk result
        (λ groups. (k : Key)
        → all_records_in groups.items k ≡ filter (is_data_of origin.now k) records.items) }
    ensures signatures { IfOk result
        (λ groups. (k : Key)
        → all_signatures_in groups.items k
        ≡ filter (is_signature_of origin.now k) records.items) }
    ensures named { IfOk result (λ groups. AreNamed groups.items) }
    ensures warned { OnOk result
        (warnings.new.items ≡ warnings.old.items ++ outside_warnings origin.now records.items) }
    ensures err { IsOkUnless result ProtoError.Memory }
{
    let mut groups = Vec::new(alloc);
    for given in records {
        take(origin, &mut groups, given, warnings)?;
    }
    Ok(groups)
}

/// Appends a record to others, or warns of one that is outside of the zone.
fn take(
    origin: &LowerName,
    groups: &mut Vec<(RrKey, Group)>,
    given: GivenRecord,
    warnings: &mut Vec<LoadWarning>,
) -> Result<(), ProtoError>
    ensures records { OnOk result
        ((k : Key)
        → all_records_in groups.new.items k
        ≡ all_records_in groups.old.items k ++ filter (is_data_of origin.now k) (given ∷ [])) }
    ensures signatures { OnOk result
        ((k : Key)
        → all_signatures_in groups.new.items k
        ≡ all_signatures_in groups.old.items k
        ++ filter (is_signature_of origin.now k) (given ∷ [])) }
    ensures named { OnOk result (AreNamed groups.old.items → AreNamed groups.new.items) }
    ensures warned { OnOk result
        (warnings.new.items ≡ warnings.old.items ++ outside_warnings origin.now (given ∷ [])) }
    ensures err { IsOkUnless result ProtoError.Memory }
{
    let key = set_key(&given.record)?;
    if !is_within(origin, &key.name) {
        warnings.push(LoadWarning::Outside(RecordAt::of(&given)?))?;
        return Ok(());
    }
    put_record(groups, key, given)
}

/// Whether a name is at or below an origin.
pub(crate) fn is_within(origin: &LowerName, name: &LowerName) -> bool
    ensures { result ≡ is_at_or_above origin.now name.now }
{
    origin.zone_of(name)
}

/// The key of the set that a record is of or, as a signature, covers. Its only error is `Memory`.
fn set_key(given: &Record) -> Result<RrKey, ProtoError>
    ensures ok { IfOk result (λ k. k ≡ set_key given.now) }
    ensures named { IfOk result (λ k. IsName k.name) }
    ensures err { IsOkUnless result ProtoError.Memory }
{
    Ok(RrKey::new(LowerName::new(&given.name)?, set_type(&given.rdata)))
}

/// The type of the data, or of the set that a signature covers (RFC 4034 section 3.1.1).
fn set_type(rdata: &RData) -> RecordType
    ensures { result.0 ≡ set_type rdata.now }
{
    match rdata {
        RData::RRSIG(signature) => signature.type_covered,
        data => data.record_type(),
    }
}

/// Appends a record under a key to others.
fn put_record(
    groups: &mut Vec<(RrKey, Group)>,
    key: RrKey,
    given: GivenRecord,
) -> Result<(), ProtoError>
    requires { IsName key.name }
    ensures records { OnOk result
        ((k : Key)
        → all_records_in groups.new.items k
        ≡ all_records_in groups.old.items k
        ++ filter (λ g. not (is_signature g.record.rdata) && key_eq key k) (given ∷ [])) }
    ensures signatures { OnOk result
        ((k : Key)
        → all_signatures_in groups.new.items k
        ≡ all_signatures_in groups.old.items k
        ++ filter (λ g. is_signature g.record.rdata && key_eq key k) (given ∷ [])) }
    ensures named { OnOk result (AreNamed groups.old.items → AreNamed groups.new.items) }
    ensures err { IsOkUnless result ProtoError.Memory }
{
    let group = Group::of(key.name.alloc(), given)?;
    put_behind(groups, key, group)
}
