//! The owners of sets, put among names.
ghost use Rattle.std.specs.Prelude.{◌≡◌, ◌-◌, ◌||◌, false, length, slice_get, OnOk, IsOkUnless};
ghost use Rattle.std.specs.Option.{option_map_or};
ghost use Rattle.zone_proto.specs.Names.{Name, name_eq};
ghost use Rattle.zone_map.specs.Zones.{names_of};
ghost use Rattle.update_in_place.specs.Parts.{is_among};

use zone_map::RecordMap;
use zone_proto::{LowerName, ProtoError};

/// Puts the owners of these sets behind names. Refused by `Memory` alone.
pub fn push_owners(sets: &RecordMap, names: &mut Vec<LowerName>) -> Result<(), ProtoError>
    ensures ok { OnOk result ((n : Name) → is_among names.new.items n
        ≡ (is_among names.old.items n || is_among (names_of sets.now) n)) }
    ensures err { IsOkUnless result ProtoError.Memory }
{
    for (key, _) in sets.iter() {
        push_once(&key.name, names)?;
    }
    Ok(())
}

/// Puts a name behind others, unless it is the last of them. Refused by `Memory` alone.
pub fn push_once(name: &LowerName, names: &mut Vec<LowerName>) -> Result<(), ProtoError>
    ensures ok { OnOk result ((n : Name) → is_among names.new.items n
        ≡ (is_among names.old.items n || name_eq n name.now)) }
    ensures err { IsOkUnless result ProtoError.Memory }
{
    if is_last(names.as_slice(), name) {
        return Ok(());
    }
    names.push(name.clone()?)?;
    Ok(())
}

/// Whether a name is the last of these.
fn is_last(names: &[LowerName], name: &LowerName) -> bool
    ensures { result
        ≡ option_map_or (name_eq name.now) (slice_get names.now (length names.now - 1)) false }
{
    match names.last() {
        Some(last) => name == last,
        None => false,
    }
}
