//! A map of the sets of a list, which are moved there one after the other, so that they can go back.
ghost use Rattle.std.specs.Prelude.{◌≡◌, ◌++◌, ◌+◌, ◌≤◌, vec_len, vec_capacity, length, IfOk, IfErr, OnOk, OnErr};
ghost use Rattle.std.specs.List.Sorted.{IsStrictlySortedBy};
ghost use Rattle.std.specs.Map.{keys_of};
ghost use Rattle.zone_proto.specs.Keys.{key_cmp};

use std::alloc::{AllocError, Global};
use std::collections::BTreeMap;
use zone_proto::{RecordSet, RrKey};

/// The map of the sets of a list in the order of their keys. Without memory for it the list is handed back.
pub(crate) fn thawed(
    alloc: Global,
    mut rows: Vec<(RrKey, RecordSet)>,
) -> Result<BTreeMap<RrKey, RecordSet>, Vec<(RrKey, RecordSet)>>
    requires { IsStrictlySortedBy key_cmp (keys_of rows.items) }
    ensures ok { IfOk result (λ map. map.entries ≡ rows.items) }
    ensures same { IfErr result (λ left. left.items ≡ rows.items) }
{
    let mut map = BTreeMap::new(alloc);
    match move_rows(&mut rows, &mut map) {
        Ok(()) => Ok(map),
        Err(_) => {
            move_back(&mut rows, map);
            Err(rows)
        }
    }
}

/// Moves the sets of a list, the last one first, to a map of those that come after them. Where memory is wanting, the others stay in
/// the list.
fn move_rows(
    rows: &mut Vec<(RrKey, RecordSet)>,
    map: &mut BTreeMap<RrKey, RecordSet>,
) -> Result<(), AllocError>
    requires ordered { IsStrictlySortedBy key_cmp (keys_of (rows.old.items ++ map.old.entries)) }
    requires room { vec_len rows.old + length map.old.entries ≤ vec_capacity rows.old }
    ensures same { rows.new.items ++ map.new.entries ≡ rows.old.items ++ map.old.entries }
    ensures moved { OnOk result (map.new.entries ≡ rows.old.items ++ map.old.entries) }
    ensures room { vec_len rows.new + length map.new.entries ≤ vec_capacity rows.new }
{
    while let Some((key, set)) = rows.pop() {
        if let Err(failed) = map.insert(key, set) {
            rows.push_reserved(failed.value);
            return Err(AllocError);
        }
    }
    Ok(())
}

/// Moves the sets of a map behind those of a list, which has room for them.
fn move_back(rows: &mut Vec<(RrKey, RecordSet)>, mut map: BTreeMap<RrKey, RecordSet>)
    requires { vec_len rows.old + length map.entries ≤ vec_capacity rows.old }
    ensures { rows.new.items ≡ rows.old.items ++ map.entries }
{
    while let Some(row) = map.pop_first() {
        rows.push_reserved(row);
    }
}
