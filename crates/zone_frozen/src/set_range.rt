//! The sets from a key on, of a map or of a list, lent in the order of their keys.
ghost use Rattle.std.specs.Prelude.{◌≡◌, length, ⊤};
ghost use Rattle.std.specs.Iterator.{at_most};
ghost use Rattle.std.specs.List.Sorted.{IsStrictlySortedBy};
ghost use Rattle.std.specs.Map.{keys_of};
ghost use Rattle.std.specs.Map.Iter.{TakesFirst, deref_pair};
ghost use Rattle.zone_proto.specs.Keys.{key_cmp};

use std::alloc::AllocError;
use std::collections::BTreeMap;
use std::collections::btree_map::Range;
use std::marker::Model;
use zone_proto::{RecordSet, RrKey};

/// Lends sets by their keys, in the order of the keys. Takes no memory.
#[derive(Drop)]
pub struct SetRange<'m> {
    left: Left<'m>,
}

/// The sets that are left.
#[derive(Drop)]
pub(crate) enum Left<'m> {
    /// Those of a map.
    Tree(Range<'m, RrKey, RecordSet>),
    /// Those of a list.
    Row(&'m [(RrKey, RecordSet)]),
}

impl<'m> Model for SetRange<'m> {
    ghost use Rattle.zone_frozen.specs.Sets.{Sets};
    ghost use Rattle.zone_frozen.specs.Ranges.{sets_left};

    ghost Value = { Sets };

    ghost view = { λ range. sets_left range.left };
}

impl<'m> SetRange<'m> {
    /// All sets of a map.
    pub fn of_map(map: &'m BTreeMap<RrKey, RecordSet>) -> SetRange<'m>
        ensures sets { result ≡ map.now.entries }
        ensures ordered { IsStrictlySortedBy key_cmp (keys_of map.now.entries) }
    {
        SetRange::of_tree(map.range(..))
    }

    /// The sets that are left of a map.
    pub(crate) fn of_tree(range: Range<'m, RrKey, RecordSet>) -> SetRange<'m>
        ensures { result ≡ range.entry }
    {
        SetRange {
            left: Left::Tree(range),
        }
    }

    /// The sets of a list.
    pub(crate) fn of_rows(rows: &'m [(RrKey, RecordSet)]) -> SetRange<'m>
        ensures { result ≡ rows.now }
    {
        SetRange {
            left: Left::Row(rows),
        }
    }
}

impl<'m> Clone for SetRange<'m> {
    ghost is_clone = { λ range copy. copy ≡ range };

    ghost is_infallible = { λ _. ⊤ };

    fn clone(&self) -> Result<SetRange<'m>, AllocError> {
        match &self.left {
            Left::Tree(range) => Ok(SetRange::of_tree(range.clone()?)),
            Left::Row(rows) => Ok(SetRange::of_rows(rows)),
        }
    }
}

impl<'m> Iterator for SetRange<'m> {
    type Item = (&'m RrKey, &'m RecordSet);

    ghost next_gives = { TakesFirst deref_pair };

    ghost remaining = { λ range. at_most (length range) };

    fn next(&mut self) -> Option<(&'m RrKey, &'m RecordSet)> {
        match &mut self.left {
            Left::Tree(range) => range.next(),
            Left::Row(rows) => first_of(rows),
        }
    }

    fn size_hint(&self) -> (usize, Option<usize>) {
        match &self.left {
            Left::Tree(range) => range.size_hint(),
            Left::Row(rows) => (rows.len(), Some(rows.len())),
        }
    }
}

/// Takes the first set of a list.
fn first_of<'m>(rows: &mut &'m [(RrKey, RecordSet)]) -> Option<(&'m RrKey, &'m RecordSet)>
    ensures { TakesFirst deref_pair rows.old.now result rows.new.now }
{
    let (first, rest) = rows.split_first()?;
    *rows = rest;
    Some((&first.0, &first.1))
}
