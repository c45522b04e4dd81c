//! Sets without their keys, lent in the order of the keys.
ghost use Rattle.std.specs.Prelude.{◌≡◌, length};
ghost use Rattle.std.specs.Iterator.{at_most};
ghost use Rattle.std.specs.Map.{values_of};
ghost use Rattle.std.specs.Map.Iter.{TakesFirst, deref};

use crate::set_range::SetRange;
use std::marker::Model;
use zone_proto::RecordSet;

/// Lends sets in the order of their keys. Takes no memory.
#[derive(Drop)]
pub struct SetValues<'m> {
    sets: SetRange<'m>,
}

impl<'m> Model for SetValues<'m> {
    ghost use Rattle.std.specs.Prelude.{List};
    ghost use Rattle.std.specs.Map.{values_of};
    ghost use Rattle.zone_proto.specs.Sets.{RRset};

    ghost Value = { List RRset };

    ghost view = { λ values. values_of values.sets };
}

impl<'m> SetValues<'m> {
    /// These sets without their keys.
    pub(crate) fn of_range(sets: SetRange<'m>) -> SetValues<'m>
        ensures { result ≡ values_of sets.entry }
    {
        SetValues { sets }
    }
}

impl<'m> Iterator for SetValues<'m> {
    type Item = &'m RecordSet;

    ghost next_gives = { TakesFirst deref };

    ghost remaining = { λ values. at_most (length values) };

    fn next(&mut self) -> Option<&'m RecordSet> {
        match self.sets.next() {
            Some((_, set)) => Some(set),
            None => None,
        }
    }

    fn size_hint(&self) -> (usize, Option<usize>) {
        self.sets.size_hint()
    }
}
