//! Iterators over the owners of the sets of denial.
ghost use Rattle.std.specs.Prelude.{◌≡◌, [], is_some, unwrap_or, ⊤};
ghost use Rattle.std.specs.Iterator.{YieldsFirstRef, item_count};
ghost use Rattle.std.specs.Map.Iter.{TakesLast, deref};
ghost use Rattle.zone_map.specs.Counts.{one_more_if};

use crate::counter::Reads;
use std::alloc::AllocError;
use std::collections::btree_set::{Iter, Range};
use std::marker::Model;
use zone_proto::LowerName;

/// Lends the owners of the sets of one type of denial, NSEC or NSEC3, in canonical order (RFC 4034 section 6.1), each
/// once. Doesn't allocate.
#[derive(Drop)]
pub struct DenialOwners<'m> {
    /// None for a type that isn't one of denial.
    left: Option<Iter<'m, LowerName>>,
}

impl<'m> DenialOwners<'m> {
    /// These owners, or none.
    pub(crate) fn new(left: Option<Iter<'m, LowerName>>) -> DenialOwners<'m>
        ensures { result ≡ unwrap_or left.entry [] }
    {
        DenialOwners { left }
    }
}

impl<'m> Model for DenialOwners<'m> {
    ghost use Rattle.std.specs.Prelude.{List, [], unwrap_or};
    ghost use Rattle.zone_proto.specs.Names.{Name};

    ghost Value = { List Name };

    ghost view = { λ owners. unwrap_or owners.left [] };
}

impl<'m> Clone for DenialOwners<'m> {
    ghost is_clone = { λ owners copy. copy ≡ owners };

    ghost is_infallible = { λ _. ⊤ };

    fn clone(&self) -> Result<DenialOwners<'m>, AllocError> {
        match &self.left {
            Some(left) => Ok(DenialOwners::new(Some(left.clone()?))),
            None => Ok(DenialOwners::new(None)),
        }
    }
}

impl<'m> Iterator for DenialOwners<'m> {
    type Item = &'m LowerName;

    ghost next_gives = { YieldsFirstRef (λ s. s) };

    ghost remaining = { item_count (λ s. s) };

    fn next(&mut self) -> Option<&'m LowerName> {
        match &mut self.left {
            Some(left) => left.next(),
            None => None,
        }
    }

    fn size_hint(&self) -> (usize, Option<usize>) {
        match &self.left {
            Some(left) => left.size_hint(),
            None => (0, Some(0)),
        }
    }
}

/// The owners of sets of denial in front of a name, to be read from the last one back.
#[derive(Drop)]
pub struct LastOwners<'m> {
    /// None for a type that isn't one of denial.
    left: Option<Range<'m, LowerName>>,
}

impl<'m> Model for LastOwners<'m> {
    ghost use Rattle.std.specs.Prelude.{List, [], unwrap_or};
    ghost use Rattle.zone_proto.specs.Names.{Name};

    ghost Value = { List Name };

    ghost view = { λ owners. unwrap_or owners.left [] };
}

impl<'m> LastOwners<'m> {
    /// These owners, or none.
    pub(crate) fn new(left: Option<Range<'m, LowerName>>) -> LastOwners<'m>
        ensures { result ≡ unwrap_or left.entry [] }
    {
        LastOwners { left }
    }

    /// Takes the last owner of those that are left, if there is one, and counts it. Doesn't allocate.
    pub fn read_last(&mut self, reads: &mut Reads) -> Option<&'m LowerName>
        ensures last { TakesLast deref self.old result self.new }
        ensures counted { reads.new ≡ one_more_if (is_some result) reads.old }
    {
        let last = match &mut self.left {
            Some(left) => left.next_back(),
            None => None,
        };
        if last.is_some() {
            reads.add_one();
        }
        last
    }
}
