//! The labels of a name, without memory.
ghost use Rattle.std.specs.Prelude.{◌≡◌, ◌++◌, ◌+◌, ◌^◌, ◌<◌, length};
ghost use Rattle.std.specs.Iterator.{YieldsFirstBy, item_count};
ghost use Rattle.zone_proto.specs.Counting.{counted_name, IsCounting};
ghost use Rattle.zone_proto.specs.Packing.{name_of, IsPacking};
ghost use Rattle.zone_proto.specs.Vectors.{octets_of};

use crate::counted::{count_counted, split_counted};
use crate::packed::{count_labels, split_label};
use std::marker::Model;

/// Lends the labels of a name, leftmost first. Doesn't allocate.
#[derive(Debug, Drop)]
pub struct Labels<'n> {
    listed: &'n [Vec<u8>],
    packed: &'n [u8],
    counted: &'n [u8],
}

impl<'n> Model for Labels<'n> {
    ghost use Rattle.std.specs.Prelude.{List, ℕ, ◌++◌};
    ghost use Rattle.zone_proto.specs.Counting.{counted_name, IsCounting};
    ghost use Rattle.zone_proto.specs.Packing.{name_of, IsPacking};
    ghost use Rattle.zone_proto.specs.Vectors.{octets_of};

    ghost Value = { List (List ℕ) };

    ghost view = { λ s. octets_of s.listed.now
        ++ (name_of s.packed.now ++ counted_name s.counted.now) };

    ghost invariant = { λ s. IsPacking s.packed.now (name_of s.packed.now)
        × IsCounting s.counted.now (counted_name s.counted.now) };
}

impl<'n> Labels<'n> {
    /// The labels of a list.
    pub(crate) fn of_list(listed: &'n [Vec<u8>]) -> Labels<'n>
        ensures { result ≡ octets_of listed.now }
    {
        Labels {
            listed,
            packed: &[],
            counted: &[],
        }
    }

    /// The labels of a name in one piece.
    pub(crate) fn of_piece(packed: &'n [u8]) -> Labels<'n>
        requires { IsPacking packed.now (name_of packed.now) }
        ensures { result ≡ name_of packed.now }
    {
        Labels {
            listed: &[],
            packed,
            counted: &[],
        }
    }

    /// The labels of a name whose labels come after their lengths.
    pub(crate) fn of_counted(counted: &'n [u8]) -> Labels<'n>
        requires { IsCounting counted.now (counted_name counted.now) }
        ensures { result ≡ counted_name counted.now }
    {
        Labels {
            listed: &[],
            packed: &[],
            counted,
        }
    }

    /// The labels that are left, lent once more.
    pub fn clone(&self) -> Labels<'n>
        ensures { result ≡ self.now }
    {
        Labels {
            listed: self.listed,
            packed: self.packed,
            counted: self.counted,
        }
    }

    /// How many labels are left.
    pub fn len(&self) -> usize
        ensures { result ≡ length self.now }
    {
        self.len_below_max()
    }

    /// How many labels are left: one more can be counted.
    pub(crate) fn len_below_max(&self) -> usize
        ensures count { result ≡ length self.now }
        ensures room { result + 1 < 2 ^ 64 }
    {
        self.listed.len() + count_labels(self.packed) + count_counted(self.counted)
    }
}

impl<'n> Iterator for Labels<'n> {
    type Item = &'n [u8];

    ghost next_gives = { YieldsFirstBy (λ x. x.now) (λ s. s) };

    ghost remaining = { item_count (λ s. s) };

    fn next(&mut self) -> Option<&'n [u8]> {
        if let Some((first, rest)) = self.listed.split_first() {
            self.listed = rest;
            return Some(first);
        }
        if let Some((first, rest)) = split_label(self.packed) {
            self.packed = rest;
            return Some(first);
        }
        let (first, rest) = split_counted(self.counted)?;
        self.counted = rest;
        Some(first)
    }
}
