//! The labels of a name, or of a name one label below it, without memory.
ghost use Rattle.std.specs.Prelude.{◌≡◌, ◌∷◌, length};
ghost use Rattle.std.specs.Iterator.{YieldsFirstBy, item_count};

use crate::labels_iter::Labels;
use std::marker::Model;

/// Lends the labels of a name, or of a name one label below it, leftmost first. Doesn't allocate.
#[derive(Debug, Drop)]
pub struct PrependedLabels<'n> {
    first: Option<&'n [u8]>,
    base: Labels<'n>,
}

impl<'n> Model for PrependedLabels<'n> {
    ghost use Rattle.std.specs.Prelude.{List, ℕ, ◌∷◌};
    ghost use Rattle.std.specs.Option.{option_map_or};

    ghost Value = { List (List ℕ) };

    ghost view = { λ a. option_map_or (λ l. l.now ∷ a.base) a.first a.base };
}

impl<'n> PrependedLabels<'n> {
    /// The labels alone, those of a name for one.
    pub fn new(labels: Labels<'n>) -> PrependedLabels<'n>
        ensures { result ≡ labels.entry }
    {
        PrependedLabels {
            first: None,
            base: labels,
        }
    }

    /// The labels with one more before the first, which may be any octets.
    pub fn with_first(first: &'n [u8], labels: Labels<'n>) -> PrependedLabels<'n>
        ensures { result ≡ first.now ∷ labels.entry }
    {
        PrependedLabels {
            first: Some(first),
            base: labels,
        }
    }

    /// The labels that are left, lent once more.
    pub fn clone(&self) -> PrependedLabels<'n>
        ensures { result ≡ self.now }
    {
        PrependedLabels {
            first: self.first,
            base: self.base.clone(),
        }
    }

    /// How many labels are left.
    pub fn len(&self) -> usize
        ensures { result ≡ length self.now }
    {
        if self.first.is_some() {
            self.base.len_below_max() + 1
        } else {
            self.base.len()
        }
    }
}

impl<'n> Iterator for PrependedLabels<'n> {
    type Item = &'n [u8];

    ghost next_gives = { YieldsFirstBy (λ x. x.now) (λ s. s) };

    ghost remaining = { item_count (λ s. s) };

    fn next(&mut self) -> Option<&'n [u8]> {
        match self.first.take() {
            Some(first) => Some(first),
            None => self.base.next(),
        }
    }
}
