// Names as the records of a denial and a question have them, compared without memory.
ghost use Rattle.std.specs.Prelude.{◌≡◌, ◌∷◌};
ghost use Rattle.zone_proto.specs.Names.{lower, name_cmp, name_eq, is_above, is_at_or_above, is_root, wildcard_under};
ghost use Rattle.zone_proto.specs.Order.{is_before, is_upto};
ghost use Rattle.denial_validation.specs.Nsec3Proofs.{goes_over};

use std::cmp::Ordering;
use std::marker::Model;
use zone_proto::{Labels, LowerName, Name, PrependedLabels, compare_labels, labels_are_above};

/// A name, or one a label below it, lent; contracts see it in lower case.
#[derive(Drop)]
pub(crate) struct AskedName<'n> {
    labels: PrependedLabels<'n>,
}

impl<'n> Model for AskedName<'n> {
    ghost use Rattle.std.specs.Prelude.{List, ℕ};
    ghost use Rattle.zone_proto.specs.Names.{lower};

    ghost Value = { List (List ℕ) };

    ghost view = { λ n. lower n.labels };
}

impl<'n> AskedName<'n> {
    /// The name itself.
    pub(crate) fn of(name: &'n LowerName) -> AskedName<'n>
        ensures { result ≡ name.now }
    {
        AskedName {
            labels: PrependedLabels::new(name.labels()),
        }
    }

    /// Any name, the case of its letters ignored.
    pub(crate) fn of_any(name: &'n Name) -> AskedName<'n>
        ensures { result ≡ lower name.now }
    {
        AskedName {
            labels: PrependedLabels::new(name.labels()),
        }
    }

    /// The name whose labels are left.
    pub(crate) fn of_labels(labels: Labels<'n>) -> AskedName<'n>
        ensures { result ≡ lower labels.entry }
    {
        AskedName {
            labels: PrependedLabels::new(labels),
        }
    }

    /// The wildcard at it (RFC 4592 section 2.1.1).
    pub(crate) fn wildcard_under(base: Labels<'n>) -> AskedName<'n>
        ensures { result ≡ wildcard_under (lower base.entry) }
    {
        AskedName {
            labels: PrependedLabels::with_first(b"*", base),
        }
    }

    /// The name with this label before the labels of another.
    pub(crate) fn below(first: &'n [u8], base: Labels<'n>) -> AskedName<'n>
        ensures { result ≡ lower (first.now ∷ base.entry) }
    {
        AskedName {
            labels: PrependedLabels::with_first(first, base),
        }
    }

    /// The canonical order (RFC 4034 section 6.1).
    fn compare(&self, other: &AskedName<'_>) -> Ordering
        ensures { result ≡ name_cmp self.now other.now }
    {
        compare_labels(self.labels.clone(), other.labels.clone())
    }

    /// Whether they are the same name.
    pub(crate) fn equals(&self, other: &AskedName<'_>) -> bool
        ensures { result ≡ name_eq self.now other.now }
    {
        self.compare(other).is_eq()
    }

    /// Whether this name comes before the other.
    pub(crate) fn is_before(&self, other: &AskedName<'_>) -> bool
        ensures { result ≡ is_before name_cmp self.now other.now }
    {
        self.compare(other).is_lt()
    }

    /// Whether this name is the other or comes before it.
    fn is_upto(&self, other: &AskedName<'_>) -> bool
        ensures { result ≡ is_upto name_cmp self.now other.now }
    {
        self.compare(other).is_le()
    }

    /// Whether it stands between an owner and the next one, or past the ends of the last pair, whose next is the first (RFC 5155
    /// section 1.3).
    pub(crate) fn is_between(&self, owner: &AskedName<'_>, next: &AskedName<'_>) -> bool
        ensures { result ≡ goes_over owner.now next.now self.now }
    {
        (owner.is_before(self) && self.is_before(next))
            || (next.is_upto(owner) && (owner.is_before(self) || self.is_before(next)))
    }

    /// Whether it is the root.
    pub(crate) fn is_root(&self) -> bool
        ensures { result ≡ is_root self.now }
    {
        self.labels.len() == 0
    }

    /// Whether the other name is this one or below it.
    pub(crate) fn is_at_or_above(&self, other: &AskedName<'_>) -> bool
        ensures { result ≡ is_at_or_above self.now other.now }
    {
        labels_are_above(self.labels.clone(), other.labels.clone())
    }

    /// Whether the other name is below this one.
    pub(crate) fn is_above(&self, other: &AskedName<'_>) -> bool
        ensures { result ≡ is_above self.now other.now }
    {
        let mut parent = other.labels.clone();
        parent.next().is_some() && labels_are_above(self.labels.clone(), parent)
    }
}
