//! The canonical order of names (RFC 4034 section 6.1), and their equality.
ghost use Rattle.std.specs.Prelude.{◌≡◌, ◌↔◌, map, length, drop, IsTrue};
ghost use Rattle.std.specs.Char.{to_ascii_lowercase};
ghost use Rattle.std.specs.Cmp.{partial_order_from_total, partial_equiv_from_equiv};
ghost use Rattle.std.specs.Cmp.Lexicographic.{slice_cmp};
ghost use Rattle.std.specs.Ordering.{as_partial_cmp, eq_by_cmp, nat_cmp};
ghost use Rattle.std.proofs.Common.{refl};
ghost use Rattle.zone_proto.specs.Names.{name_cmp, caseless_cmp, lower, IsAtOrAbove, SharesLabels};
ghost use Rattle.zone_proto.specs.NameLaws.{name_cmp_total, name_eq_equiv, caseless_cmp_total, caseless_eq_equiv};

use crate::labels_iter::Labels;
use crate::lower_name::LowerName;
use crate::name::Name;
use crate::prepended_labels::PrependedLabels;
use std::cmp::Ordering;

/// Names are equal if they differ in the case of ASCII letters alone.
impl PartialEq for Name {
    ghost eq = { eq_by_cmp caseless_cmp };

    ghost laws = { partial_equiv_from_equiv caseless_eq_equiv };

    fn eq(&self, other: &Name) -> bool {
        self.cmp(other).is_eq()
    }
}

impl Eq for Name {
    ghost laws = { caseless_eq_equiv };
}

impl PartialOrd for Name {
    ghost partial_cmp = { as_partial_cmp caseless_cmp };

    ghost laws = { partial_order_from_total caseless_cmp_total };

    fn partial_cmp(&self, other: &Name) -> Option<Ordering> {
        Some(self.cmp(other))
    }
}

/// The canonical order, ignoring case.
impl Ord for Name {
    ghost cmp = { caseless_cmp };

    ghost total = { caseless_cmp_total };

    ghost matches_partial_cmp = { λ x y. refl };

    ghost matches_eq = { λ x y. refl };

    fn cmp(&self, other: &Name) -> Ordering {
        self.form().compare_caseless(other.form())
    }
}

/// Names in lower case are equal if they are identical.
impl PartialEq for LowerName {
    ghost eq = { eq_by_cmp name_cmp };

    ghost laws = { partial_equiv_from_equiv name_eq_equiv };

    fn eq(&self, other: &LowerName) -> bool {
        self.cmp(other).is_eq()
    }
}

impl Eq for LowerName {
    ghost laws = { name_eq_equiv };
}

impl PartialOrd for LowerName {
    ghost partial_cmp = { as_partial_cmp name_cmp };

    ghost laws = { partial_order_from_total name_cmp_total };

    fn partial_cmp(&self, other: &LowerName) -> Option<Ordering> {
        Some(self.cmp(other))
    }
}

/// The canonical order.
impl Ord for LowerName {
    ghost cmp = { name_cmp };

    ghost total = { name_cmp_total };

    ghost matches_partial_cmp = { λ x y. refl };

    ghost matches_eq = { λ x y. refl };

    fn cmp(&self, other: &LowerName) -> Ordering {
        self.form().compare(other.form())
    }
}

/// The canonical order of two lists of labels, ignoring case: the rightmost first (RFC 4034 section 6.1). Doesn't
/// allocate.
pub fn compare_labels(a: PrependedLabels<'_>, b: PrependedLabels<'_>) -> Ordering
    ensures { result ≡ caseless_cmp a.entry b.entry }
{
    let i = a.len();
    let j = b.len();
    let shared = i.min(j);
    compare_alike(skip(a, i - shared), skip(b, j - shared)).then(i.cmp(&j))
}

/// Whether the labels of `a` are the last of `b`, ignoring case: the name `b` is `a` or below it. Doesn't allocate.
pub fn labels_are_above(a: PrependedLabels<'_>, b: PrependedLabels<'_>) -> bool
    ensures { IsTrue result ↔ IsAtOrAbove (lower a.entry) (lower b.entry) }
{
    let i = a.len();
    let j = b.len();
    if i > j {
        return false;
    }
    compare_alike(a, skip(b, j - i)).is_eq()
}

/// How many last labels two lists of labels in lower case share: the first of the one are taken away until the others are the
/// last of the other.
pub(crate) fn count_shared(a: PrependedLabels<'_>, b: PrependedLabels<'_>) -> usize
    requires own { lower a ≡ a }
    requires other { lower b ≡ b }
    ensures { SharesLabels a.entry b.entry result }
{
    let mut rest = a;
    while !labels_are_above(rest.clone(), b.clone()) {
        let _ = rest.next();
    }
    rest.len()
}

/// Whether the labels are identical, the case of letters included.
pub(crate) fn labels_are_same(a: Labels<'_>, b: Labels<'_>) -> bool
    ensures { IsTrue result ↔ (a.entry ≡ b.entry) }
{
    let mut others = b;
    for label in a {
        let Some(other) = others.next() else {
            return false;
        };
        if label != other {
            return false;
        }
    }
    others.next().is_none()
}

/// The labels after the first ones.
fn skip<'n>(labels: PrependedLabels<'n>, count: usize) -> PrependedLabels<'n>
    ensures { result ≡ drop count labels.entry }
{
    let mut rest = labels;
    for i in 0..count {
        let _ = rest.next();
    }
    rest
}

/// The canonical order of as many labels, ignoring case. A label further right decides before one further left.
fn compare_alike(a: PrependedLabels<'_>, b: PrependedLabels<'_>) -> Ordering
    requires { length a ≡ length b }
    ensures { result ≡ caseless_cmp a.entry b.entry }
{
    let mut others = b;
    let mut order = Ordering::Equal;
    for label in a {
        if let Some(other) = others.next() {
            order = compare_label(label, other).then(order);
        }
    }
    order
}

/// The order of two labels, ignoring case.
pub(crate) fn compare_label(a: &[u8], b: &[u8]) -> Ordering
    ensures { result
        ≡ slice_cmp nat_cmp (map to_ascii_lowercase a.now) (map to_ascii_lowercase b.now) }
{
    let mut i = 0;
    while i < a.len() && i < b.len() {
        let order = a[i].to_ascii_lowercase().cmp(&b[i].to_ascii_lowercase());
        if !order.is_eq() {
            return order;
        }
        i += 1;
    }
    a.len().cmp(&b.len())
}
