//! How the labels of a name are kept.
ghost use Rattle.std.specs.Prelude.{◌≡◌, ◌↔◌, [], ◌∷◌, drop, IsTrue, IfOk, IfSome};
ghost use Rattle.std.specs.List.{AllByRecursion};
ghost use Rattle.zone_proto.specs.Names.{lower, name_cmp, caseless_cmp, wildcard_of, IsAtOrAbove, IsLabel, IsName, SharesLabels};
ghost use Rattle.zone_proto.specs.Packing.{name_of, order_octets, IsPacking, IsPackable, IsInner};
ghost use Rattle.zone_proto.specs.Counting.{counted_name, IsCounting};
ghost use Rattle.zone_proto.specs.Octets.{written};
ghost use Rattle.zone_proto.specs.Forms.{labels_of};
ghost use Rattle.zone_proto.specs.Vectors.{octets_of};

use crate::counted::{count, count_child};
use crate::escaped::Escaped;
use crate::labels_iter::Labels;
use crate::letter_case::lower_all;
use crate::name_order::{
    compare_label, compare_labels, count_shared, labels_are_above, labels_are_same,
};
use crate::octet_order::{compare_octets, count_shared_ends, is_front_caseless};
use crate::octets::Octets;
use crate::packed::{Packed, pack, pack_child};
use crate::prepended_labels::PrependedLabels;
use crate::storage::Short;
use std::alloc::{AllocError, Global};
use std::cmp::Ordering;

/// How the labels of a name are kept. A form for few octets and one for many, rather than one that says in itself where its
/// octets stand, since each enum has a tag of its own: so the tag takes one octet of 32, where two would make 40.
#[derive(Debug)]
pub(crate) enum Form {
    /// Each by itself, as they were handed over.
    Listed(Vec<Vec<u8>>),
    /// All in one piece, each before its end: up to 30 octets, in the value itself.
    ShortPacked(Packed<Short>),
    /// All in one piece, each before its end.
    LongPacked(Packed<Vec<u8>>),
    /// Beside the octets that order the name, because one has an octet 0 or 1.
    Escaped(Box<Escaped>),
}

/// A call of its own, so that the proofs of all that drop a name don't go into its forms.
impl Drop for Form {
    fn drop(self) {
        match self {
            Form::Listed(_) | Form::ShortPacked(_) | Form::LongPacked(_) | Form::Escaped(_) => {}
        }
    }
}

impl Form {
    /// No label. Doesn't allocate.
    pub(crate) fn root(alloc: Global) -> Form
        ensures { labels_of result ≡ [] }
    {
        Form::ShortPacked(Packed::of_octets(Short::new(alloc)))
    }

    /// The labels that are in these octets, each before its end. Doesn't allocate.
    pub(crate) fn of_packing(octets: Octets) -> Form
        requires { IsPacking (written octets) (name_of (written octets)) }
        ensures { labels_of result ≡ name_of (written octets) }
    {
        match octets {
            Octets::Short(short) => Form::ShortPacked(Packed::of_octets(short)),
            Octets::Long(long) => Form::LongPacked(Packed::of_octets(long)),
        }
    }

    /// The labels that are in these octets, each behind its length.
    pub(crate) fn of_counting(octets: Vec<u8>) -> Result<Form, AllocError>
        requires { IsCounting octets.items (counted_name octets.items) }
        ensures { IfOk result (λ f. labels_of f ≡ counted_name octets.items) }
    {
        let alloc = *octets.allocator();
        Ok(Form::Escaped(Box::new(alloc, Escaped::of_counting(octets)?)?))
    }

    /// Lends the labels.
    pub(crate) fn labels(&self) -> Labels<'_>
        ensures { result ≡ labels_of self.now }
    {
        match self {
            Form::Listed(listed) => Labels::of_list(listed),
            Form::ShortPacked(packed) => Labels::of_piece(packed.octets()),
            Form::LongPacked(packed) => Labels::of_piece(packed.octets()),
            Form::Escaped(escaped) => Labels::of_counted(escaped.labels()),
        }
    }

    /// Lends the labels, to be compared with those of another name.
    fn compared(&self) -> PrependedLabels<'_>
        ensures { result ≡ labels_of self.now }
    {
        PrependedLabels::new(self.labels())
    }

    /// The octets that order the name, unless the labels stand each by itself.
    fn order(&self) -> Option<&[u8]>
        ensures { IfSome result (λ s. s.now ≡ order_octets (labels_of self.now)) }
    {
        match self {
            Form::Listed(_) => None,
            Form::ShortPacked(packed) => Some(packed.octets()),
            Form::LongPacked(packed) => Some(packed.octets()),
            Form::Escaped(escaped) => Some(escaped.order()),
        }
    }

    /// Whether there is no label.
    pub(crate) fn is_root(&self) -> bool
        ensures { IsTrue result ↔ (labels_of self.now ≡ []) }
    {
        match self {
            Form::Listed(listed) => listed.is_empty(),
            Form::ShortPacked(packed) => packed.is_root(),
            Form::LongPacked(packed) => packed.is_root(),
            Form::Escaped(escaped) => escaped.is_root(),
        }
    }

    /// The allocator that the labels were made with.
    pub(crate) fn alloc(&self) -> Global {
        match self {
            Form::Listed(listed) => *listed.allocator(),
            Form::ShortPacked(packed) => packed.alloc(),
            Form::LongPacked(packed) => packed.alloc(),
            Form::Escaped(escaped) => escaped.alloc(),
        }
    }

    /// The same labels, in one piece.
    pub(crate) fn in_one_piece(self) -> Result<Form, AllocError>
        requires { IsName (labels_of self) }
        ensures { IfOk result (λ f. labels_of f ≡ labels_of self) }
    {
        match self {
            Form::Listed(listed) => pack_list(&listed),
            Form::ShortPacked(packed) => Ok(Form::ShortPacked(packed)),
            Form::LongPacked(packed) => Ok(Form::LongPacked(packed)),
            Form::Escaped(escaped) => Ok(Form::Escaped(escaped)),
        }
    }

    /// A copy, in one piece.
    pub(crate) fn copy(&self) -> Result<Form, AllocError>
        requires { IsName (labels_of self.now) }
        ensures { IfOk result (λ f. labels_of f ≡ labels_of self.now) }
    {
        match self {
            Form::Listed(listed) => pack_list(listed),
            Form::ShortPacked(packed) => Ok(Form::ShortPacked(packed.clone())),
            Form::LongPacked(packed) => copy_packing(packed.alloc(), packed.octets()),
            Form::Escaped(escaped) => copy_escaped(escaped),
        }
    }

    /// A copy without the first so many labels, in one piece.
    pub(crate) fn without_first(&self, count: usize) -> Result<Form, AllocError>
        requires { IsName (labels_of self.now) }
        ensures { IfOk result (λ f. labels_of f ≡ drop count (labels_of self.now)) }
    {
        if let Form::Escaped(escaped) = self {
            let rest = escaped.without_first(count)?;
            return Ok(Form::Escaped(Box::new(escaped.alloc(), rest)?));
        }
        let mut form = self.copy()?;
        for _taken in 0..count {
            form.shorten();
        }
        Ok(form)
    }

    /// A copy with one more label before the first, in one piece.
    pub(crate) fn child(&self, label: &[u8]) -> Result<Form, AllocError>
        requires label { IsLabel label.now }
        requires labels { IsName (labels_of self.now) }
        ensures { IfOk result (λ f. labels_of f ≡ label.now ∷ labels_of self.now) }
    {
        match self {
            Form::Listed(listed) => child_of_list(listed, label),
            Form::ShortPacked(packed) => child_of_packing(packed.alloc(), packed.octets(), label),
            Form::LongPacked(packed) => child_of_packing(packed.alloc(), packed.octets(), label),
            Form::Escaped(escaped) => {
                child_escaped(escaped.alloc(), label, Labels::of_counted(escaped.labels()))
            }
        }
    }

    /// Takes the first label away, in place; the root stays.
    pub(crate) fn shorten(&mut self)
        ensures { labels_of self.new ≡ drop 1 (labels_of self.old) }
    {
        match self {
            Form::Listed(listed) => drop_first(listed),
            Form::ShortPacked(packed) => packed.shorten(),
            Form::LongPacked(packed) => packed.shorten(),
            Form::Escaped(escaped) => escaped.shorten(),
        }
    }

    /// Replaces the first label by `*`, in place; the root stays.
    pub(crate) fn make_wildcard(&mut self)
        requires { IsName (labels_of self.old) }
        ensures { labels_of self.new ≡ wildcard_of (labels_of self.old) }
    {
        match self {
            Form::Listed(listed) => asterisk_first(listed),
            Form::ShortPacked(packed) => packed.make_wildcard(),
            Form::LongPacked(packed) => packed.make_wildcard(),
            Form::Escaped(escaped) => escaped.make_wildcard(),
        }
    }

    /// Puts the letters into lower case, in place.
    pub(crate) fn lower(&mut self)
        ensures { labels_of self.new ≡ lower (labels_of self.old) }
    {
        match self {
            Form::Listed(listed) => lower_all(listed),
            Form::ShortPacked(packed) => packed.lower(),
            Form::LongPacked(packed) => packed.lower(),
            Form::Escaped(escaped) => escaped.lower(),
        }
    }

    /// The canonical order, of names in lower case.
    pub(crate) fn compare(&self, other: &Form) -> Ordering
        requires own { lower (labels_of self.now) ≡ labels_of self.now }
        requires other { lower (labels_of other.now) ≡ labels_of other.now }
        ensures { result ≡ name_cmp (labels_of self.now) (labels_of other.now) }
    {
        match (self.order(), other.order()) {
            (Some(own), Some(theirs)) => compare_octets(own, theirs),
            _ => compare_labels(self.compared(), other.compared()),
        }
    }

    /// The canonical order, ignoring case.
    pub(crate) fn compare_caseless(&self, other: &Form) -> Ordering
        ensures { result ≡ caseless_cmp (labels_of self.now) (labels_of other.now) }
    {
        match (self.order(), other.order()) {
            (Some(own), Some(theirs)) => compare_label(own, theirs),
            _ => compare_labels(self.compared(), other.compared()),
        }
    }

    /// Whether the labels are identical, the case of letters included.
    pub(crate) fn is_same(&self, other: &Form) -> bool
        ensures { IsTrue result ↔ (labels_of self.now ≡ labels_of other.now) }
    {
        match (self.order(), other.order()) {
            (Some(own), Some(theirs)) => own == theirs,
            _ => labels_are_same(self.labels(), other.labels()),
        }
    }

    /// Whether the other name is this one or below it, ignoring case.
    pub(crate) fn zone_of(&self, other: &Form) -> bool
        ensures { IsTrue result
            ↔ IsAtOrAbove (lower (labels_of self.now)) (lower (labels_of other.now)) }
    {
        match (self.order(), other.order()) {
            (Some(own), Some(theirs)) => is_front_caseless(own, theirs),
            _ => labels_are_above(self.compared(), other.compared()),
        }
    }

    /// How many last labels the names share, which are in lower case.
    pub(crate) fn shared_labels(&self, other: &Form) -> usize
        requires own { lower (labels_of self.now) ≡ labels_of self.now }
        requires other { lower (labels_of other.now) ≡ labels_of other.now }
        ensures { SharesLabels (labels_of self.now) (labels_of other.now) result }
    {
        match (self.order(), other.order()) {
            (Some(own), Some(theirs)) => count_shared_ends(own, theirs),
            _ => count_shared(self.compared(), other.compared()),
        }
    }
}

/// A copy of labels in one piece, each before its end.
fn copy_packing(alloc: Global, octets: &[u8]) -> Result<Form, AllocError>
    requires { IsPacking octets.now (name_of octets.now) }
    ensures { IfOk result (λ f. labels_of f ≡ name_of octets.now) }
{
    Ok(Form::of_packing(Octets::from_slice(alloc, octets)?))
}

/// A copy of labels beside the octets that order the name.
fn copy_escaped(escaped: &Escaped) -> Result<Form, AllocError>
    ensures { IfOk result (λ f. labels_of f ≡ escaped.now) }
{
    Ok(Form::Escaped(Box::new(escaped.alloc(), escaped.clone()?)?))
}

/// The labels of a list with one more before the first.
fn child_of_list(labels: &Vec<Vec<u8>>, label: &[u8]) -> Result<Form, AllocError>
    requires label { IsLabel label.now }
    requires labels { IsName (octets_of labels.now.items) }
    ensures { IfOk result (λ f. labels_of f ≡ label.now ∷ octets_of labels.now.items) }
{
    let alloc = *labels.allocator();
    if !is_packable(labels) {
        return child_escaped(alloc, label, Labels::of_list(labels));
    }
    let octets = pack(alloc, labels)?;
    child_of_packing(alloc, octets.as_slice(), label)
}

/// The labels of a name in one piece, each before its end, with one more before the first.
fn child_of_packing(alloc: Global, octets: &[u8], label: &[u8]) -> Result<Form, AllocError>
    requires label { IsLabel label.now }
    requires packing { IsPacking octets.now (name_of octets.now) }
    requires labels { IsName (name_of octets.now) }
    ensures { IfOk result (λ f. labels_of f ≡ label.now ∷ name_of octets.now) }
{
    if !is_inner(label) {
        return child_escaped(alloc, label, Labels::of_piece(octets));
    }
    Ok(Form::of_packing(pack_child(alloc, octets, label)?))
}

/// The labels with one more before the first, beside the octets that order the name.
fn child_escaped(alloc: Global, label: &[u8], labels: Labels<'_>) -> Result<Form, AllocError>
    requires label { IsLabel label.now }
    requires labels { IsName labels }
    ensures { IfOk result (λ f. labels_of f ≡ label.now ∷ labels.entry) }
{
    Ok(Form::of_counting(count_child(alloc, label, labels)?)?)
}

/// Takes the first label away, if there is one.
fn drop_first(labels: &mut Vec<Vec<u8>>)
    ensures { octets_of labels.new.items ≡ drop 1 (octets_of labels.old.items) }
{
    if !labels.is_empty() {
        let _ = labels.remove(0);
    }
}

/// Replaces the first label by `*`, if there is one.
fn asterisk_first(labels: &mut Vec<Vec<u8>>)
    requires { IsName (octets_of labels.old.items) }
    ensures { octets_of labels.new.items ≡ wildcard_of (octets_of labels.old.items) }
{
    if let Some(label) = labels.first_mut() {
        label.truncate(1);
        label[0] = b'*';
    }
}

/// The labels of a list in one piece.
fn pack_list(labels: &Vec<Vec<u8>>) -> Result<Form, AllocError>
    requires { IsName (octets_of labels.now.items) }
    ensures { IfOk result (λ f. labels_of f ≡ octets_of labels.now.items) }
{
    let alloc = *labels.allocator();
    if is_packable(labels) {
        return Ok(Form::of_packing(pack(alloc, labels)?));
    }
    Ok(Form::of_counting(count(alloc, Labels::of_list(labels))?)?)
}

/// Whether the label has no octet 0 or 1.
pub(crate) fn is_inner(label: &[u8]) -> bool
    ensures { IsTrue result → AllByRecursion IsInner label.now }
{
    for octet in label {
        if *octet <= 1 {
            return false;
        }
    }
    true
}

/// Whether no label has an octet 0 or 1.
fn is_packable(labels: &[Vec<u8>]) -> bool
    ensures { IsTrue result → IsPackable (octets_of labels.now) }
{
    for label in labels {
        if !is_inner(label) {
            return false;
        }
    }
    true
}
