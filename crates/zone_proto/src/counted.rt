//! Labels in one piece of octets: each behind its length, leftmost first, as in the wire form (RFC 1035 section 3.1).
//
// Here a label may have any octet. A length is at most 63, so that it is no letter, and the octets can be put into
// lower case as they are.
ghost use Rattle.std.specs.Prelude.{◌≡◌, ◌↔◌, [], ◌∷◌, ◌++◌, ◌+◌, ◌≤◌, length, drop, IsTrue, IfOk, IfSome, MatchOption, OnOk};
ghost use Rattle.std.specs.List.{AllByRecursion};
ghost use Rattle.zone_proto.specs.Names.{lower, wildcard_of, IsLabel, IsName};
ghost use Rattle.zone_proto.specs.Counting.{counting, counted_name, IsCounting};

use crate::labels_iter::Labels;
use crate::storage::Storage;
use crate::wire::wire_length;
use std::alloc::{AllocError, Global};
use std::marker::Model;

/// A name whose labels come after their lengths.
#[derive(Debug, Drop)]
pub(crate) struct Counted {
    octets: Vec<u8>,
}

impl Model for Counted {
    ghost use Rattle.std.specs.Prelude.{List, ℕ};
    ghost use Rattle.zone_proto.specs.Counting.{counted_name, IsCounting};

    ghost Value = { List (List ℕ) };

    ghost view = { λ c. counted_name c.octets.items };

    ghost invariant = { λ c. IsCounting c.octets.items (counted_name c.octets.items) };
}

impl Counted {
    /// The name whose labels are in these octets.
    pub(crate) fn of_octets(octets: Vec<u8>) -> Counted
        requires { IsCounting octets.items (counted_name octets.items) }
        ensures { result ≡ counted_name octets.items }
    {
        Counted { octets }
    }

    /// Whether this is the root.
    pub(crate) fn is_root(&self) -> bool
        ensures { IsTrue result ↔ (self.now ≡ []) }
    {
        self.octets.octets().is_empty()
    }

    /// Takes the first label away, in place; the root stays.
    pub(crate) fn shorten(&mut self)
        ensures { self.new ≡ drop 1 self.old }
    {
        let octets = self.octets.octets();
        if octets.is_empty() {
            return;
        }
        let count = usize::from(octets[0]);
        cut_front(&mut self.octets, count + 1);
    }

    /// Replaces the first label by `*`, in place; the root stays.
    pub(crate) fn make_wildcard(&mut self)
        ensures { self.new ≡ wildcard_of self.old }
    {
        let octets = self.octets.octets();
        if octets.is_empty() {
            return;
        }
        let count = usize::from(octets[0]);
        cut_front(&mut self.octets, count - 1);
        self.octets.write(0, 1);
        self.octets.write(1, b'*');
    }

    /// Puts the letters into lower case, in place.
    pub(crate) fn lower(&mut self)
        ensures { self.new ≡ lower self.old }
    {
        self.octets.lower();
    }

    /// The octets.
    pub(crate) fn octets(&self) -> &[u8]
        ensures name { counted_name result.now ≡ self.now }
        ensures counting { IsCounting result.now (counted_name result.now) }
    {
        self.octets.octets()
    }

    /// A copy.
    pub(crate) fn clone(&self) -> Result<Counted, AllocError>
        ensures { IfOk result (λ c. c ≡ self.now) }
    {
        Ok(Counted {
            octets: Vec::from_slice(*self.octets.allocator(), &self.octets)?,
        })
    }
}

/// Takes so many octets away at the front.
fn cut_front(octets: &mut Vec<u8>, count: usize)
    requires { count ≤ length octets.old.items }
    ensures { octets.new.items ≡ drop count octets.old.items }
{
    let len = octets.len();
    octets.as_mut_slice().copy_within(count..len, 0);
    octets.truncate(len - count);
}

/// The octets of the name of these labels.
pub(crate) fn count(alloc: Global, labels: Labels<'_>) -> Result<Vec<u8>, AllocError>
    requires { IsName labels }
    ensures name { IfOk result (λ o. counted_name o.items ≡ labels.entry) }
    ensures counting { IfOk result (λ o. IsCounting o.items (counted_name o.items)) }
{
    let mut octets = Vec::with_capacity(alloc, wire_length(labels.clone()).saturating_sub(1))?;
    push_labels(&mut octets, labels)?;
    Ok(octets)
}

/// The octets of the name of these labels with one more before the first.
pub(crate) fn count_child(
    alloc: Global,
    label: &[u8],
    labels: Labels<'_>,
) -> Result<Vec<u8>, AllocError>
    requires label { IsLabel label.now }
    requires labels { IsName labels }
    ensures name { IfOk result (λ o. counted_name o.items ≡ label.now ∷ labels.entry) }
    ensures counting { IfOk result (λ o. IsCounting o.items (counted_name o.items)) }
{
    let mut octets = Vec::with_capacity(alloc, label.len() + wire_length(labels.clone()))?;
    push_label(&mut octets, label)?;
    push_labels(&mut octets, labels)?;
    Ok(octets)
}

/// Appends a label behind its length.
fn push_label(octets: &mut Vec<u8>, label: &[u8]) -> Result<(), AllocError>
    requires { length label.now ≤ 63 }
    ensures { OnOk result
        (octets.new.items ≡ octets.old.items ++ length label.now ∷ label.now) }
{
    octets.push(label.len() as u8)?;
    octets.extend_from_slice(label)
}

/// Appends each label behind its length.
fn push_labels(octets: &mut Vec<u8>, labels: Labels<'_>) -> Result<(), AllocError>
    requires { AllByRecursion IsLabel labels }
    ensures { OnOk result (octets.new.items ≡ octets.old.items ++ counting labels.entry) }
{
    for label in labels {
        push_label(octets, label)?;
    }
    Ok(())
}

/// The first label, and the octets of the labels after it.
pub(crate) fn split_counted(octets: &[u8]) -> Option<(&[u8], &[u8])>
    requires { IsCounting octets.now (counted_name octets.now) }
    ensures gives { MatchOption result (counted_name octets.now ≡ [])
        (λ p. counted_name octets.now ≡ p.0.now ∷ counted_name p.1.now) }
    ensures base { IfSome result (λ p. IsCounting p.1.now (counted_name p.1.now)) }
{
    let (count, rest) = octets.split_first()?;
    Some(rest.split_at(usize::from(*count)))
}

/// The octets of the labels after the first so many.
pub(crate) fn after_labels(octets: &[u8], count: usize) -> &[u8]
    requires { IsCounting octets.now (counted_name octets.now) }
    ensures name { counted_name result.now ≡ drop count (counted_name octets.now) }
    ensures counting { IsCounting result.now (counted_name result.now) }
{
    let mut rest = octets;
    for _passed in 0..count {
        let Some((_, after)) = split_counted(rest) else {
            return rest;
        };
        rest = after;
    }
    rest
}

/// How many labels the octets have.
pub(crate) fn count_counted(octets: &[u8]) -> usize
    requires { IsCounting octets.now (counted_name octets.now) }
    ensures count { result ≡ length (counted_name octets.now) }
    ensures fits { result + result ≤ length octets.now }
{
    let mut count = 0usize;
    let mut rest = octets;
    while let Some((_, after)) = split_counted(rest) {
        rest = after;
        count += 1;
    }
    count
}
