//! Names with an octet 0 or 1 in a label: their labels, and the octets by which they are ordered.
//
// Names are ordered by the octets of their labels from the root on, each ended by the octet 0 (`packed`). A label with
// this octet has no place in that form, so 0 and 1 are written there as pairs that begin with 1: then all names are
// ordered by one comparison of octets, whichever way they are kept. Labels are lent as they are, so that they are
// beside it once more.
ghost use Rattle.std.specs.Prelude.{◌≡◌, ◌↔◌, [], ◌++◌, drop, length, IsTrue, IfOk, OnOk, ◌≤◌};
ghost use Rattle.std.specs.List.{AllByRecursion};
ghost use Rattle.zone_proto.specs.Counting.{counted_name, IsCounting};
ghost use Rattle.zone_proto.specs.Names.{lower, wildcard_of, IsLabel, IsName};
ghost use Rattle.zone_proto.specs.Packing.{escaped, order_octets};

use crate::counted::{Counted, after_labels, split_counted};
use crate::labels_iter::Labels;
use crate::letter_case::lower_octets;
use crate::packed::overwrite;
use std::alloc::{AllocError, Global};
use std::marker::Model;

/// A name with the octets that order it.
#[derive(Debug, Drop)]
pub(crate) struct Escaped {
    labels: Counted,
    order: Vec<u8>,
}

impl Model for Escaped {
    ghost use Rattle.std.specs.Prelude.{◌≡◌, List, ℕ};
    ghost use Rattle.zone_proto.specs.Packing.{order_octets};

    ghost Value = { List (List ℕ) };

    ghost view = { λ e. e.labels };

    ghost invariant = { λ e. e.order.items ≡ order_octets e.labels };
}

impl Escaped {
    /// The name whose labels are in these octets, each behind its length.
    pub(crate) fn of_counting(octets: Vec<u8>) -> Result<Escaped, AllocError>
        requires { IsCounting octets.items (counted_name octets.items) }
        ensures { IfOk result (λ e. e ≡ counted_name octets.items) }
    {
        let mut order = Vec::with_capacity(
            *octets.allocator(),
            order_length(Labels::of_counted(&octets)),
        )?;
        push_order(&mut order, Labels::of_counted(&octets))?;
        Ok(Escaped {
            labels: Counted::of_octets(octets),
            order,
        })
    }

    /// The labels, each behind its length.
    pub(crate) fn labels(&self) -> &[u8]
        ensures name { counted_name result.now ≡ self.now }
        ensures counting { IsCounting result.now (counted_name result.now) }
    {
        self.labels.octets()
    }

    /// The octets that order the name.
    pub(crate) fn order(&self) -> &[u8]
        ensures { result.now ≡ order_octets self.now }
    {
        &self.order
    }

    /// Whether this is the root.
    pub(crate) fn is_root(&self) -> bool
        ensures { IsTrue result ↔ (self.now ≡ []) }
    {
        self.labels.is_root()
    }

    /// Takes the first label away, in place; the root stays.
    pub(crate) fn shorten(&mut self)
        ensures { self.new ≡ drop 1 self.old }
    {
        let start = first_label_at(self.labels.octets(), self.order.len());
        self.order.truncate(start);
        self.labels.shorten();
    }

    /// Replaces the first label by `*`, in place; the root stays.
    pub(crate) fn make_wildcard(&mut self)
        requires { IsName self.old }
        ensures { self.new ≡ wildcard_of self.old }
    {
        if self.labels.is_root() {
            return;
        }
        let start = first_label_at(self.labels.octets(), self.order.len());
        overwrite(&mut self.order, start);
        self.labels.make_wildcard();
    }

    /// Puts the letters into lower case, in place.
    pub(crate) fn lower(&mut self)
        ensures { self.new ≡ lower self.old }
    {
        self.labels.lower();
        lower_octets(self.order.as_mut_slice());
    }

    /// The allocator that the octets were made with.
    pub(crate) fn alloc(&self) -> Global {
        *self.order.allocator()
    }

    /// A copy without the first so many labels, or the root. It takes time by the octets that are left, and not by the labels
    /// that are taken away.
    pub(crate) fn without_first(&self, count: usize) -> Result<Escaped, AllocError>
        ensures { IfOk result (λ e. e ≡ drop count self.now) }
    {
        let rest = after_labels(self.labels.octets(), count);
        Escaped::of_counting(Vec::from_slice(self.alloc(), rest)?)
    }

    /// A copy.
    pub(crate) fn clone(&self) -> Result<Escaped, AllocError>
        ensures { IfOk result (λ e. e ≡ self.now) }
    {
        Ok(Escaped {
            labels: self.labels.clone()?,
            order: Vec::from_slice(self.alloc(), &self.order)?,
        })
    }
}

/// Appends the octets that order the name of these labels: those of the labels after the first one come first.
fn push_order(octets: &mut Vec<u8>, labels: Labels<'_>) -> Result<(), AllocError>
    ensures { OnOk result (octets.new.items ≡ octets.old.items ++ order_octets labels.entry) }
{
    let mut rest = labels;
    let Some(label) = rest.next() else {
        return Ok(());
    };
    push_order(octets, rest)?;
    for octet in label {
        if *octet > 1 {
            octets.push(*octet)?;
        } else {
            octets.push(1)?;
            octets.push(*octet + 1)?;
        }
    }
    octets.push(0)?;
    Ok(())
}

/// How many octets order the name of these labels.
fn order_length(labels: Labels<'_>) -> usize
    requires { AllByRecursion IsLabel labels }
{
    let mut count = 0usize;
    for label in labels {
        count = count
            .saturating_add(escaped_length(label))
            .saturating_add(1);
    }
    count
}

/// Where the first label begins in as many octets that order a name, whose labels are in these octets; at the end of
/// none.
fn first_label_at(labels: &[u8], count: usize) -> usize
    requires labels { IsCounting labels.now (counted_name labels.now) }
    requires count { count ≡ length (order_octets (counted_name labels.now)) }
    ensures { result ≡ length (order_octets (drop 1 (counted_name labels.now))) }
{
    match split_counted(labels) {
        Some((label, _)) => count - (escaped_length(label) + 1),
        None => 0,
    }
}

/// How many octets a label has there.
fn escaped_length(label: &[u8]) -> usize
    requires { length label.now ≤ 63 }
    ensures { result ≡ length (escaped label.now) }
{
    let mut count = 0usize;
    for octet in label {
        count += if *octet > 1 { 1 } else { 2 };
    }
    count
}
