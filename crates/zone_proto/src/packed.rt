//! Names in one piece of octets: the labels from the root on, each ended by the octet 0.
//
// The canonical order of names (RFC 4034 section 6.1) compares labels from the rightmost on, each as a string of octets,
// and an end is the least. As every label here is ended by the least octet, that is the order of the octets as one
// string, and an ancestor is a front of its descendants. A label with an octet 0 has no place in this form, nor has one with
// an octet 1, with which 0 is written where such names are ordered (`escaped`).
ghost use Rattle.std.specs.Prelude.{◌≡◌, ◌↔◌, [], ◌∷◌, ◌+◌, ◌^◌, ◌<◌, ◌≤◌, length, take, drop, set, IsTrue, IfOk, IfSome, MatchOption};
ghost use Rattle.std.specs.List.{AllByRecursion};
ghost use Rattle.zone_proto.specs.Names.{lower, wildcard_of, IsName};
ghost use Rattle.zone_proto.specs.Octets.{written};
ghost use Rattle.zone_proto.specs.Packing.{packing, name_of, IsPacking, IsPackable, IsInner};
ghost use Rattle.zone_proto.specs.Vectors.{octets_of};

use crate::octets::Octets;
use crate::storage::{Short, Storage};
use std::alloc::{AllocError, Global};
use std::marker::Model;

/// A name in one piece.
#[derive(Debug, Drop)]
pub(crate) struct Packed<S: Storage> {
    octets: S,
}

impl<S: Storage> Model for Packed<S> {
    ghost use Rattle.std.specs.Prelude.{List, ℕ};
    ghost use Rattle.zone_proto.specs.Packing.{name_of, IsPacking};

    ghost Value = { List (List ℕ) };

    ghost view = { λ p. name_of (S.octets_in p.octets) };

    ghost invariant = { λ p. IsPacking (S.octets_in p.octets) (name_of (S.octets_in p.octets)) };
}

impl<S: Storage> Packed<S> {
    /// The name whose labels are in these octets.
    pub(crate) fn of_octets(octets: S) -> Packed<S>
        requires { IsPacking (S.octets_in octets) (name_of (S.octets_in octets)) }
        ensures { result ≡ name_of (S.octets_in octets) }
    {
        Packed { octets }
    }

    /// Whether this is the root.
    pub(crate) fn is_root(&self) -> bool
        ensures { IsTrue result ↔ (self.now ≡ []) }
    {
        self.octets.octets().is_empty()
    }

    /// Takes the first label away, in place; the root stays.
    pub(crate) fn shorten(&mut self)
        ensures { self.new ≡ drop 1 self.old }
    {
        let start = first_label_at(self.octets.octets());
        self.octets.truncate(start);
    }

    /// Replaces the first label by `*`, in place; the root stays.
    pub(crate) fn make_wildcard(&mut self)
        requires { IsName self.old }
        ensures { self.new ≡ wildcard_of self.old }
    {
        let octets = self.octets.octets();
        if octets.is_empty() {
            return;
        }
        let start = first_label_at(octets);
        overwrite(&mut self.octets, start);
    }

    /// Puts the letters into lower case, in place.
    pub(crate) fn lower(&mut self)
        ensures { self.new ≡ lower self.old }
    {
        self.octets.lower();
    }

    /// The octets.
    pub(crate) fn octets(&self) -> &[u8]
        ensures name { name_of result.now ≡ self.now }
        ensures packing { IsPacking result.now (name_of result.now) }
    {
        self.octets.octets()
    }

    /// The allocator that the octets were made with.
    pub(crate) fn alloc(&self) -> Global {
        self.octets.alloc()
    }
}

impl Packed<Short> {
    /// A copy, without memory.
    pub(crate) fn clone(&self) -> Packed<Short>
        ensures { result ≡ self.now }
    {
        Packed {
            octets: self.octets.clone(),
        }
    }
}

/// The octets of the name of these labels.
pub(crate) fn pack(alloc: Global, labels: &[Vec<u8>]) -> Result<Octets, AllocError>
    requires { IsPackable (octets_of labels.now) }
    ensures name { IfOk result (λ o. name_of (written o) ≡ octets_of labels.now) }
    ensures packing { IfOk result (λ o. IsPacking (written o) (name_of (written o))) }
{
    let mut octets = Octets::with_capacity(alloc, packed_length(labels))?;
    let mut i = labels.len();
    while i > 0 {
        i -= 1;
        octets.extend_from_slice(&labels[i])?;
        octets.push(0)?;
    }
    Ok(octets)
}

/// The octets of a name with one more label before its first.
pub(crate) fn pack_child(alloc: Global, octets: &[u8], label: &[u8]) -> Result<Octets, AllocError>
    requires packing { IsPacking octets.now (name_of octets.now) }
    requires label { AllByRecursion IsInner label.now }
    ensures name { IfOk result (λ o. name_of (written o) ≡ label.now ∷ name_of octets.now) }
    ensures packing { IfOk result (λ o. IsPacking (written o) (name_of (written o))) }
{
    let mut child = Octets::with_capacity(
        alloc,
        octets.len().saturating_add(label.len()).saturating_add(1),
    )?;
    child.extend_from_slice(octets)?;
    child.extend_from_slice(label)?;
    child.push(0)?;
    Ok(child)
}

/// How many octets the labels have with their ends.
fn packed_length(labels: &[Vec<u8>]) -> usize {
    let mut octets = 0usize;
    for label in labels {
        octets = octets.saturating_add(label.len()).saturating_add(1);
    }
    octets
}

/// How many octets come before the first label.
fn first_label_at(octets: &[u8]) -> usize
    requires { IsPacking octets.now (name_of octets.now) }
    ensures { result ≡ length (packing (drop 1 (name_of octets.now))) }
{
    let mut start = octets.len().saturating_sub(1);
    while start > 0 && octets[start - 1] != 0 {
        start -= 1;
    }
    start
}

/// Writes the label `*` from a place on, in place of all that is there.
pub(crate) fn overwrite<S: Storage>(octets: &mut S, start: usize)
    requires within { start + 1 < length (S.octets_in octets.old) }
    requires fits { start + 2 < 2 ^ 64 }
    ensures { S.octets_in octets.new
        ≡ take (start + 2) (set (set (S.octets_in octets.old) start 42) (start + 1) 0) }
{
    octets.write(start, b'*');
    octets.write(start + 1, 0);
    octets.truncate(start + 2);
}

/// The first label, and the octets of the labels after it.
pub(crate) fn split_label(octets: &[u8]) -> Option<(&[u8], &[u8])>
    requires { IsPacking octets.now (name_of octets.now) }
    ensures gives { MatchOption result (name_of octets.now ≡ [])
        (λ p. name_of octets.now ≡ p.0.now ∷ name_of p.1.now) }
    ensures base { IfSome result (λ p. IsPacking p.1.now (name_of p.1.now)) }
{
    if octets.is_empty() {
        return None;
    }
    let start = first_label_at(octets);
    Some((&octets[start..octets.len() - 1], &octets[..start]))
}

/// How many labels the octets have: as many as they have ends.
pub(crate) fn count_labels(octets: &[u8]) -> usize
    ensures count { result ≡ length (name_of octets.now) }
    ensures fits { result ≤ length octets.now }
{
    let mut count = 0usize;
    for octet in octets {
        if *octet == 0 {
            count += 1;
        }
    }
    count
}
