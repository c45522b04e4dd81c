//! The order of octets, eight at a time.
ghost use Rattle.std.specs.Prelude.{◌≡◌, ◌↔◌, ◌++◌, ℕ, List, length, map, IsTrue};
ghost use Rattle.std.specs.Char.{to_ascii_lowercase};
ghost use Rattle.std.specs.Cmp.Lexicographic.{slice_cmp};
ghost use Rattle.std.specs.Ordering.{nat_cmp, is_eq};
ghost use Rattle.zone_proto.specs.Packing.{shared_ends};

use crate::name_order::compare_label;
use std::cmp::Ordering;

/// The lexicographic order of octets. It is that of the names whose octets they are; eight octets are compared at a
/// time, since nearly all that a lookup does is to compare names.
pub(crate) fn compare_octets(a: &[u8], b: &[u8]) -> Ordering
    ensures { result ≡ slice_cmp nat_cmp a.now b.now }
{
    let shared = a.len().min(b.len());
    let order = compare_as_many(&a[..shared], &b[..shared]);
    if order.is_ne() {
        return order;
    }
    a.len().cmp(&b.len())
}

/// The order of octets and as many others.
fn compare_as_many(a: &[u8], b: &[u8]) -> Ordering
    requires { length a.now ≡ length b.now }
    ensures { result ≡ slice_cmp nat_cmp a.now b.now }
{
    let mut same = 0;
    while let (Some(eight), Some(other)) = (
        a[same..].first_chunk::<8>(),
        b[same..].first_chunk::<8>(),
    ) {
        let order = compare_eight(eight, other);
        if order.is_ne() {
            return order;
        }
        same += 8;
    }
    // Fewer than eight are left: they are compared with those before them, which are the same, as eight once more.
    match (a.last_chunk::<8>(), b.last_chunk::<8>()) {
        (Some(last), Some(other)) => compare_eight(last, other),
        _ => a.cmp(&b),
    }
}

/// The order of eight octets and eight others: that of the numbers that they are, the first octet the highest.
fn compare_eight(a: &[u8; 8], b: &[u8; 8]) -> Ordering
    ensures { result ≡ slice_cmp nat_cmp a.now b.now }
{
    u64::from_be_bytes(*a).cmp(&u64::from_be_bytes(*b))
}

/// Whether octets begin with others, ignoring case.
pub(crate) fn is_front_caseless(front: &[u8], whole: &[u8]) -> bool
    ensures { IsTrue result
        ↔ ((rest : List ℕ)
        × (map to_ascii_lowercase whole.now ≡ map to_ascii_lowercase front.now ++ rest)) }
{
    front.len() <= whole.len() && are_same_caseless(front, &whole[..front.len()])
}

/// Whether octets are the same, ignoring case.
fn are_same_caseless(a: &[u8], b: &[u8]) -> bool
    ensures { result
        ≡ is_eq (slice_cmp nat_cmp (map to_ascii_lowercase a.now) (map to_ascii_lowercase b.now)) }
{
    // Of names in lower case the first comparison tells, which takes eight octets at a time.
    compare_octets(a, b).is_eq() || compare_label(a, b).is_eq()
}

/// How many octets are 0 of those that two lists begin with, both.
pub(crate) fn count_shared_ends(a: &[u8], b: &[u8]) -> usize
    ensures { result ≡ shared_ends a.now b.now }
{
    let mut count = 0usize;
    let mut i = 0usize;
    while i < a.len() && i < b.len() && a[i] == b[i] {
        if a[i] == 0 {
            count += 1;
        }
        i += 1;
    }
    count
}
