//! Octets of some of the names in a list in the order of the keys, close together in memory: a search among them, and then among a few
//! sets, reads less memory than one in the list. What it finds is a guess.

use std::alloc::{AllocError, Global};
use zone_proto::{LowerName, RecordSet, RrKey};

/// Of how many sets one has a fence.
const STRIDE: usize = 8;

/// How often a search halves at most.
const MOST_HALVES: usize = 64;

/// For each eighth set the octets of its name's label below the origin, without those with which all begin.
#[derive(Drop)]
pub(crate) struct Fences {
    ranks: Vec<u64>,
    origin_labels: usize,
    /// The octets with which all these labels begin.
    front: Vec<u8>,
}

impl Fences {
    /// The fences of sets by their keys, whose first has the origin's name.
    pub(crate) fn of_rows(
        alloc: Global,
        rows: &[(RrKey, RecordSet)],
    ) -> Result<Fences, AllocError> {
        let origin_labels = match rows.first() {
            Some(row) => row.0.name.num_labels(),
            None => 0,
        };
        let mut front = Vec::new(alloc);
        front.extend_from_slice(common_front(rows, origin_labels))?;
        let mut ranks = Vec::with_capacity(alloc, rows.len() / STRIDE + 1)?;
        for (place, row) in rows.iter().enumerate() {
            if place % STRIDE == 0 {
                ranks.push(rank_of(&row.0.name, origin_labels, front.as_slice()))?;
            }
        }
        Ok(Fences {
            ranks,
            origin_labels,
            front,
        })
    }

    /// A place where the sets from a key on may start.
    pub(crate) fn near(&self, rows: &[(RrKey, RecordSet)], least: &RrKey) -> usize {
        let rank = rank_of(&least.name, self.origin_labels, self.front.as_slice());
        let low = first_fence(self.ranks.as_slice(), rank);
        let high = first_fence(self.ranks.as_slice(), rank.saturating_add(1));
        let first = low.saturating_sub(1).saturating_mul(STRIDE);
        let last = high.saturating_mul(STRIDE).min(rows.len());
        first_row(rows, first, last, least)
    }
}

/// The octets with which the labels below the origin all begin: those of the second name and of the last.
fn common_front(rows: &[(RrKey, RecordSet)], origin_labels: usize) -> &[u8] {
    let first = rows
        .iter()
        .find(|row| row.0.name.num_labels() > origin_labels);
    match (first, rows.last()) {
        (Some(first), Some(last)) => {
            let label = label_below(&first.0.name, origin_labels);
            let count = shared(label, label_below(&last.0.name, origin_labels));
            label.get(..count).unwrap_or(&[])
        }
        _ => &[],
    }
}

/// How many first octets two labels share.
fn shared(one: &[u8], other: &[u8]) -> usize {
    let mut count = 0usize;
    for (octet, with) in one.iter().zip(other.iter()) {
        if octet != with {
            break;
        }
        count = count.wrapping_add(1);
    }
    count
}

/// The label of a name that is below an origin of so many labels; no octets if there is none.
fn label_below(name: &LowerName, origin_labels: usize) -> &[u8] {
    let count = name.num_labels();
    if count <= origin_labels {
        return &[];
    }
    let mut left = count - origin_labels;
    for label in name.labels() {
        left = left.wrapping_sub(1);
        if left == 0 {
            return label;
        }
    }
    &[]
}

/// The eight octets of that label behind the ones with which all begin, as a number; of one that begins otherwise the least number or the
/// greatest, as it comes before all the others or behind them. So of two names the one that comes first has no greater number.
fn rank_of(name: &LowerName, origin_labels: usize, front: &[u8]) -> u64 {
    let label = label_below(name, origin_labels);
    let Some(begun) = label.get(..front.len()) else {
        return if *label < *front { 0 } else { u64::MAX };
    };
    if *begun != *front {
        return if *begun < *front { 0 } else { u64::MAX };
    }
    let mut rank = 0u64;
    for place in 0..8usize {
        let octet = match label.get(front.len().wrapping_add(place)) {
            Some(octet) => u64::from(*octet),
            None => 0,
        };
        rank = (rank << 8) | octet;
    }
    rank
}

/// The first fence that isn't less than a number.
fn first_fence(ranks: &[u64], rank: u64) -> usize {
    let mut low = 0usize;
    let mut high = ranks.len();
    for _ in 0..MOST_HALVES {
        if low >= high {
            break;
        }
        let middle = low + (high - low) / 2;
        match ranks.get(middle) {
            Some(other) if *other < rank => low = middle.wrapping_add(1),
            _ => high = middle,
        }
    }
    low
}

/// The first set between two places that isn't before a key.
fn first_row(rows: &[(RrKey, RecordSet)], first: usize, last: usize, least: &RrKey) -> usize {
    let mut low = first;
    let mut high = last;
    for _ in 0..MOST_HALVES {
        if low >= high {
            break;
        }
        let middle = low + (high - low) / 2;
        match rows.get(middle) {
            Some(row) if row.0.cmp(least).is_lt() => low = middle.wrapping_add(1),
            _ => high = middle,
        }
    }
    low
}
