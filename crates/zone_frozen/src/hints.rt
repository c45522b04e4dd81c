//! Where the sets of a name may start in a list in the order of the keys. No contract speaks of a hint: each is tested before it is
//! used, so that hints may be out of date or wrong, and a place that they don't tell is searched for.

use crate::fences::Fences;
use std::alloc::{AllocError, Global};
use zone_proto::{LowerName, RecordSet, RrKey};

/// How many slots are looked at for a name, and how many sets of it are passed over.
const MOST: usize = 8;

/// For each name a slot, close behind the one of its number: half of the number, and the place of its first set and one.
#[derive(Drop)]
pub(crate) struct Hints {
    slots: Vec<u64>,
    fences: Fences,
}

impl Hints {
    /// Hints of the names of sets by their keys.
    pub(crate) fn of_rows(alloc: Global, rows: &[(RrKey, RecordSet)]) -> Result<Hints, AllocError> {
        let mut slots = vec![in alloc; 0u64; count_names(rows).saturating_mul(2)]?;
        let mut before: Option<&LowerName> = None;
        for (place, row) in rows.iter().enumerate() {
            if !is_same(before, &row.0.name) {
                put(slots.as_mut_slice(), number_of(&row.0.name), place);
            }
            before = Some(&row.0.name);
        }
        let fences = Fences::of_rows(alloc, rows)?;
        Ok(Hints { slots, fences })
    }

    /// A place where the sets from a key on may start, if there are sets of its name.
    pub(crate) fn guess(&self, rows: &[(RrKey, RecordSet)], least: &RrKey) -> usize {
        let number = number_of(&least.name);
        let mut at = slot_of(number, self.slots.len());
        for _ in 0..MOST {
            let Some(slot) = self.slots.get(at) else {
                return 0;
            };
            if *slot == 0 {
                return 0;
            }
            if *slot >> 32 == number & 0xFFFF_FFFF {
                return passed(rows, place_in(*slot), least);
            }
            at = at.wrapping_add(1);
        }
        0
    }

    /// A place where they may start if there are none.
    pub(crate) fn near(&self, rows: &[(RrKey, RecordSet)], least: &RrKey) -> usize {
        self.fences.near(rows, least)
    }
}

/// How many names own sets.
fn count_names(rows: &[(RrKey, RecordSet)]) -> usize {
    let mut count = 0usize;
    let mut before: Option<&LowerName> = None;
    for row in rows {
        if !is_same(before, &row.0.name) {
            count = count.wrapping_add(1);
        }
        before = Some(&row.0.name);
    }
    count
}

/// Whether a name is the one before it.
fn is_same(before: Option<&LowerName>, name: &LowerName) -> bool {
    match before {
        Some(before) => before == name,
        None => false,
    }
}

/// A number made of the octets of a name. Each bit of it depends on all of them.
fn number_of(name: &LowerName) -> u64 {
    let mut number = 0u64;
    for label in name.labels() {
        for octet in label {
            number = (number ^ u64::from(*octet)).wrapping_mul(0x0100_0000_01B3);
        }
        number = (number ^ (number >> 29)).wrapping_mul(0x9E37_79B9_7F4A_7C15);
    }
    number ^ (number >> 32)
}

/// The slot of a number among so many.
fn slot_of(number: u64, count: usize) -> usize {
    ((number >> 32).wrapping_mul(count as u64) >> 32) as usize
}

/// The place that a slot has.
fn place_in(slot: u64) -> usize {
    (slot & 0xFFFF_FFFF).wrapping_sub(1) as usize
}

/// Puts a place into the first free slot from that of a number on, if one is near.
fn put(slots: &mut [u64], number: u64, place: usize) {
    let mut at = slot_of(number, slots.len());
    for _ in 0..MOST {
        if let Some(slot) = slots.get_mut(at) {
            if *slot == 0 {
                *slot = (number << 32) | ((place as u64).wrapping_add(1) & 0xFFFF_FFFF);
                return;
            }
        }
        at = at.wrapping_add(1);
    }
}

/// The first place from this one on that isn't before a key, if it is near.
fn passed(rows: &[(RrKey, RecordSet)], place: usize, least: &RrKey) -> usize {
    let mut here = place;
    for _ in 0..MOST {
        match rows.get(here) {
            Some(row) if row.0.cmp(least).is_lt() => {}
            _ => return here,
        }
        here = here.wrapping_add(1);
    }
    here
}
