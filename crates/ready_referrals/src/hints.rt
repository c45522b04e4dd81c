//! Where the names of a list are found by hints. Nothing depends on them but how soon one is.

use std::alloc::{AllocError, Global};
use zone_proto::LowerName;

/// What each octet is multiplied by (FNV-1a).
const FACTOR: u64 = 0x0000_0100_0000_01b3;

/// What the first octet is put into.
const BASIS: u64 = 0xcbf2_9ce4_8422_2325;

/// How many slots are looked at for a name.
pub(crate) const MOST_SLOTS: usize = 16;

/// Slots with the numbers of names, of which one more is kept, so that 0 is none.
#[derive(Drop)]
pub(crate) struct Slots {
    numbers: Vec<u32>,
}

impl Slots {
    /// No slots. Doesn't allocate.
    pub(crate) fn new(alloc: Global) -> Slots {
        Slots {
            numbers: Vec::new(alloc),
        }
    }

    /// Two empty slots for each of so many names.
    pub(crate) fn for_names(alloc: Global, count: usize) -> Result<Slots, AllocError> {
        let numbers = vec![in alloc; 0u32; count.saturating_mul(2)]?;
        Ok(Slots { numbers })
    }

    /// Puts the number of a name into the first slot that is free from a hint on, if one is among those that are looked at and the number has 32 bits.
    pub(crate) fn put(&mut self, hint: usize, index: usize) {
        let numbers = self.numbers.as_mut_slice();
        let count = numbers.len();
        if count == 0 || index >= 4_294_967_295 {
            return;
        }
        for step in 0..MOST_SLOTS {
            let slot = hint.wrapping_add(step) % count;
            if numbers[slot] == 0 {
                numbers[slot] = (index + 1) as u32;
                return;
            }
        }
    }

    /// The number of a name in a slot so many steps behind a hint, if there is one.
    pub(crate) fn at(&self, hint: usize, step: usize) -> Option<usize> {
        let count = self.numbers.len();
        if count == 0 {
            return None;
        }
        let number = self.numbers[hint.wrapping_add(step) % count];
        if number == 0 {
            return None;
        }
        Some((number - 1) as usize)
    }
}

/// A hint for the labels of a name behind so many.
pub(crate) fn hint_of(name: &LowerName, passed: usize) -> usize {
    let mut sum = BASIS;
    let mut left = passed;
    for label in name.labels() {
        if left > 0 {
            left -= 1;
        } else {
            sum = with_label(sum, label);
        }
    }
    (sum ^ (sum >> 32)) as usize
}

/// The sum with one label more.
fn with_label(sum: u64, label: &[u8]) -> u64 {
    let mut sum = with_octet(sum, label.len() as u64);
    for octet in label {
        sum = with_octet(sum, u64::from(*octet));
    }
    sum
}

/// The sum with one octet more.
fn with_octet(sum: u64, octet: u64) -> u64 {
    (sum ^ octet).wrapping_mul(FACTOR)
}
