//! Counts of what a call does: how often it reads, and how often it searches.
ghost use Rattle.std.specs.Prelude.{◌≡◌};
ghost use Rattle.zone_map.specs.Counts.{one_more};

use std::marker::Model;

/// A count of what was read of the keys of a zone, or of the owners of its sets of denial.
pub type Reads = Counter;

/// A count of searches: one for each call of `InnerInMemory::inner_lookup` of the crate `zone_lookup`.
pub type Searches = Counter;

/// A count, which stops at `u64::MAX`.
#[derive(Drop)]
pub struct Counter {
    count: u64,
}

impl Model for Counter {
    ghost use Rattle.std.specs.Prelude.{ℕ};

    ghost Value = { ℕ };

    ghost view = { λ counter. counter.count };
}

impl Counter {
    /// Nothing is counted yet.
    pub fn new() -> Counter
        ensures { result ≡ 0 }
    {
        Counter { count: 0 }
    }

    /// How much was counted.
    pub fn count(&self) -> u64
        ensures { result ≡ self.now }
    {
        self.count
    }

    /// Counts one more.
    pub fn add_one(&mut self)
        ensures { self.new ≡ one_more self.old }
    {
        self.count = self.count.saturating_add(1);
    }
}

impl Default for Counter {
    ghost is_default = { λ counter. counter ≡ 0 };

    fn default() -> Counter {
        Counter::new()
    }
}
