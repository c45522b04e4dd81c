//! What tells the time, by which signatures hold.

/// A clock. What it tells is never tested here: a wrong one has signatures refused that hold, or the other way round.
pub trait Clock {
    /// The time, in seconds since 1970-01-01 00:00 UTC.
    fn seconds(&mut self) -> u64;
}
