//! What a signer of rows does.

/// What a signer of rows does with what its demonstration signer answers.
#[derive(Clone, Copy)]
pub enum Manner {
    /// It has a key, and signs every set; so many of its calls find memory.
    Whole(u64),
    /// `keyless`: it has no key, and signs nothing.
    Keyless,
    /// `idle`: it has a key, and signs nothing.
    Idle,
    /// `choosy`: it has a key, and signs sets of odd types alone.
    Choosy,
}
