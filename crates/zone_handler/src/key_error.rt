//! Why a signing key was refused.
/// Why a signer isn't added to a zone.
#[derive(Clone, Copy, PartialEq, Eq, Debug)]
pub enum KeyError {
    /// The signer has no key that the zone could publish.
    NoKey,
    /// No memory was found.
    Memory,
}
