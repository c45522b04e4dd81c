//! Octets as they are written, before they are those of a name.
ghost use Rattle.std.specs.Prelude.{◌≡◌, [], ◌∷◌, ◌++◌, IfOk, OnOk};
ghost use Rattle.zone_proto.specs.Octets.{written};

use crate::storage::{INLINE_OCTETS, Short, Storage};
use std::alloc::{AllocError, Global};

/// Octets as they are written.
#[derive(Drop)]
pub(crate) enum Octets {
    /// In the value itself.
    Short(Short),
    /// In a piece of memory.
    Long(Vec<u8>),
}

impl Octets {
    /// No octet, with room for so many. Up to 30 take no memory.
    pub(crate) fn with_capacity(alloc: Global, capacity: usize) -> Result<Octets, AllocError>
        ensures { IfOk result (λ o. written o ≡ []) }
    {
        if capacity <= INLINE_OCTETS {
            return Ok(Octets::Short(Short::new(alloc)));
        }
        Ok(Octets::Long(Vec::with_capacity(alloc, capacity)?))
    }

    /// A copy of octets. Up to 30 take no memory.
    pub(crate) fn from_slice(alloc: Global, octets: &[u8]) -> Result<Octets, AllocError>
        ensures { IfOk result (λ o. written o ≡ octets.now) }
    {
        let mut copy = Octets::with_capacity(alloc, octets.len())?;
        copy.extend_from_slice(octets)?;
        Ok(copy)
    }

    /// The octets.
    pub(crate) fn as_slice(&self) -> &[u8]
        ensures { result.now ≡ written self.now }
    {
        match self {
            Octets::Short(short) => short.octets(),
            Octets::Long(long) => long,
        }
    }

    /// Appends an octet.
    pub(crate) fn push(&mut self, octet: u8) -> Result<(), AllocError>
        ensures { OnOk result (written self.new ≡ written self.old ++ octet ∷ []) }
    {
        if let Octets::Short(short) = self {
            if short.has_room(1) {
                short.push(octet);
                return Ok(());
            }
        }
        self.extend_from_slice(&[octet])
    }

    /// Appends octets.
    pub(crate) fn extend_from_slice(&mut self, octets: &[u8]) -> Result<(), AllocError>
        ensures { OnOk result (written self.new ≡ written self.old ++ octets.now) }
    {
        match self {
            Octets::Short(short) => {
                if short.has_room(octets.len()) {
                    short.append(octets);
                    return Ok(());
                }
                let long = joined(short.alloc(), short.octets(), octets)?;
                *self = Octets::Long(long);
                Ok(())
            }
            Octets::Long(long) => long.extend_from_slice(octets),
        }
    }
}

/// Octets and others behind them.
fn joined(alloc: Global, front: &[u8], back: &[u8]) -> Result<Vec<u8>, AllocError>
    ensures { IfOk result (λ v. v.items ≡ front.now ++ back.now) }
{
    let mut octets = Vec::from_slice(alloc, front)?;
    octets.extend_from_slice(back)?;
    Ok(octets)
}
