//! Secrets.
ghost use Rattle.std.specs.Prelude.{◌≡◌, EachIndex, List, slice_index, ℕ};

use std::marker::Model;

/// Octets that nobody is to see. It has no `Debug`, so that they are in no message.
///
/// Where a secret is let go, its octets are overwritten before their memory is given back. No contract can say what stands in memory
/// that was given back; in the programs as they are compiled the writes are there.
pub struct Secret {
    octets: Vec<u8>,
}

impl Model for Secret {
    ghost Value = { List ℕ };

    ghost view = { λ s. s.octets.items };
}

impl Secret {
    /// The secret of these octets.
    pub fn new(octets: Vec<u8>) -> Secret
        ensures { result ≡ octets.items }
    {
        Secret { octets }
    }

    /// Its octets.
    pub fn as_slice(&self) -> &[u8]
        ensures { result.now ≡ self.now }
    {
        self.octets.as_slice()
    }
}

impl Drop for Secret {
    fn drop(self) {
        let Secret { mut octets } = self;
        wipe(octets.as_mut_slice());
    }
}

/// Overwrites octets.
fn wipe(octets: &mut [u8])
    ensures { EachIndex octets.new (λ k. slice_index octets.new k ≡ 0) }
{
    for octet in octets.iter_mut() {
        *octet = 0;
    }
}
