//! A zone that is being sent, held.
ghost use Rattle.held_transfers.specs.Holding.{GoesOnHeld};

use std::alloc::{AllocError, Global};
use std::sync::Arc;
use transfer_messages::OpenTransfer;
use zone_database::Zone;
use zone_server::soa_key;

/// A zone that is being sent. It is shared with the database from which it is sent, as it was when that began.
#[derive(Drop)]
pub struct HeldTransfer {
    /// The zone.
    pub zone: Arc<Zone>,
    /// How far it is sent.
    pub transfer: OpenTransfer,
}

impl HeldTransfer {
    /// Makes the next message in place of the octets of `out`, at a moment in seconds since 1970, and says whether there is one: as
    /// [`OpenTransfer::next`] does. Fails only for lack of memory, and then the transfer is where it was.
    #[tactic(auto, using(crate::proofs::Held::goes_by_soa, crate::proofs::Held::ends_without, crate::proofs::Held::stays))]
    pub fn next(&mut self, alloc: Global, now: u64, out: &mut Vec<u8>) -> Result<bool, AllocError>
        ensures { GoesOnHeld now self.old self.new out.new.items result }
    {
        let Ok(key) = soa_key(&self.zone.origin) else {
            return Err(AllocError);
        };
        match self.zone.inner.get(&key) {
            Some(soa) => self
                .transfer
                .next(alloc, soa, self.zone.inner.as_map(), now, out),
            None => {
                out.clear();
                Ok(false)
            }
        }
    }
}
