//! Counts calls, and those that find memory.
ghost use Rattle.std.specs.Prelude.{IsOkUnless};

use std::cell::Cell;
use zone_proto::ProtoError;

/// How many calls of a signer or of a hash were made, and how many more find memory before those that find none.
#[derive(Drop)]
pub struct Calls {
    made: Cell<u64>,
    left: Cell<u64>,
}

impl Calls {
    pub fn new(left: u64) -> Calls {
        Calls {
            made: Cell::new(0),
            left: Cell::new(left),
        }
    }

    /// Counts a call, which finds no memory once there were so many.
    pub fn count(&self) -> Result<(), ProtoError>
        ensures { IsOkUnless result ProtoError.Memory }
    {
        self.made.set(self.made.get().saturating_add(1));
        let left = self.left.get();
        if left == 0 {
            return Err(ProtoError::Memory);
        }
        self.left.set(left - 1);
        Ok(())
    }

    /// How many calls were made since this was last asked.
    pub fn take_made(&self) -> u64 {
        let made = self.made.get();
        self.made.set(0);
        made
    }
}
