//! The serial of a zone.
ghost use Rattle.std.specs.Prelude.{◌≡◌, IfOk};
ghost use Rattle.held_steps.specs.Lacking.{serial_in};

use difference_messages::serial_of;
use std::alloc::AllocError;
use zone_database::Zone;
use zone_server::soa_key;

/// The serial of the SOA of a zone. Fails only for lack of memory.
pub(crate) fn serial_in(zone: &Zone) -> Result<Option<u32>, AllocError>
    ensures { IfOk result (λ serial. serial ≡ serial_in zone.now) }
{
    let Ok(key) = soa_key(&zone.origin) else {
        return Err(AllocError);
    };
    match zone.inner.get(&key) {
        Some(soa) => Ok(serial_of(soa)),
        None => Ok(None),
    }
}
