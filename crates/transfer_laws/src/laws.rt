//! Laws of the messages of a zone beside the definitions of a secondary. Each is a function that does nothing and whose contract is the law, so a
//! program has no need to call one.
ghost use Rattle.transfer_laws.specs.Arrivals.{ZonesArrive};

use incremental_laws::laws::zones_are_taken;
use transfer_reading::laws::messages_are_taken;

/// A secondary takes the messages that `transfer_messages` writes of a zone, wherever one ends and the next begins, up to the last, if it asked for
/// the zone or for what changed since an older version. Whatever it held, it has this version then: under each key the records and signatures
/// that answers show, with their TTLs.
pub fn zones_arrive()
    ensures { ZonesArrive }
{
    messages_are_taken();
    zones_are_taken();
}
