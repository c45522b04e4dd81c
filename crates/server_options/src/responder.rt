//! What messages are answered by, before there are options in the responses.
ghost use Rattle.std.specs.Prelude.{IfOk, List};
ghost use Rattle.zone_response.specs.Queries.{Zone};
ghost use Rattle.zone_server.specs.Answers.{IsAnswerFrom};

use std::alloc::{AllocError, Global};
use zone_server::{ServedZones, Transport, answer_from};

/// What answers messages from zones as [`answer_from`](zone_server::answer_from) does: the zones themselves ([`FromZones`]), or what keeps some of
/// their responses.
pub trait Responder {
    // The zones that it answers from.
    ghost zones: { Self → List Zone };

    /// Answers a message, in place of the octets of `out`: by none, where it gets no answer. Gives how many labels the origin of the zone
    /// has that answers, that of the root among them, and 0 where no zone does. Fails only for lack of memory.
    fn answer(
        &self,
        alloc: Global,
        message: &[u8],
        transport: Transport,
        out: &mut Vec<u8>,
    ) -> Result<usize, AllocError>
        ensures { IfOk result (λ labels. IsAnswerFrom (zones self.now) transport message.now labels
            out.new.items) };
}

/// Zones that are searched for each message.
#[derive(Drop)]
pub struct FromZones<'z, Z: ServedZones>(pub &'z Z);

impl<Z: ServedZones> Responder for FromZones<'_, Z> {
    ghost zones = { λ responder. Z.zones responder.0.now };

    fn answer(
        &self,
        alloc: Global,
        message: &[u8],
        transport: Transport,
        out: &mut Vec<u8>,
    ) -> Result<usize, AllocError> {
        answer_from(alloc, self.0, message, transport, out)
    }
}
