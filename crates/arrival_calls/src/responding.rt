//! A database as it answers messages: by responses that it keeps, where it has one.
ghost use Rattle.std.specs.Prelude.{map};
ghost use Rattle.zone_database.specs.Databases.{zones_in};
ghost use Rattle.zone_database.specs.Zones.{served_zone};

use server_options::Responder;
use std::alloc::{AllocError, Global};
use zone_database::ZoneDatabase;
use zone_server::Transport;

/// A database that answers messages.
#[derive(Drop)]
pub(crate) struct FromDatabase<'d>(pub(crate) &'d ZoneDatabase);

impl Responder for FromDatabase<'_> {
    ghost zones = { λ responder. map served_zone (zones_in responder.0.now) };

    fn answer(
        &self,
        alloc: Global,
        message: &[u8],
        transport: Transport,
        out: &mut Vec<u8>,
    ) -> Result<usize, AllocError> {
        self.0.answer_from(alloc, message, transport, out)
    }
}
