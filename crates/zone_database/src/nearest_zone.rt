//! The zones of a database as a server asks them.
ghost use Rattle.std.specs.Prelude.{map};
ghost use Rattle.zone_database.specs.Databases.{zones_in};
ghost use Rattle.zone_database.specs.Zones.{served_zone};

use crate::database::ZoneDatabase;
use crate::zone::lent;
use std::alloc::AllocError;
use zone_lookup::NoSigner;
use zone_origins::nearest;
use zone_proto::LowerName;
use zone_response::ServedZone;
use zone_server::ServedZones;
use zone_sha1::Sha1Hash;

impl ServedZones for ZoneDatabase {
    type Signer = NoSigner;

    type Hash = Sha1Hash;

    ghost zones = { λ database. map served_zone (zones_in database) };

    fn nearest(
        &self,
        name: &LowerName,
    ) -> Result<Option<ServedZone<'_, NoSigner, Sha1Hash>>, AllocError> {
        match nearest(&self.zones, name)? {
            Some((_, stored)) => Ok(Some(lent(stored.zone()))),
            None => Ok(None),
        }
    }
}
