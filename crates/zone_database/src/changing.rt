//! Zones of a database that change: what is to take the place of one is made beside it, of the version before it.
ghost use Rattle.zone_database.specs.Databases.{begins_at, zones_in};

use crate::database::ZoneDatabase;
use crate::next_zone::NextZone;
use std::alloc::{AllocError, Global};
use update_in_place::{Changed, carry_out};
use zone_map::RecordMap;
use zone_proto::LowerName;

impl ZoneDatabase {
    ghost use Rattle.std.specs.Prelude.{◌≡◌, IfOk, option_map};
    ghost use Rattle.std.specs.List.{find};
    ghost use Rattle.zone_database.specs.Versions.{records_of, IsAfterAny, IsChangeOfAny};

    /// The zone of an origin after a change of its sets, which is to take the place of the one that is there; none where there is none. The zones
    /// stay as they are. Fails only for lack of memory.
    ///
    /// A zone that changes is kept in two versions, and this brings the one that isn't served up to date, as [`sets_of`](ZoneDatabase::sets_of) does: it
    /// costs what the sets cost that changed, whatever else the zone has.
    pub fn next_zone(
        &mut self,
        alloc: Global,
        origin: &LowerName,
        changed: Changed,
    ) -> Result<Option<NextZone>, AllocError>
        requires { IsChangeOfAny (find (begins_at origin.now) (zones_in self.old)) changed }
        ensures same { zones_in self.new ≡ zones_in self.old }
        ensures next { IfOk result
            (IsAfterAny origin.now (find (begins_at origin.now) (zones_in self.old)) changed) }
    {
        let Some(mut sets) = self.sets_of(alloc, origin)? else {
            return Ok(None);
        };
        let Some(before) = self.share(origin)? else {
            return Ok(None);
        };
        match carry_out(alloc, &mut sets, &changed) {
            Ok(()) => {
                let next = NextZone::made_of(alloc, origin, before, changed, sets)?;
                Ok(Some(next))
            }
            Err(_) => Err(AllocError),
        }
    }

    /// The sets of the zone of an origin once more, to be changed; none where there is no zone. The zones stay as they are: [`NextZone::made_of`] makes of these
    /// sets what is to take the place of the zone. Fails only for lack of memory.
    ///
    /// Where the version before the zone is kept, these are its sets, brought up to date at the cost of what changed since then, whatever else the zone
    /// has. They are copies where there is no such version yet, where others still share it, as [`copy`](ZoneDatabase::copy) and
    /// [`share`](ZoneDatabase::share) have them do, and where what was made of the last ones was never put in the place of the zone.
    pub fn sets_of(
        &mut self,
        alloc: Global,
        origin: &LowerName,
    ) -> Result<Option<RecordMap>, AllocError>
        ensures same { zones_in self.new ≡ zones_in self.old }
        ensures sets { IfOk result (λ sets. sets
            ≡ option_map records_of (find (begins_at origin.now) (zones_in self.old))) }
    {
        match self.zones.get_mut(origin) {
            Some(stored) => {
                let sets = stored.sets(alloc)?;
                Ok(Some(sets))
            }
            None => Ok(None),
        }
    }
}
