//! A zone that is to take the place of one of a database.
ghost use Rattle.std.specs.Prelude.{◌≡◌, IfOk};
ghost use Rattle.std.specs.Arc.{arc_value};
ghost use Rattle.zone_database.specs.Versions.{IsMadeBy};
ghost use Rattle.zone_database.specs.Zones.{zone_of_records};

use crate::version::Version;
use crate::zone::{Zone, zone_of};
use std::alloc::{AllocError, Global};
use std::marker::Model;
use std::sync::Arc;
use update_in_place::Changed;
use zone_map::RecordMap;
use zone_proto::LowerName;

/// A zone that is to take the place of the one of its origin in a database, and the version before it, where it was made of that. Contracts see the
/// zone.
#[derive(Drop)]
pub struct NextZone {
    pub(crate) zone: Zone,
    pub(crate) before: Option<Version>,
}

impl Model for NextZone {
    ghost use Rattle.zone_database.specs.declared.zone.Zone.{Zone as OfDatabase};
    ghost use Rattle.zone_database.specs.Versions.{LeadsIfAny};

    ghost Value = { OfDatabase };

    ghost view = { λ n. n.zone };

    ghost invariant = { λ n. LeadsIfAny n.zone.inner.records n.before };
}

impl NextZone {
    /// A zone that was made all by itself. Doesn't allocate.
    pub fn of(zone: Zone) -> NextZone
        ensures { result ≡ zone }
    {
        NextZone { zone, before: None }
    }

    /// The zone of an origin with these sets, which a change makes of those of the zone before it. That one stays as it is, and is kept as the version before
    /// where this one takes its place. Fails only for lack of memory.
    pub fn made_of(
        alloc: Global,
        origin: &LowerName,
        before: Arc<Zone>,
        change: Changed,
        records: RecordMap,
    ) -> Result<NextZone, AllocError>
        requires { IsMadeBy (arc_value before).inner.records change records }
        ensures { IfOk result (λ next. next ≡ zone_of_records origin.now records) }
    {
        let Ok(origin) = origin.clone() else {
            return Err(AllocError);
        };
        // That they are those of a zone is told where they are lent.
        let _sets = records.as_map();
        let Ok(zone) = zone_of(alloc, origin, records) else {
            return Err(AllocError);
        };
        Ok(NextZone {
            zone,
            before: Some(Version {
                zone: before,
                change,
            }),
        })
    }

    /// Its origin.
    pub fn origin(&self) -> &LowerName
        ensures { result.now ≡ self.now.origin }
    {
        &self.zone.origin
    }

    /// The zone.
    pub fn zone(&self) -> &Zone
        ensures { result.now ≡ self.now }
    {
        &self.zone
    }
}
