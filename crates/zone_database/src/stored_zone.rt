//! A zone as a database has it, with the answers that are kept of it, and the version before it.
ghost use Rattle.std.specs.Prelude.{◌≡◌, IfOk, IsTrue, Ok, Some};
ghost use Rattle.std.specs.Arc.{arc_value};
ghost use Rattle.zone_proto.specs.Names.{lower};
ghost use Rattle.message_reading.specs.Queries.{query_of};
ghost use Rattle.zone_server.specs.Limits.{limit_for};
ghost use Rattle.ready_table.specs.Ready.{IsReady};
ghost use Rattle.zone_database.specs.Versions.{LeadsIfAny};
ghost use Rattle.zone_database.specs.Zones.{served_zone};

use crate::next_zone::NextZone;
use crate::version::{Version, same_sets};
use crate::zone::{Zone, lent};
use message_reading::Query;
use ready_table::{ReadyTable, ready_table};
use std::alloc::{AllocError, Global};
use std::marker::Model;
use std::mem;
use std::sync::Arc;
use zone_map::RecordMap;
use zone_proto::LowerName;
use zone_server::Transport;

/// A zone, and the answers that are kept of it. Several databases may share both. Contracts see the zone.
#[derive(Drop)]
pub struct StoredZone {
    pub(crate) zone: Arc<Zone>,
    /// The answers that are kept, if they were asked for.
    pub(crate) ready: Option<Arc<ReadyTable>>,
    /// The version before it, if it is kept, which the next change brings up to date. No other database gets it.
    spare: Option<Version>,
}

impl Model for StoredZone {
    ghost use Rattle.std.specs.Arc.{arc_value};
    ghost use Rattle.zone_database.specs.declared.zone.Zone.{Zone as OfDatabase};
    ghost use Rattle.zone_database.specs.ReadyZones.{AreReadyIfAny};
    ghost use Rattle.zone_database.specs.Versions.{LeadsIfAny};
    ghost use Rattle.zone_database.specs.Zones.{served_zone};

    ghost Value = { OfDatabase };

    ghost view = { λ s. arc_value s.zone };

    ghost invariant = { λ s. AreReadyIfAny (served_zone (arc_value s.zone)) s.ready
        × LeadsIfAny (arc_value s.zone).inner.records s.spare };
}

impl StoredZone {
    /// A zone of which no answers are kept. Doesn't allocate.
    pub(crate) fn new(zone: Arc<Zone>) -> StoredZone
        ensures { result ≡ arc_value zone }
    {
        StoredZone {
            zone,
            ready: None,
            spare: None,
        }
    }

    /// A zone that is to take the place of another, of which no answers are kept. Fails only for lack of memory.
    pub(crate) fn of_next(alloc: Global, next: NextZone) -> Result<StoredZone, AllocError>
        ensures { IfOk result (λ stored. stored ≡ next) }
    {
        let NextZone { zone, before } = next;
        let Ok(zone) = Arc::new(alloc, zone) else {
            return Err(AllocError);
        };
        Ok(StoredZone {
            zone,
            ready: None,
            spare: before,
        })
    }

    /// The zone.
    pub(crate) fn zone(&self) -> &Zone
        ensures { result.now ≡ self.now }
    {
        &self.zone
    }

    /// The zone, shared.
    pub(crate) fn share_zone(&self) -> Result<Arc<Zone>, AllocError>
        ensures { IfOk result (λ zone. arc_value zone ≡ self.now) }
    {
        Ok(Arc::try_clone(&self.zone)?)
    }

    /// The same zone and answers, shared.
    pub(crate) fn share(&self) -> Result<StoredZone, AllocError>
        ensures { IfOk result (λ other. other ≡ self.now) }
    {
        let zone = Arc::try_clone(&self.zone)?;
        match &self.ready {
            Some(ready) => {
                let ready = Some(Arc::try_clone(ready)?);
                Ok(StoredZone {
                    zone,
                    ready,
                    spare: None,
                })
            }
            None => Ok(StoredZone::new(zone)),
        }
    }

    /// Keeps the answers that the zone gives most. Fails only for lack of memory.
    pub(crate) fn prepare(&mut self, alloc: Global) -> Result<bool, AllocError>
        ensures same { self.new ≡ self.old }
        ensures done { IfOk result IsTrue }
    {
        *self = self.with_answers(alloc)?;
        Ok(true)
    }

    /// The same zone, shared, with the answers that it gives most. Fails only for lack of memory.
    fn with_answers(&self, alloc: Global) -> Result<StoredZone, AllocError>
        ensures { IfOk result (λ other. other ≡ self.now) }
    {
        let zone = Arc::try_clone(&self.zone)?;
        let table = ready_table(alloc, lent(&zone))?;
        let Ok(table) = Arc::new(alloc, table) else {
            return Err(AllocError);
        };
        Ok(StoredZone {
            zone,
            ready: Some(table),
            spare: None,
        })
    }

    /// The sets of the zone once more, to be changed. The version before the zone is given up for them, if it is kept. Fails only for lack of memory.
    pub(crate) fn sets(&mut self, alloc: Global) -> Result<RecordMap, AllocError>
        ensures same { self.new ≡ self.old }
        ensures sets { IfOk result (λ sets. sets ≡ self.old.inner.records) }
    {
        let spare = self.take_spare();
        match same_sets(alloc, spare, self.zone.inner.record_map()) {
            Ok(sets) => Ok(sets),
            Err(_) => Err(AllocError),
        }
    }

    /// Takes the version before the zone, if it is kept.
    fn take_spare(&mut self) -> Option<Version>
        ensures same { self.new ≡ self.old }
        ensures leads { LeadsIfAny self.old.inner.records result }
    {
        mem::replace(&mut self.spare, None)
    }

    /// Puts the answer to a query that is kept, or is made of what is kept, in place of the octets of `out`, and says whether there is one. `name` is
    /// that of the question in lower case. Fails only for lack of memory.
    pub(crate) fn put_ready(
        &self,
        message: &[u8],
        query: &Query,
        name: &LowerName,
        transport: Transport,
        out: &mut Vec<u8>,
    ) -> Result<bool, AllocError>
        requires { name.now ≡ lower query.now.question.name }
        ensures { IfOk result (λ found. IsTrue found → query_of message.now ≡ Ok query.now
            → IsReady (served_zone self.now)
            (limit_for transport query.now.extension) query.now out.new.items) }
    {
        match &self.ready {
            Some(ready) => {
                if ready.put_ready(message, query, transport, out)? {
                    return Ok(true);
                }
                let alloc = self.zone.origin.alloc();
                if ready.put_referral(alloc, query, name, transport, out)? {
                    return Ok(true);
                }
                ready.put_denial(alloc, &lent(&self.zone), query, name, transport, out)
            }
            None => Ok(false),
        }
    }
}
