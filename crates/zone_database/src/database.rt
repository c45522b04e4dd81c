//! The zones that a server has.
ghost use Rattle.zone_database.specs.Origins.{AreUnderOrigins};

use crate::next_zone::NextZone;
use crate::stored_zone::StoredZone;
use crate::zone::Zone;
use message_reading::{Query, ReadError, read_query};
use std::alloc::{AllocError, Global};
use std::collections::BTreeMap;
use std::sync::Arc;
use zone_origins::nearest;
use zone_proto::{LowerName, RecordType};
use zone_server::{Answered, Transport, answer_read_from};

/// The zones that a server has, of each origin one. Several databases may share a zone, which none of them changes.
#[derive(Drop)]
pub struct ZoneDatabase {
    /// The zones, each under its origin.
    pub(crate) zones: BTreeMap<LowerName, StoredZone>,
    /// Whether answers of one of them may be kept.
    pub(crate) prepared: bool,
    ghost under_origins: { AreUnderOrigins zones.entries },
}

impl ZoneDatabase {
    ghost use Rattle.std.specs.Prelude.{◌≡◌, ◌≢◌, [], IfOk, IfSome, IsTrue, Ok, OnOk, OnErr, map, option_copied, option_map};
    ghost use Rattle.std.specs.Arc.{arc_value};
    ghost use Rattle.std.specs.List.{find};
    ghost use Rattle.message_reading.specs.Queries.{query_of, ReadsQuery};
    ghost use Rattle.zone_server.specs.Answers.{IsAnswer, IsAnswerFrom, IsResponseFrom, SaysWhether};
    ghost use Rattle.zone_server.specs.Limits.{limit_for};
    ghost use Rattle.zone_database.specs.Databases.{begins_at, has_zone, with_zone, without, zones_in};
    ghost use Rattle.zone_database.specs.Zones.{served_zone};

    /// No zones. Doesn't allocate.
    pub fn new(alloc: Global) -> ZoneDatabase
        ensures { zones_in result ≡ [] }
    {
        ZoneDatabase {
            zones: BTreeMap::new(alloc),
            prepared: false,
        }
    }

    /// The zone of an origin. Doesn't allocate.
    pub fn get(&self, origin: &LowerName) -> Option<&Zone>
        ensures { option_copied result ≡ find (begins_at origin.now) (zones_in self.now) }
    {
        match self.zones.get(origin) {
            Some(stored) => Some(stored.zone()),
            None => None,
        }
    }

    /// The zone of an origin, shared: it stays as it is, whatever is put in its place or taken out. Fails only for lack of memory.
    pub fn share(&self, origin: &LowerName) -> Result<Option<Arc<Zone>>, AllocError>
        ensures { IfOk result (λ zone. option_map arc_value zone
            ≡ find (begins_at origin.now) (zones_in self.now)) }
    {
        match self.zones.get(origin) {
            Some(stored) => {
                let zone = stored.share_zone()?;
                Ok(Some(zone))
            }
            None => Ok(None),
        }
    }

    /// Whether there is a zone of an origin. Doesn't allocate.
    pub fn contains(&self, origin: &LowerName) -> bool
        ensures { result ≡ has_zone origin.now (zones_in self.now) }
    {
        self.zones.contains_key(origin)
    }

    /// Puts a zone among the others, replacing the one with its origin, if there is one. Fails only for lack of memory, and
    /// then the zones are as they were.
    pub fn put(&mut self, alloc: Global, zone: Zone) -> Result<(), AllocError>
        ensures put { OnOk result (zones_in self.new ≡ with_zone zone (zones_in self.old)) }
        ensures same { OnErr result (zones_in self.new ≡ zones_in self.old) }
    {
        self.put_next(alloc, NextZone::of(zone))
    }

    /// Puts a zone among the others as [`put`](ZoneDatabase::put) does, and keeps the version before it, where it was made of that by
    /// [`next_zone`](ZoneDatabase::next_zone) or [`NextZone::made_of`]: the next change is made in that version then.
    pub fn put_next(&mut self, alloc: Global, next: NextZone) -> Result<(), AllocError>
        ensures put { OnOk result (zones_in self.new ≡ with_zone next (zones_in self.old)) }
        ensures same { OnErr result (zones_in self.new ≡ zones_in self.old) }
    {
        let Ok(origin) = next.origin().clone() else {
            return Err(AllocError);
        };
        let stored = StoredZone::of_next(alloc, next)?;
        match self.zones.insert(origin, stored) {
            Ok(_) => Ok(()),
            Err(_) => Err(AllocError),
        }
    }

    /// Takes the zone of an origin out, and says whether there was one. Doesn't allocate.
    pub fn remove(&mut self, origin: &LowerName) -> bool
        ensures left { zones_in self.new ≡ without origin.now (zones_in self.old) }
        ensures found { result ≡ has_zone origin.now (zones_in self.old) }
    {
        self.zones.remove(origin).is_some()
    }

    /// A further database of the same zones, which are in memory once. Fails only for lack of memory.
    pub fn copy(&self, alloc: Global) -> Result<ZoneDatabase, AllocError>
        ensures { IfOk result (λ other. zones_in other ≡ zones_in self.now) }
    {
        let mut zones = BTreeMap::new(alloc);
        for (origin, stored) in &self.zones {
            let Ok(origin) = origin.clone() else {
                return Err(AllocError);
            };
            zones.insert(origin, stored.share()?)?;
        }
        Ok(ZoneDatabase {
            zones,
            prepared: self.prepared,
        })
    }

    /// Keeps the answers that the zone of an origin gives most, as the octets that go out, until the zone is replaced or taken
    /// out. Says whether there is such a zone. No answer changes by it, and no zone: it is answered in less time, for memory
    /// that grows with the number of the zone's names. Fails only for lack of memory.
    pub fn prepare(&mut self, alloc: Global, origin: &LowerName) -> Result<bool, AllocError>
        ensures same { zones_in self.new ≡ zones_in self.old }
        ensures found { IfOk result (λ found. found ≡ has_zone origin.now (zones_in self.old)) }
    {
        self.prepared = true;
        match self.zones.get_mut(origin) {
            Some(stored) => stored.prepare(alloc),
            None => Ok(false),
        }
    }

    /// Answers a message from the zones, as `zone_server` does. How long it takes grows with the logarithm of how many
    /// zones there are. Fails only for lack of memory.
    #[tactic(auto, using(crate::proofs::Answered::answered))]
    pub fn answer(
        &self,
        alloc: Global,
        message: &[u8],
        transport: Transport,
        out: &mut Vec<u8>,
    ) -> Result<Answered, AllocError>
        ensures answer { OnOk result
            (IsAnswer (map served_zone (zones_in self.now)) transport message.now
            out.new.items) }
        ensures told { IfOk result (λ told. SaysWhether told out.new.items) }
    {
        self.answer_from(alloc, message, transport, out)?;
        if out.is_empty() {
            Ok(Answered::Nothing)
        } else {
            Ok(Answered::Response)
        }
    }

    /// Answers a message in the same way, and gives how many labels the origin of the zone has that answers, that of the root among them: so
    /// many at the end of the question's name are the origin. It is 0 where no zone answers. Fails only for lack of memory.
    pub fn answer_from(
        &self,
        alloc: Global,
        message: &[u8],
        transport: Transport,
        out: &mut Vec<u8>,
    ) -> Result<usize, AllocError>
        ensures { IfOk result (λ labels. IsAnswerFrom (map served_zone (zones_in self.now))
            transport message.now labels out.new.items) }
    {
        let read = read_query(alloc, message);
        if self.prepared {
            if let Some(labels) = self.put_ready(message, &read, transport, out)? {
                return Ok(labels);
            }
        }
        answer_read_from(alloc, self, read, transport, out)
    }

    /// Answers a message by an answer that is kept, if there is one, and gives how many labels the origin of its zone has. `read` is what is
    /// read of the message. Fails only for lack of memory.
    fn put_ready(
        &self,
        message: &[u8],
        read: &Result<Query, ReadError>,
        transport: Transport,
        out: &mut Vec<u8>,
    ) -> Result<Option<usize>, AllocError>
        requires { ReadsQuery read.now (query_of message.now) }
        ensures { IfOk result (λ found. IfSome found (λ labels. IsAnswerFrom
            (map served_zone (zones_in self.now)) transport message.now labels
            out.new.items)) }
    {
        match read {
            Ok(query) => self.put_ready_to(message, query, transport, out),
            Err(_) => Ok(None),
        }
    }

    /// The same for what was read of the message. For DS a zone that isn't the nearest may answer, so no answers to that are
    /// looked for.
    fn put_ready_to(
        &self,
        message: &[u8],
        query: &Query,
        transport: Transport,
        out: &mut Vec<u8>,
    ) -> Result<Option<usize>, AllocError>
        ensures { IfOk result (λ found. IfSome found (λ labels. query_of message.now ≡ Ok query.now
            → IsResponseFrom (map served_zone (zones_in self.now))
            (limit_for transport query.now.extension) query.now labels out.new.items)) }
    {
        if query.question.query_type == RecordType::DS {
            return Ok(None);
        }
        let Ok(name) = LowerName::new(&query.question.name) else {
            return Err(AllocError);
        };
        match nearest(&self.zones, &name)? {
            Some((origin, stored)) => {
                if stored.put_ready(message, query, &name, transport, out)? {
                    Ok(Some(origin.num_labels() + 1))
                } else {
                    Ok(None)
                }
            }
            None => Ok(None),
        }
    }
}
