//! The secondary of a zone: what is held, and what was asked.
ghost use Rattle.std.specs.Prelude.{◌≡◌, if◌then◌else◌, IfErr, IfOk, OnErr, Some};
ghost use Rattle.message_notify.specs.Notifies.{notify_of};
ghost use Rattle.message_reading.specs.Messages.{message_of};
ghost use Rattle.transfer_reading.specs.Outcomes.{said};
ghost use Rattle.transferred_zones.specs.HeldRecords.{records_in};
ghost use Rattle.transferred_zones.specs.Taking.{IsTaken, IsTakeFault};
ghost use Rattle.zone_proto.specs.Names.{lower};
ghost use Rattle.zone_secondary.specs.States.{is_expired_in};
ghost use Rattle.secondaryd.specs.Channels.{behind, is_open, stage_of, whole};
ghost use Rattle.secondaryd.specs.Followings.{failed, holding, keeping, lapsed, nothing, outcome_for, Asks, Finishes, Follows, GoesOn, Notices};

use crate::channel::{Channel, Step};
use crate::events::{NoMemory, Progress};
use crate::version::version_in;
use message_notify::{Notify, NotifyOutcome, read_notify, write_notify_response};
use message_tsig::Key;
use std::alloc::Global;
use transfer_reading::{Asked, Stage, Transfer};
use transferred_zones::{TakeFault, Taken, take_zone};
use zone_map::RecordMap;
use zone_proto::{LowerName, Name, ProtoError, RecordType, RrKey};
use zone_secondary::Secondary;

/// The secondary of a zone. Moments are in seconds since 1970.
#[derive(Drop)]
pub struct Following {
    /// The key of the apex' SOA record.
    pub apex: RrKey,
    /// How the primary is spoken to.
    pub channel: Channel,
    /// Which question goes out next, and when.
    pub state: Secondary,
    /// The zone that is held; no sets where none is.
    pub held: RecordMap,
}

impl Following {
    /// A secondary that holds no zone, and signs its questions with a key, if there is one.
    pub fn new(alloc: Global, origin: LowerName, key: Option<Key>) -> Following
        ensures { result ≡ nothing origin key }
    {
        Following {
            apex: RrKey::new(origin, RecordType::SOA),
            channel: Channel::new(key),
            state: Secondary::new(0),
            held: RecordMap::new(alloc),
        }
    }

    /// Holds a zone from before, which was the primary's at a moment for the last time.
    pub fn keep(&mut self, zone: RecordMap, confirmed: u64)
        ensures { self.new ≡ keeping self.old zone confirmed }
    {
        if let Some(version) = version_in(&zone, &self.apex) {
            self.state = Secondary::with_zone(version, confirmed, confirmed);
        }
        self.held = zone;
    }

    /// Lets the zone go, if it has expired, and says whether it has.
    pub fn expire(&mut self, alloc: Global, now: u64) -> bool
        ensures expired { result ≡ is_expired_in self.old.state.held now }
        ensures lapsed { self.new ≡ lapsed self.old now }
    {
        let is_expired = self.state.expire(now);
        if is_expired {
            self.held = RecordMap::new(alloc);
        }
        is_expired
    }

    /// The question that is due, as octets, with this identifier; none where none is due. Refused for want of memory alone.
    pub fn ask(&mut self, alloc: Global, id: u16, now: u64) -> Result<Option<Vec<u8>>, NoMemory>
        ensures ok { IfOk result (Asks self.old id now self.new) }
        ensures same { OnErr result (self.new ≡ self.old) }
    {
        let due = self.state.due();
        if due.from > now {
            return Ok(None);
        }
        let asked = Asked {
            id,
            origin: Name::from(self.apex.name.clone()?),
            question: due.question,
        };
        let octets = self.channel.ask(alloc, asked, now)?;
        self.state.ask(now);
        Ok(Some(octets))
    }

    /// Takes the next message of the answer, and says what comes of it. The zone that is held becomes another one only where it was taken.
    #[tactic(auto, using(crate::proofs::FollowingFacts::follows_on, crate::proofs::FollowingFacts::follows_wrong))]
    pub fn take(&mut self, alloc: Global, message: &[u8], now: u64) -> Progress
        ensures { Follows self.old (behind self.old.channel now message.now) now result self.new }
    {
        match self.channel.take(alloc, message, now) {
            Step::Unasked => Progress::Unasked,
            Step::Reached(stage) => self.go_on(alloc, stage, now),
            Step::Wrong(fault) => {
                self.give_up(now);
                Progress::Wrong(fault)
            }
        }
    }

    /// Takes what the answer says, if it has come to its end.
    #[tactic(auto, using(crate::proofs::FollowingFacts::goes_to_end))]
    fn go_on(&mut self, alloc: Global, stage: Stage, now: u64) -> Progress
        requires { stage_of self.old.channel ≡ Some stage }
        ensures { GoesOn self.old now result self.new }
    {
        match stage {
            Stage::WholeZone | Stage::AllDifferences | Stage::SerialAlone(_) => {
                self.finish(alloc, now)
            }
            Stage::Before
            | Stage::Begun(_)
            | Stage::InZone(_)
            | Stage::TakingOut(_)
            | Stage::Giving(_, _) => Progress::More,
        }
    }

    /// Takes what the answer says.
    #[tactic(auto, using(crate::proofs::FollowingFacts::nothing_signed, crate::proofs::FollowingFacts::answer_ends))]
    fn finish(&mut self, alloc: Global, now: u64) -> Progress
        ensures { Finishes self.old (whole self.old.channel) now result self.new }
    {
        let Some(transfer) = self.channel.close() else {
            self.state.fail(now);
            return Progress::Unsigned;
        };
        match taken_of(alloc, &self.apex, transfer, &self.held) {
            Ok(Taken::Zone(zone)) => {
                self.hold(zone, now);
                Progress::Taken
            }
            Ok(Taken::Serial(serial)) => Progress::Serial(serial, self.state.poll(serial, now)),
            Err(fault) => {
                self.state.fail(now);
                Progress::NotTaken(fault)
            }
        }
    }

    /// Holds a zone from now on, which is the primary's now.
    fn hold(&mut self, zone: RecordMap, now: u64)
        ensures { self.new ≡ holding self.old zone now }
    {
        if let Some(version) = version_in(&zone, &self.apex) {
            self.state.transferred(version, now);
        }
        self.held = zone;
    }

    /// Says that nothing comes of the question that went out.
    pub fn fail(&mut self, now: u64)
        ensures { self.new ≡ (if is_open self.old.channel then failed self.old now else self.old) }
    {
        if self.channel.is_open() {
            self.give_up(now);
        }
    }

    /// Waits for no answer any more, of which nothing comes.
    fn give_up(&mut self, now: u64)
        ensures { self.new ≡ failed self.old now }
    {
        let _ = self.channel.close();
        self.state.fail(now);
    }

    /// The octets that answer a NOTIFY; none where the octets are none. Refused for want of memory alone.
    pub fn notify(
        &mut self,
        alloc: Global,
        message: &[u8],
        now: u64,
    ) -> Result<Option<Vec<u8>>, NoMemory>
        ensures ok { IfOk result
            (Notices self.old (notify_of (message_of message.now)) now self.new) }
        ensures same { OnErr result (self.new ≡ self.old) }
    {
        let Some(notify) = read_notify(alloc, message)? else {
            return Ok(None);
        };
        let outcome = self.outcome_for(&notify)?;
        let response = write_notify_response(alloc, &notify, outcome)?;
        if outcome == NotifyOutcome::Taken {
            self.state.notify(notify.serial, now);
        }
        Ok(Some(response))
    }

    /// What a NOTIFY is answered with.
    fn outcome_for(&self, notify: &Notify) -> Result<NotifyOutcome, ProtoError>
        ensures { IfOk result (λ outcome. outcome ≡ outcome_for self.now notify.now) }
    {
        Ok(if LowerName::new(&notify.origin)? == self.apex.name {
            NotifyOutcome::Taken
        } else {
            NotifyOutcome::NotAuthoritative
        })
    }
}

/// What an answer says of the zone whose SOA record has this key, beside the zone that is held.
fn taken_of(
    alloc: Global,
    apex: &RrKey,
    transfer: Transfer,
    held: &RecordMap,
) -> Result<Taken, TakeFault>
    ensures ok { IfOk result
        (IsTaken (lower apex.now.name) (said transfer (records_in held.now))) }
    ensures err { IfErr result
        (IsTakeFault (lower apex.now.name) (said transfer (records_in held.now))) }
{
    let origin = Name::from(apex.name.clone()?);
    take_zone(alloc, origin, transfer, held)
}
