//! A table of ready answers.
ghost use Rattle.std.specs.Prelude.{◌≡◌, ◌≤◌, ◌<◌, ◌+◌, Ok, drop, false, length, take, IfOk, IfSome, IsTrue, OnOk};
ghost use Rattle.message_reading.specs.declared.query.Query.{Query as Asked};
ghost use Rattle.message_reading.specs.Queries.{query_of};
ghost use Rattle.zone_proto.specs.Names.{lower};
ghost use Rattle.zone_response.specs.Queries.{zone_of, Zone};
ghost use Rattle.zone_server.specs.Limits.{limit_for};
ghost use Rattle.ready_answers.specs.Again.{said_by};
ghost use Rattle.ready_table.specs.Ready.{octets_at, question_at, AreReady, DeniesFor, RefersFor, IsFound, IsQuestionText, IsReady, IsReadyAt};

use crate::limits::{is_same, said_by};
use crate::questions::hint_of;
use message_reading::{HEADER_OCTETS, Query};
use ready_answers::put_again;
use ready_denials::{ReadyDenial, put_denial};
use ready_referrals::{ReadyReferrals, put_referral};
use std::alloc::{AllocError, Global};
use zone_proto::{LowerName, Nsec3Hash, RecordType, Signer};
use zone_response::ServedZone;
use zone_server::{Transport, limit_for};

/// How many slots are looked at for a query.
const MOST_SLOTS: usize = 16;

/// Where a ready answer is among the octets of a table.
#[derive(Clone, Copy)]
pub struct Place {
    /// Where it begins.
    pub(crate) start: u32,
    /// How many octets it has.
    pub(crate) size: u16,
    /// How many of them its question has.
    pub(crate) question: u16,
    /// How many it was allowed to have.
    pub(crate) limit: u16,
    /// The DO bit of the query, if it had an OPT record.
    pub(crate) dnssec_ok: Option<bool>,
}

/// Responses of a zone as the octets that go out. Which zone's they are is said by `AreReady`.
#[derive(Drop)]
pub struct ReadyTable {
    /// Where each of them is.
    pub(crate) places: Vec<Place>,
    /// All of them, one behind the other.
    pub(crate) octets: Vec<u8>,
    /// One more than the index of a place, or 0, where the hints of queries lead to.
    pub(crate) slots: Vec<u32>,
    /// What denies names one label below the origin that don't exist, if that is kept.
    pub(crate) denial: Option<ReadyDenial>,
    /// What refers at and below zone cuts.
    pub(crate) referrals: ReadyReferrals,
}

impl ReadyTable {
    /// A table of no answers. Doesn't allocate.
    pub fn new(alloc: Global) -> ReadyTable
        ensures { (z : Zone) → AreReady z result }
    {
        ReadyTable {
            places: Vec::new(alloc),
            octets: Vec::new(alloc),
            slots: Vec::new(alloc),
            denial: None,
            referrals: ReadyReferrals::new(alloc),
        }
    }

    /// How many answers there are. Doesn't allocate.
    pub fn len(&self) -> usize {
        self.places.len()
    }

    /// Puts the ready answer to a query in place of the octets of `out`, and says whether there is one; `query` is what is read of
    /// the message. It is an answer of the zone whose answers the table has, within what the response to this query may have.
    /// Where there is none, `out` is as it was. Fails only for lack of memory, and then the octets of `out` are gone.
    pub fn put_ready(
        &self,
        message: &[u8],
        query: &Query,
        transport: Transport,
        out: &mut Vec<u8>,
    ) -> Result<bool, AllocError>
        ensures ready { IfOk result (λ found. IsTrue found → (z : Zone) → AreReady z self.now
            → query_of message.now ≡ Ok query.now
            → IsReady z (limit_for transport query.now.extension) query.now out.new.items) }
        ensures same { IfOk result (λ found. found ≡ false → out.new.items ≡ out.old.items) }
    {
        let limit = limit_for(transport, query);
        match self.find(message, query.question.query_type, limit, said_by(query)) {
            Some(ready) => put_again(out, ready, query),
            None => Ok(false),
        }
    }

    /// Puts the denial of a name one label below the origin of the zone that doesn't exist in place of the octets of `out`, if what denies it is kept,
    /// and says whether it did. It is an answer of the zone, within what the response to this query may have. `name` is that of the question in lower
    /// case. If it didn't, the octets of `out` are no response. Fails only for lack of memory.
    pub fn put_denial<S: Signer, H: Nsec3Hash>(
        &self,
        alloc: Global,
        zone: &ServedZone<'_, S, H>,
        query: &Query,
        name: &LowerName,
        transport: Transport,
        out: &mut Vec<u8>,
    ) -> Result<bool, AllocError>
        requires kept { DeniesFor (zone_of S.signature_of H.digest_of zone.now) self.now }
        requires name { name.now ≡ lower query.now.question.name }
        ensures { IfOk result (λ denied. IsTrue denied
            → IsReady (zone_of S.signature_of H.digest_of zone.now)
            (limit_for transport query.now.extension) query.now out.new.items) }
    {
        match &self.denial {
            Some(denial) => {
                let limit = limit_for(transport, query);
                put_denial(alloc, zone, denial, query, name, limit, out)
            }
            None => Ok(false),
        }
    }

    /// Puts the referral of a name at or below a zone cut in place of the octets of `out`, if it is kept, and says whether it did. It is an answer of the
    /// zone, within what the response to this query may have. `name` is that of the question in lower case. If it didn't, the octets of `out` are no
    /// response. Fails only for lack of memory.
    pub fn put_referral(
        &self,
        alloc: Global,
        query: &Query,
        name: &LowerName,
        transport: Transport,
        out: &mut Vec<u8>,
    ) -> Result<bool, AllocError>
        requires kept { (z : Zone) × RefersFor z self.now }
        requires name { name.now ≡ lower query.now.question.name }
        ensures { IfOk result (λ referred. IsTrue referred → (z : Zone) → RefersFor z self.now
            → IsReady z (limit_for transport query.now.extension) query.now out.new.items) }
    {
        let limit = limit_for(transport, query);
        put_referral(alloc, &self.referrals, query, name, limit, out)
    }

    /// The octets of the answer to a message of this type that says so by EDNS, within a limit.
    fn find(
        &self,
        message: &[u8],
        query_type: RecordType,
        limit: u16,
        dnssec_ok: Option<bool>,
    ) -> Option<&[u8]>
        ensures { IfSome result (λ ready. (z : Zone) → AreReady z self.now
            → IsFound z limit dnssec_ok message.now ready.now) }
    {
        let count = self.slots.len();
        if count == 0 {
            return None;
        }
        let first = hint_of(message, query_type, dnssec_ok);
        for step in 0..MOST_SLOTS {
            let slot = first.wrapping_add(step) % count;
            let number = self.slots[slot];
            if number == 0 {
                return None;
            }
            let ready = self.asked_at((number - 1) as usize, message, limit, dnssec_ok);
            if ready.is_some() {
                return ready;
            }
        }
        None
    }

    /// The octets at a place, if they answer a message that says so by EDNS, within a limit.
    fn asked_at(
        &self,
        index: usize,
        message: &[u8],
        limit: u16,
        dnssec_ok: Option<bool>,
    ) -> Option<&[u8]>
        ensures { IfSome result (λ ready. (z : Zone) → AreReady z self.now
            → IsFound z limit dnssec_ok message.now ready.now) }
    {
        let place = *self.places.get(index)?;
        if place.limit != limit || !is_same(place.dnssec_ok, dnssec_ok) {
            return None;
        }
        let ready = octets_at(self.octets.as_slice(), place)?;
        if has_question(ready, message, place.question) {
            Some(ready)
        } else {
            None
        }
    }

    /// Keeps an answer of so many octets of a question, to a query that says so by EDNS, within a limit. Keeps none that a table has no
    /// numbers for.
    pub(crate) fn keep(
        &mut self,
        ready: &[u8],
        question: usize,
        limit: u16,
        dnssec_ok: Option<bool>,
    ) -> Result<(), AllocError>
        ensures { OnOk result ((z : Zone) (q : Asked) → IsReady z limit q ready.now
            → said_by q.extension ≡ dnssec_ok
            → IsQuestionText q.question (take question (drop 12 ready.now))
            → 12 + question ≤ length ready.now
            → AreReady z self.old → AreReady z self.new) }
    {
        let start = self.octets.len();
        let Some(place) = place_of(start, ready.len(), question, limit, dnssec_ok) else {
            return Ok(());
        };
        self.octets.extend_from_slice(ready)?;
        self.places.push(place)?;
        Ok(())
    }

    /// The table with slots for the hints of its queries, two for each place, and without memory that isn't used.
    pub(crate) fn with_slots(self, alloc: Global) -> Result<ReadyTable, AllocError>
        ensures { IfOk result (λ table. (z : Zone) → AreReady z self → AreReady z table) }
    {
        let slots = slots_of(alloc, &self)?;
        let ReadyTable {
            places,
            octets,
            denial,
            referrals,
            ..
        } = self;
        Ok(ReadyTable {
            places,
            octets,
            slots,
            denial,
            referrals,
        })
    }

    /// The hint of the query that is answered at a place.
    fn hint_at(&self, place: Place) -> usize {
        match octets_at(self.octets.as_slice(), place) {
            Some(ready) => hint_of(ready, type_of(ready, place.question), place.dnssec_ok),
            None => 0,
        }
    }
}

/// Slots for the hints of the queries of a table.
fn slots_of(alloc: Global, table: &ReadyTable) -> Result<Vec<u32>, AllocError> {
    let count = table.places.len().saturating_mul(2);
    let mut slots = vec![in alloc; 0u32; count]?;
    if count == 0 {
        return Ok(slots);
    }
    let mut number = 0u32;
    for place in table.places.iter() {
        if number == u32::MAX {
            break;
        }
        number += 1;
        let first = table.hint_at(*place);
        put_number(slots.as_mut_slice(), first, number);
    }
    Ok(slots)
}

/// Puts a number into the first slot that is free from a hint on, if one is among those that are looked at.
fn put_number(slots: &mut [u32], first: usize, number: u32) {
    let count = slots.len();
    if count == 0 {
        return;
    }
    for step in 0..MOST_SLOTS {
        let slot = first.wrapping_add(step) % count;
        if slots[slot] == 0 {
            slots[slot] = number;
            return;
        }
    }
}

/// The place of an answer of so many octets, if there are numbers for it.
fn place_of(
    start: usize,
    size: usize,
    question: usize,
    limit: u16,
    dnssec_ok: Option<bool>,
) -> Option<Place>
    ensures start { IfSome result (λ p. p.start ≡ start) }
    ensures size { IfSome result (λ p. p.size ≡ size) }
    ensures question { IfSome result (λ p. p.question ≡ question) }
    ensures limit { IfSome result (λ p. p.limit ≡ limit) }
    ensures said { IfSome result (λ p. p.dnssec_ok ≡ dnssec_ok) }
{
    if start > 4_294_967_295 || size > 65_535 || question > 65_535 {
        return None;
    }
    Some(Place {
        start: start as u32,
        size: size as u16,
        question: question as u16,
        limit,
        dnssec_ok,
    })
}

/// The octets at a place, if it is within all of them.
fn octets_at(all: &[u8], place: Place) -> Option<&[u8]>
    ensures { IfSome result (λ ready. ready.now ≡ octets_at all.now place) }
{
    let start = place.start as usize;
    let end = start + usize::from(place.size);
    if end > all.len() {
        return None;
    }
    Some(&all[start..end])
}

/// Whether the question of so many octets of a response is that of a message.
fn has_question(ready: &[u8], message: &[u8], count: u16) -> bool
    ensures within { IsTrue result → 12 + count ≤ length message.now }
    ensures same { IsTrue result
        → take count (drop 12 ready.now) ≡ take count (drop 12 message.now) }
{
    let end = HEADER_OCTETS + usize::from(count);
    if ready.len() < end || message.len() < end {
        return false;
    }
    ready[HEADER_OCTETS..end] == message[HEADER_OCTETS..end]
}

/// The type that the question of so many octets of a response asks for (RFC 1035 section 4.1.2).
fn type_of(ready: &[u8], count: u16) -> RecordType {
    let at = (HEADER_OCTETS + usize::from(count)).saturating_sub(4);
    match (ready.get(at), ready.get(at + 1)) {
        (Some(high), Some(low)) => RecordType(u16::from(*high) * 256 + u16::from(*low)),
        _ => RecordType(0),
    }
}
