//! What calls are made on.

use crate::denials::{make_denial_call, write_owners};
use crate::judgements::make_judgement_call;
use crate::searches::make_search_call;
use crate::sets::make_set_call;
use crate::texts::{Zone, write_zone};
use crate::zones::make_zone_call;
use library_rows_arguments::{Arguments, Form, Held, RowHash};
use library_rows_values::{Answer, make_handler_call, make_value_call, write_set};
use std::alloc::Global;
use zone_handler::{AxfrPolicy, ZoneType};
use zone_proto::{Name, RecordType};
use zone_store::{InMemoryZoneHandler, Searches};

/// A zone, a hash beside it, the sets that rows share, and the count of searches.
#[derive(Drop)]
pub struct State {
    pub zone: Zone,
    pub hash: RowHash,
    pub held: Held,
    pub searches: Searches,
}

impl State {
    /// The zone of the root without records, and no sets.
    pub fn new(alloc: Global) -> State {
        State {
            zone: InMemoryZoneHandler::empty(
                Name::root(alloc),
                ZoneType::Primary,
                AxfrPolicy::AllowAll,
                None,
                RowHash::new(alloc),
            ),
            hash: RowHash::new(alloc),
            held: Held::new(alloc),
            searches: Searches::new(),
        }
    }

    /// Makes a call, and writes what it answers.
    pub fn make(&mut self, out: &mut Answer, call: Form, arguments: &mut Arguments<'_>) {
        let verb = call.verb;
        match call.subject {
            "sets" => make_set_call(out, &mut self.held, verb, arguments),
            "zones" => make_zone_call(out, self, verb, arguments),
            "searches" => make_search_call(out, self, verb, arguments),
            "denials" => make_denial_call(out, self, verb, arguments),
            "handlers" => make_handler_call(out, &mut self.zone, verb, arguments),
            "judgements" => make_judgement_call(out, self, verb, arguments),
            _ => make_value_call(out, call, arguments),
        }
    }

    /// Writes all that a call could change: the zone and its indexes, the current set, and how many sets are collected and
    /// signers are there.
    pub fn write(&self, out: &mut Answer) {
        write_zone(out, &self.zone);
        if let Some(set) = &self.held.set {
            out.say(" current: ");
            write_set(out, set);
        }
        out.say(" ");
        out.put(&self.held.collected.len());
        out.say(" collected ");
        out.put(&self.zone.secure_keys().len());
        out.say(" signers");
        write_owners(out, self.zone.inner(), RecordType::NSEC);
        write_owners(out, self.zone.inner(), RecordType::NSEC3);
    }
}

/// Puts a value into the place of another one. It is of any type, so that a proof has nothing to take apart.
pub fn replace<T: Drop>(out: &mut Answer, place: &mut T, value: T) {
    *place = value;
    out.say("done");
}
