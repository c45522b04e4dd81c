//! What a call is passed.

use crate::fault::Fault;
use crate::manner::Manner;
use crate::row_hash::RowHash;
use std::alloc::Global;
use std::collections::BTreeMap;
use std::mem;
use zone_handler::{AxfrPolicy, LookupOptions, Request, ZoneType};
use zone_proto::{
    DNSClass, LowerName, Message, Name, NxProofKind, Query, RData, Record, RecordSet, RecordType,
    RrKey, Rrsigs, SoaRecord,
};

/// Record sets by their keys.
pub type Sets = BTreeMap<RrKey, RecordSet>;

/// What a call is passed, by kinds of values. Of a kind, what is read last is taken first. What there is none of is taken as
/// the least value of its kind, so that to take it is no early exit; the form of a call sees to it that all is there.
#[derive(Drop)]
pub struct Arguments<'r> {
    pub alloc: Global,
    pub fault: Fault,
    pub text: &'r str,
    pub names: Vec<Name>,
    pub types: Vec<RecordType>,
    pub numbers: Vec<u64>,
    pub octets: Vec<Vec<u8>>,
    pub data: Vec<RData>,
    pub data_types: Vec<RecordType>,
    pub classes: Vec<DNSClass>,
    pub queries: Vec<Query>,
    pub sections: Message,
    pub is_flagged: bool,
    pub zone_type: ZoneType,
    pub policy: AxfrPolicy,
    pub kind: Option<NxProofKind>,
    pub hash: RowHash,
    pub manner: Manner,
    pub sets: Sets,
    pub copies: Vec<RecordSet>,
    pub rrsigs: Option<Rrsigs>,
    pub soa: Option<Box<SoaRecord>>,
}

impl<'r> Arguments<'r> {
    /// Nothing; for a zone, a primary that anybody may transfer, which denies by nothing, and whose hash has no
    /// digests. It doesn't allocate.
    pub fn new(alloc: Global) -> Arguments<'r> {
        Arguments {
            alloc,
            fault: Fault::new(),
            text: "",
            names: Vec::new(alloc),
            types: Vec::new(alloc),
            numbers: Vec::new(alloc),
            octets: Vec::new(alloc),
            data: Vec::new(alloc),
            data_types: Vec::new(alloc),
            classes: Vec::new(alloc),
            queries: Vec::new(alloc),
            sections: no_sections(alloc),
            is_flagged: false,
            zone_type: ZoneType::Primary,
            policy: AxfrPolicy::AllowAll,
            kind: None,
            hash: RowHash::new(alloc),
            manner: Manner::Whole(u64::MAX),
            sets: BTreeMap::new(alloc),
            copies: Vec::new(alloc),
            rrsigs: None,
            soa: None,
        }
    }

    pub fn take_name(&mut self) -> Name {
        take(&mut self.names, Name::root(self.alloc))
    }

    pub fn take_lower(&mut self) -> LowerName {
        LowerName::from(self.take_name())
    }

    pub fn take_type(&mut self) -> RecordType {
        take(&mut self.types, RecordType(0))
    }

    /// All types, in the order in which they were read.
    pub fn take_types(&mut self) -> Vec<RecordType> {
        mem::replace(&mut self.types, Vec::new(self.alloc))
    }

    /// The key of a name and a type.
    pub fn take_key(&mut self) -> RrKey {
        RrKey::new(self.take_lower(), self.take_type())
    }

    /// The question for a name and a type, of class IN.
    pub fn take_query(&mut self) -> Query {
        Query {
            name: self.take_lower(),
            query_type: self.take_type(),
            query_class: DNSClass::IN,
        }
    }

    /// The request of all questions that were read.
    pub fn take_request(&mut self) -> Request {
        Request {
            queries: mem::replace(&mut self.queries, Vec::new(self.alloc)),
        }
    }

    pub fn take_number(&mut self) -> u64 {
        take(&mut self.numbers, 0)
    }

    /// A number of 32 bits, the greatest if it has more.
    pub fn take_long(&mut self) -> u32 {
        u32::try_from(self.take_number()).unwrap_or(u32::MAX)
    }

    /// A number of 16 bits, the greatest if it has more.
    pub fn take_short(&mut self) -> u16 {
        u16::try_from(self.take_number()).unwrap_or(u16::MAX)
    }

    /// A number of 8 bits, the greatest if it has more.
    pub fn take_octet(&mut self) -> u8 {
        u8::try_from(self.take_number()).unwrap_or(u8::MAX)
    }

    pub fn take_octets(&mut self) -> Vec<u8> {
        take(&mut self.octets, Vec::new(self.alloc))
    }

    /// All octets, in the order in which they were read.
    pub fn take_labels(&mut self) -> Vec<Vec<u8>> {
        mem::replace(&mut self.octets, Vec::new(self.alloc))
    }

    pub fn take_hash(&mut self) -> RowHash {
        mem::replace(&mut self.hash, RowHash::new(self.alloc))
    }

    pub fn take_kind(&mut self) -> Option<NxProofKind> {
        self.kind.take()
    }

    pub fn take_sets(&mut self) -> Sets {
        mem::replace(&mut self.sets, BTreeMap::new(self.alloc))
    }

    /// The set of which a copy was put last to the others, if there is one.
    pub fn take_copy(&mut self) -> Option<RecordSet> {
        self.copies.pop()
    }

    /// All sets of which there are copies, in the order in which these were made.
    pub fn take_copies(&mut self) -> Vec<RecordSet> {
        mem::replace(&mut self.copies, Vec::new(self.alloc))
    }

    /// The response whose sections were read.
    pub fn take_sections(&mut self) -> Message {
        mem::replace(&mut self.sections, no_sections(self.alloc))
    }

    /// A record of the data that were read, and of the owner name and the TTL before them.
    pub fn take_record(&mut self) -> Record {
        let rdata = self.take_data();
        let ttl = self.take_long();
        let mut record = Record::from_rdata(self.take_name(), ttl, rdata);
        record.dns_class = take(&mut self.classes, DNSClass::IN);
        record
    }

    /// Whether signatures are wanted: they are where the flag stood.
    pub fn options(&self) -> LookupOptions {
        LookupOptions {
            dnssec_ok: self.is_flagged,
        }
    }
}

/// A response without records.
fn no_sections(alloc: Global) -> Message {
    Message {
        answers: Vec::new(alloc),
        authorities: Vec::new(alloc),
        additionals: Vec::new(alloc),
    }
}

/// Takes what was put last into a list, or another value if there is nothing. It is of any type, so that a proof has nothing to
/// take apart.
pub fn take<T: Drop>(list: &mut Vec<T>, other: T) -> T {
    match list.pop() {
        Some(value) => value,
        None => other,
    }
}
