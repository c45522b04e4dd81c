//! What a lookup answers: records, with additional ones, a transfer, or nothing.
ghost use Rattle.std.specs.Prelude.{◌≡◌, ◌↔◌, [], IsTrue, None};
ghost use Rattle.std.specs.Option.{option_map};
ghost use Rattle.zone_handler.specs.Answers.{left_in};
ghost use Rattle.zone_handler.specs.AuthLookup.{records_of, left_of, kept_additionals, additionals_of, authorities_of, zone_answers, WithoutAdditionals};

use crate::auth_lookup_iter::AuthLookupIter;
use crate::lookup_records::LookupRecords;
use crate::lookup_records_iter::LookupRecordsIter;
use std::mem;
use zone_proto::{Message, Record};

/// What a lookup answers. The default is empty.
#[derive(Debug, Drop)]
pub enum AuthLookup {
    /// Nothing.
    Empty,
    /// Records of the zone.
    Records {
        /// What answers the question (the answer section, RFC 1035 section 4.1).
        answers: LookupRecords,
        /// What may help beside the answer (the additional section), if anything does.
        additionals: Option<LookupRecords>,
    },
    /// A response of another server.
    Response(Message),
}

impl Default for AuthLookup {
    ghost use Rattle.std.specs.Prelude.{◌≡◌};
    ghost use Rattle.zone_handler.specs.declared.auth_lookup.AuthLookup.TheVariants.{Empty};

    ghost is_default = { λ answer. answer ≡ Empty };

    fn default() -> AuthLookup {
        AuthLookup::Empty
    }
}

impl AuthLookup {
    /// An answer of the zone: what answers the question, and what may help beside it.
    pub fn answers(answers: LookupRecords, additionals: Option<LookupRecords>) -> AuthLookup
        ensures { result ≡ AuthLookup.Records answers additionals }
    {
        AuthLookup::Records {
            answers,
            additionals,
        }
    }

    /// Lends the records that answer the question, in order. Doesn't allocate.
    pub fn iter(&self) -> AuthLookupIter<'_>
        ensures { left_of result ≡ records_of self.now }
    {
        match self {
            AuthLookup::Empty => AuthLookupIter::Empty,
            AuthLookup::Records { answers, .. } => AuthLookupIter::Records(answers.iter()),
            AuthLookup::Response(message) => AuthLookupIter::Response(message.answers.iter()),
        }
    }

    /// Whether `iter` gives no record.
    pub fn is_empty(&self) -> bool
        ensures { IsTrue result ↔ (records_of self.now ≡ []) }
    {
        self.iter().next().is_none()
    }

    /// Whether `iter` gives no record.
    pub fn was_empty(&self) -> bool
        ensures { IsTrue result ↔ (records_of self.now ≡ []) }
    {
        self.is_empty()
    }

    /// The records of the zone that answer the question; empty for any other answer.
    pub fn unwrap_records(self) -> LookupRecords
        ensures { result ≡ zone_answers self }
    {
        match self {
            AuthLookup::Records { answers, .. } => answers,
            _ => LookupRecords::Empty,
        }
    }

    /// Lends what another server said of the authority, in order, if this is its response.
    pub fn authorities(&self) -> Option<LookupRecordsIter<'_>>
        ensures { option_map left_in result ≡ authorities_of self.now }
    {
        match self {
            AuthLookup::Response(message) => {
                Some(LookupRecordsIter::SliceIter(message.authorities.iter()))
            }
            _ => None,
        }
    }

    /// Takes out the section of the records that may help beside the answer, as it is kept. Records of the zone are left
    /// without such a section. Another server's response gives its records, also where it has none, and is left with none.
    pub fn take_additionals(&mut self) -> Option<LookupRecords>
        ensures taken { result ≡ kept_additionals self.old }
        ensures left { WithoutAdditionals self.old self.new }
    {
        match self {
            AuthLookup::Empty => None,
            AuthLookup::Records { additionals, .. } => additionals.take(),
            AuthLookup::Response(message) => {
                let alloc = *message.additionals.allocator();
                let taken = mem::replace(&mut message.additionals, Vec::new(alloc));
                Some(LookupRecords::Section(taken))
            }
        }
    }

    /// Lends the records that may help beside the answer, in order, if there are such.
    pub fn additionals(&self) -> Option<LookupRecordsIter<'_>>
        ensures { option_map left_in result ≡ additionals_of self.now }
    {
        match self {
            AuthLookup::Empty => None,
            AuthLookup::Records {
                additionals: None,
                ..
            } => None,
            AuthLookup::Records {
                additionals: Some(additionals),
                ..
            } => Some(additionals.iter()),
            AuthLookup::Response(message) => {
                Some(LookupRecordsIter::SliceIter(message.additionals.iter()))
            }
        }
    }
}

impl From<LookupRecords> for AuthLookup {
    ghost use Rattle.std.specs.Prelude.{◌≡◌, None};
    ghost use Rattle.zone_handler.specs.declared.auth_lookup.AuthLookup.TheVariants.{Records};

    ghost from_gives = { λ answers answer. answer ≡ Records answers None };

    /// An answer with these records and no additionals.
    fn from(answers: LookupRecords) -> AuthLookup {
        AuthLookup::Records {
            answers,
            additionals: None,
        }
    }
}

impl<'r> IntoIterator for &'r AuthLookup {
    type Item = &'r Record;

    type IntoIter = AuthLookupIter<'r>;

    ghost into_iter_gives = { λ answer it. left_of it ≡ records_of answer.now };

    fn into_iter(self) -> AuthLookupIter<'r> {
        self.iter()
    }
}
