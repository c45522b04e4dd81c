//! The parts of a message that a zone sees: questions, sections and EDNS.
ghost use Rattle.std.specs.Prelude.{◌≡◌};

use crate::dns_class::DNSClass;
use crate::lower_name::LowerName;
use crate::record::Record;
use crate::record_type::RecordType;

/// A question of a message (RFC 1035 section 4.1.2).
#[derive(Debug, Drop)]
pub struct Query {
    /// The name that is asked for, in lower case.
    pub name: LowerName,
    /// The type that is asked for.
    pub query_type: RecordType,
    /// The class that is asked for.
    pub query_class: DNSClass,
}

impl Query {
    /// The name that is asked for.
    pub fn name(&self) -> &LowerName
        ensures { result.now ≡ self.now.name }
    {
        &self.name
    }

    /// The type that is asked for.
    pub fn query_type(&self) -> RecordType
        ensures { result ≡ self.now.query_type }
    {
        self.query_type
    }
}

/// The sections of a response that hold records (RFC 1035 section 4.1).
#[derive(Debug, Drop)]
pub struct Message {
    /// What answers the question.
    pub answers: Vec<Record>,
    /// Records about the authority for the name.
    pub authorities: Vec<Record>,
    /// What may help beside the answer.
    pub additionals: Vec<Record>,
}

/// The flags of an OPT record (RFC 6891 section 6.1.4).
#[derive(Clone, Copy, PartialEq, Eq, Debug)]
pub struct EdnsFlags {
    /// The sender takes DNSSEC records (RFC 3225 section 3).
    pub dnssec_ok: bool,
}

/// What a message says by its OPT record (RFC 6891 section 6).
#[derive(Debug, Drop)]
pub struct Edns {
    /// Its flags.
    pub flags: EdnsFlags,
}

impl Edns {
    /// Its flags.
    pub fn flags(&self) -> &EdnsFlags
        ensures { result.now ≡ self.now.flags }
    {
        &self.flags
    }
}
