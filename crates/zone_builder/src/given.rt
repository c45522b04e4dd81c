//! Records that are given to make a zone of, and what is reported about one.
ghost use Rattle.std.specs.Prelude.{IfOk, IsOkUnless, ◌≡◌};
ghost use Rattle.zone_builder.specs.Faults.{told_of};

use std::fmt;
use zone_denial::type_word::TypeWord;
use zone_proto::{Name, ProtoError, Record, RecordType};
use zone_scanner::Place;

/// A record, and where it is in a text, if that is known.
#[derive(Debug, Drop)]
pub struct GivenRecord {
    /// The record.
    pub record: Record,
    /// Where it begins.
    pub place: Option<Place>,
}

/// What is reported about a record: its owner, its type, and where it stands, if that is known.
#[derive(Debug, Drop)]
pub struct RecordAt {
    /// The owner, spelled as it is given.
    pub owner: Name,
    /// The type.
    pub record_type: RecordType,
    /// Where the record begins.
    pub place: Option<Place>,
}

impl RecordAt {
    /// What is reported about a record. Its only error is `Memory`.
    pub(crate) fn of(given: &GivenRecord) -> Result<RecordAt, ProtoError>
        ensures ok { IfOk result (λ at. at ≡ told_of given.now) }
        ensures err { IsOkUnless result ProtoError.Memory }
    {
        Ok(RecordAt {
            owner: given.record.name.clone()?,
            record_type: given.record.record_type(),
            place: given.place,
        })
    }
}

/// Owner and type.
impl fmt::Display for RecordAt {
    fn fmt<W: fmt::Write>(&self, f: &mut fmt::Formatter<W>) -> fmt::Result {
        write!(f, "{} {}", self.owner, TypeWord(self.record_type))
    }
}
