//! What a call tells a program that isn't written in Rattle.
ghost use Rattle.std.specs.Prelude.{◌≡◌};
ghost use Rattle.zone_database.specs.Outcomes.{code_of};

/// How a call ended.
#[derive(Clone, Copy, PartialEq, Eq, Debug)]
pub enum Outcome {
    /// It is done.
    Done,
    /// The message gets no answer: it has fewer octets than a header, or is a response.
    Ignored,
    /// There are no zones: none were made, or they were freed.
    Closed,
    /// The origin isn't the text of a name.
    BadName,
    /// The text isn't that of a zone file, or its records make no zone.
    BadText,
    /// No memory was found.
    NoMemory,
    /// The response is longer than the room for it.
    NoRoom,
    /// There is no zone of this origin.
    NoZone,
    /// There is a zone of this origin already.
    ZoneExists,
    /// The transport is none of those that are numbered.
    BadTransport,
}

impl Outcome {
    /// The number by which it is told.
    pub fn code(self) -> u32
        ensures { result ≡ code_of self }
    {
        match self {
            Outcome::Done => 0,
            Outcome::Ignored => 1,
            Outcome::Closed => 2,
            Outcome::BadName => 3,
            Outcome::BadText => 4,
            Outcome::NoMemory => 5,
            Outcome::NoRoom => 6,
            Outcome::NoZone => 7,
            Outcome::ZoneExists => 8,
            Outcome::BadTransport => 9,
        }
    }
}
