//! What a call about files tells a program that isn't written in Rattle, and what that tells.
ghost use Rattle.std.specs.Prelude.{◌≡◌};
ghost use Rattle.file_calls.specs.Outcomes.{code_of, lack_of};

use included_texts::Lack;

/// How a call about files ended. The numbers of those that `zone_database` has too are the same there.
#[derive(Clone, Copy, PartialEq, Eq, Debug)]
pub enum FileOutcome {
    /// It is done.
    Done,
    /// There are no zones: none were made, or they were freed.
    Closed,
    /// The origin isn't the text of a name.
    BadName,
    /// The files aren't those of a zone, or their records make none.
    BadText,
    /// No memory was found.
    NoMemory,
    /// The name is longer than the room for it.
    NoRoom,
    /// Files are included of which nothing is kept.
    WantsFiles,
    /// No file is wanted.
    NoFile,
    /// The name of a file isn't UTF-8.
    BadFileName,
}

impl FileOutcome {
    /// The number by which it is told.
    pub fn code(self) -> u32
        ensures { result ≡ code_of self }
    {
        match self {
            FileOutcome::Done => 0,
            FileOutcome::Closed => 2,
            FileOutcome::BadName => 3,
            FileOutcome::BadText => 4,
            FileOutcome::NoMemory => 5,
            FileOutcome::NoRoom => 6,
            FileOutcome::WantsFiles => 40,
            FileOutcome::NoFile => 41,
            FileOutcome::BadFileName => 42,
        }
    }
}

/// Why a file can't be read, by its number: another reason where it is none of those that are numbered.
pub(crate) fn lack_of(number: u32) -> Lack
    ensures { result ≡ lack_of number }
{
    match number {
        0 => Lack::Absent,
        1 => Lack::Folder,
        2 => Lack::Stream,
        3 => Lack::Denied,
        _ => Lack::Unreadable,
    }
}
