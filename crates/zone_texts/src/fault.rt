//! What is wrong with a zone file or with one that it includes.

use crate::sources::{Chain, FilePlace, Sources};
use crate::state::Reading;
use std::fmt;
use std::io::ErrorKind;
use thiserror::Error;
use zone_file::{FaultText, ZoneFault};

/// What is wrong.
#[derive(Debug, Drop, Error)]
pub enum What {
    /// A fault of an entry, at its place in the file.
    #[error("{}", .0.reason)]
    Entry(ZoneFault),
    /// A word in place of the type that begins with a digit, as a TTL does, and isn't one.
    #[error("a type is needed here, or a TTL before it of at most 2147483647 seconds, as 3600 or 1h30m")]
    TtlOrType,
    /// A name with octets that aren't ASCII.
    #[error("a name is needed here, in ASCII, with \\ and three digits for each other octet")]
    NotAscii,
    /// A control entry that is none.
    #[error("a control entry is $ORIGIN, $TTL, $INCLUDE or $GENERATE")]
    Control,
    /// A text that begins with a byte order mark.
    #[error("a byte order mark stands before the text, which has to be without one")]
    ByteOrderMark,
    /// The name of a file that is no UTF-8.
    #[error("the name of this file isn't UTF-8")]
    FileName,
    /// A folder in place of a file.
    #[error("{0} is a folder, and no file")]
    Folder(String),
    /// A pipe or a device in place of a file.
    #[error("{0} is a pipe or a device, and no file")]
    Stream(String),
    /// A file that can't be read, for this reason.
    #[error("{0} can't be read: {1}")]
    Unreadable(String, ErrorKind),
    /// A file that includes itself, or is included by one that it includes.
    #[error("{0} is included within itself")]
    Loop(String),
    /// A file that is included by too many others, one within the other.
    #[error("{0} is included within more than 9 others")]
    TooDeep(String),
    /// More files than one may have.
    #[error("{0} is one file too many: at most 1000 are included")]
    TooMany(String),
    /// The range of a `$GENERATE`.
    #[error("a range of numbers is needed here, as 1-20 or 0-254/2")]
    Range,
    /// A `$GENERATE` of too many records.
    #[error("$GENERATE makes at most 65536 records")]
    TooManyRecords,
    /// What stands in braces behind a `$`.
    #[error("behind $ stands {{OFFSET}}, {{OFFSET,WIDTH}} or {{OFFSET,WIDTH,BASE}}, with a base of d, o, x, X, n or N")]
    Modifier,
    /// A number below 0 that an offset makes.
    #[error("this offset makes a number below 0")]
    Negative,
    /// What `$GENERATE` makes isn't one record.
    #[error("$GENERATE makes one record of each number, and these words aren't those of one")]
    NoRecord,
}

/// A fault of a file.
#[derive(Debug, Drop)]
pub struct FileFault {
    /// Where it stands.
    pub at: FilePlace,
    /// What is wrong there.
    pub what: What,
}

/// A fault as a line of text: the name of the file, line and column, what is wrong there, and by which entries the file is included.
#[derive(Drop)]
pub struct FaultLine<'s> {
    /// The files that were read.
    pub sources: &'s Sources,
    /// What is wrong, and where.
    pub fault: &'s FileFault,
}

impl fmt::Display for FaultLine<'_> {
    fn fmt<W: fmt::Write>(&self, f: &mut fmt::Formatter<W>) -> fmt::Result {
        let at = self.fault.at;
        let file = self.sources.name(at.file);
        match &self.fault.what {
            What::Entry(fault) => write!(f, "{}", FaultText { file, fault })?,
            what => write!(f, "{file}:{}:{}: {what}", at.place.line, at.place.column)?,
        }
        let chain = Chain {
            sources: self.sources,
            file: at.file,
        };
        write!(f, "{chain}")
    }
}

/// The faults of the files that were read, each with its line end, and how many there are besides those that were kept.
#[derive(Drop)]
pub struct FaultLines<'r> {
    /// What was read, and its faults.
    pub reading: &'r Reading,
    /// What stands behind how many there are besides, as `, which --all tells`.
    pub hint: &'r str,
}

impl fmt::Display for FaultLines<'_> {
    fn fmt<W: fmt::Write>(&self, f: &mut fmt::Formatter<W>) -> fmt::Result {
        let (sources, more, hint) = (&self.reading.sources, self.reading.more_faults, self.hint);
        for fault in self.reading.faults.iter() {
            write!(f, "{}\n", FaultLine { sources, fault })?;
        }
        if more > 0 {
            write!(f, "{}: and {more} more faults{hint}\n", sources.name(0))?;
        }
        Ok(())
    }
}
