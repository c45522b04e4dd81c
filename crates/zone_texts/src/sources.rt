//! Where the lines that were read stand: in which file, and by which entries that is included.
ghost use Rattle.std.specs.Prelude.{◌≡◌, ◌+◌, min, OnOk};

use std::alloc::{AllocError, Global};
use std::fmt;
use zone_scanner::Place;

/// How many files may be open at once: each is included by the one before it.
pub(crate) const MOST_OPEN: u32 = 10;

/// A place in one of the files that were read.
#[derive(Clone, Copy, PartialEq, Eq, Debug)]
pub struct FilePlace {
    /// The number of the file, in the order in which they were opened.
    pub file: usize,
    /// The place in it.
    pub place: Place,
}

/// A file that was read.
#[derive(Debug, Drop)]
pub(crate) struct SourceFile {
    pub(crate) name: String,
    /// How many lines the files have that were opened before.
    pub(crate) before: u64,
    /// Where the entry stands that includes it. None of the first file.
    pub(crate) included_at: Option<FilePlace>,
}

/// The files that were read. Lines are numbered through all of them, in the order in which they were opened.
#[derive(Debug, Drop)]
pub struct Sources {
    pub(crate) files: Vec<SourceFile>,
    /// How many lines they have.
    pub(crate) lines: u64,
}

impl Sources {
    /// One file, of which the lines are numbered as they are in it.
    pub fn new(alloc: Global, name: &str) -> Result<Sources, AllocError> {
        let mut sources = Sources {
            files: Vec::new(alloc),
            lines: 0,
        };
        let name = String::from_str(alloc, name)?;
        sources.open(name, 0, None)?;
        Ok(sources)
    }

    /// Puts a file of so many lines behind the others, and gives its number.
    pub(crate) fn open(
        &mut self,
        name: String,
        lines: u64,
        included_at: Option<FilePlace>,
    ) -> Result<usize, AllocError>
        ensures { OnOk result
            (self.new.lines ≡ min (self.old.lines + lines) 18446744073709551615) }
    {
        let number = self.files.len();
        self.files.push(SourceFile {
            name,
            before: self.lines,
            included_at,
        })?;
        self.lines = self.lines.saturating_add(lines);
        Ok(number)
    }

    /// The name of the file of a number; nothing where there is none.
    pub fn name(&self, file: usize) -> &str {
        match self.files.get(file) {
            Some(file) => file.name.as_str(),
            None => "",
        }
    }

    /// Where the entry stands that includes a file.
    pub fn included_at(&self, file: usize) -> Option<FilePlace> {
        self.files.get(file)?.included_at
    }

    /// Whether a file of this name is open where another one is: it is that, or one that includes it.
    pub(crate) fn is_open(&self, name: &str, file: usize) -> bool {
        let mut at = file;
        for _ in 0..MOST_OPEN {
            if self.name(at) == name {
                return true;
            }
            match self.included_at(at) {
                Some(place) => at = place.file,
                None => return false,
            }
        }
        false
    }

    /// The place, in its file, of a place whose line is numbered through all files.
    pub fn locate(&self, place: Place) -> FilePlace {
        let mut found = FilePlace { file: 0, place };
        for (number, file) in self.files.iter().enumerate() {
            if file.before < place.line {
                found = FilePlace {
                    file: number,
                    place: Place {
                        line: place.line - file.before,
                        column: place.column,
                    },
                };
            }
        }
        found
    }
}

/// By which entries a file is included, as ` (included at example.zone:7:1)`. Nothing of the first file.
#[derive(Drop)]
pub struct Chain<'s> {
    pub sources: &'s Sources,
    /// The number of the file.
    pub file: usize,
}

impl fmt::Display for Chain<'_> {
    fn fmt<W: fmt::Write>(&self, f: &mut fmt::Formatter<W>) -> fmt::Result {
        let mut at = self.file;
        for _ in 0..MOST_OPEN {
            let Some(from) = self.sources.included_at(at) else {
                return Ok(());
            };
            let name = self.sources.name(from.file);
            let place = from.place;
            write!(f, " (included at {name}:{}:{})", place.line, place.column)?;
            at = from.file;
        }
        Ok(())
    }
}

/// Something that is told of a place of the files that were read, as a line of text: file, line and column, what is told, and by which
/// entries the file is included. Where the place isn't known, the name of the first file stands before it alone.
#[derive(Drop)]
pub struct ToldLine<'s, T: fmt::Display> {
    /// The files that were read.
    pub sources: &'s Sources,
    /// Where it is. Its line is numbered through all files.
    pub place: Option<Place>,
    /// What is told.
    pub told: &'s T,
}

impl<T: fmt::Display> fmt::Display for ToldLine<'_, T> {
    fn fmt<W: fmt::Write>(&self, f: &mut fmt::Formatter<W>) -> fmt::Result {
        let (sources, told) = (self.sources, self.told);
        let Some(place) = self.place else {
            return write!(f, "{}: {told}", sources.name(0));
        };
        let at = sources.locate(place);
        let (file, place) = (sources.name(at.file), at.place);
        let chain = Chain {
            sources,
            file: at.file,
        };
        write!(f, "{file}:{}:{}: {told}{chain}", place.line, place.column)
    }
}
