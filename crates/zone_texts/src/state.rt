//! What is read of files so far.
ghost use Rattle.std.specs.Prelude.{◌≡◌, IfOk, OnOk, IsTrue};
ghost use Rattle.zone_texts.specs.Inclusions.{placed_behind};
ghost use Rattle.zone_texts.specs.Readings.{IsFaultless, with_fault};

use crate::fault::{FileFault, What};
use crate::sources::{FilePlace, Sources};
use record_fields::Fault;
use std::alloc::{AllocError, Global};
use zone_file::{Context, PlacedRecord, ZoneFault};
use zone_proto::{Name, Seq};
use zone_scanner::{Place, Word};

/// What was read of a zone file and of those that it includes.
#[derive(Drop)]
pub struct Reading {
    /// The records, in the order of their entries. Their lines are numbered through all files (`Sources`).
    pub records: Vec<PlacedRecord>,
    /// How many faults are kept at most.
    pub(crate) most: usize,
    /// The first faults, in the order of their entries.
    pub faults: Vec<FileFault>,
    /// How many faults there are besides.
    pub more_faults: u64,
    /// The files.
    pub sources: Sources,
}

impl Reading {
    /// Puts a fault behind the others, or counts it, if there are so many.
    pub(crate) fn tell(&mut self, at: FilePlace, what: What) -> Result<(), AllocError>
        ensures faults { OnOk result
            (self.new.faults.items
            ≡ with_fault self.old.most self.old.faults.items
            (record { at = at; what = what })) }
        ensures told { OnOk result (IsFaultless self.new → ⊥) }
        ensures records { self.new.records ≡ self.old.records }
    {
        if self.faults.len() < self.most {
            self.faults.push(FileFault { at, what })?;
        } else {
            self.more_faults = self.more_faults.saturating_add(1);
        }
        Ok(())
    }

    /// Whether no fault was found.
    pub fn is_faultless(&self) -> bool
        ensures { IsTrue result → IsFaultless self.now }
    {
        self.faults.is_empty() && self.more_faults == 0
    }
}

/// Where a part of a text stands.
#[derive(Clone, Copy)]
pub(crate) struct Part {
    /// The number of its file.
    pub(crate) file: usize,
    /// How many lines the files have that were opened before.
    pub(crate) before: u64,
    /// How many lines of the file stand before it.
    pub(crate) lines: u64,
}

impl Part {
    /// The place in the file of a place in the part.
    pub(crate) fn place(self, place: Place) -> FilePlace
        ensures { self.lines ≡ 0 → result.place ≡ place }
    {
        FilePlace {
            file: self.file,
            place: Place {
                line: place.line.saturating_add(self.lines),
                column: place.column,
            },
        }
    }

    /// The place whose line is numbered through all files.
    pub(crate) fn counted(self, place: Place) -> Place
        ensures { self.lines ≡ 0 → result ≡ placed_behind self.before place }
    {
        let place = self.place(place).place;
        if self.before == 0 {
            return place;
        }
        Place {
            line: place.line.saturating_add(self.before),
            column: place.column,
        }
    }

    /// A fault of an entry of the part, and where it is in the file.
    pub(crate) fn fault(self, fault: ZoneFault) -> FileFault {
        let ZoneFault {
            place,
            reason,
            word,
        } = fault;
        let at = self.place(place);
        FileFault {
            at,
            what: What::Entry(ZoneFault {
                place: at.place,
                reason,
                word,
            }),
        }
    }
}

/// A fault with the word at its place.
pub(crate) fn with_word(
    alloc: Global,
    words: &[Word],
    fault: Fault,
) -> Result<ZoneFault, AllocError>
    ensures place { IfOk result (λ told. told.place ≡ fault.place) }
    ensures reason { IfOk result (λ told. told.reason ≡ fault.reason) }
{
    let mut told = None;
    for word in words {
        if word.place() == fault.place {
            match Seq::from_slice(alloc, word.octets()) {
                Ok(octets) => told = Some(octets),
                Err(_) => return Err(AllocError),
            }
        }
    }
    Ok(ZoneFault {
        place: fault.place,
        reason: fault.reason,
        word: told,
    })
}

/// A copy of a name.
pub(crate) fn copy_of(name: &Name) -> Result<Name, AllocError>
    ensures { IfOk result (λ copy. copy ≡ name.now) }
{
    match name.clone() {
        Ok(copy) => Ok(copy),
        Err(_) => Err(AllocError),
    }
}

/// A copy of a name, if there is one.
pub(crate) fn copy_if_any(name: &Option<Name>) -> Result<Option<Name>, AllocError>
    ensures { IfOk result (λ copy. copy ≡ name.now) }
{
    match name {
        Some(name) => Ok(Some(copy_of(name)?)),
        None => Ok(None),
    }
}

/// A copy of what an entry takes from those before it.
pub(crate) fn copy_of_context(context: &Context) -> Result<Context, AllocError>
    ensures { IfOk result (λ copy. copy ≡ context.now) }
{
    Ok(Context {
        origin: copy_of(&context.origin)?,
        owner: copy_if_any(&context.owner)?,
        ttl: context.ttl,
        last_ttl: context.last_ttl,
    })
}
