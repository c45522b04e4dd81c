//! Rows: texts, and how they are read.

use crate::octets::octets_of;
use crate::{chains, digests, entries, loading, printed, publications, words, zone};
use std::alloc::{AllocError, Global};

/// What the rows of a file write.
#[derive(Clone, Copy, PartialEq, Eq)]
pub enum Kind {
    /// A text, and its entries.
    Entries,
    /// A call and a word, and what it is read as.
    Words,
    /// An origin and a zone file, and its records.
    Zones,
    /// An origin and a zone file behind which the input fails, and what is reported about it.
    Failing,
    /// An origin and a zone file, and its records as they are printed in the form of a zone file.
    Printed,
    /// An origin and a zone file, and its records with the octets of their data, and as they are printed.
    Types,
    /// A call, an origin and a zone file, and the zone of its records.
    Loading,
    /// A call, an origin and a zone file, and whether the zone of its records has a chain.
    Chains,
    /// An algorithm, an origin and a zone file, and the digest of its zone.
    Digests,
    /// A moment, an origin and a zone file, and what is found of its zone before it is published.
    Publications,
}

impl Kind {
    /// What the rows of a file of this name write.
    pub fn of_file(file: &str) -> Kind {
        match file {
            "words" => Kind::Words,
            "zones" => Kind::Zones,
            "failing" => Kind::Failing,
            "printed" => Kind::Printed,
            "types" => Kind::Types,
            "loading" => Kind::Loading,
            "chains" => Kind::Chains,
            "digests" => Kind::Digests,
            "publications" => Kind::Publications,
            _ => Kind::Entries,
        }
    }
}

/// Reads the texts of all rows. The report counts the rows, and has a line for each that is read otherwise.
pub fn report(alloc: Global, kind: Kind, text: &str) -> Result<String, AllocError> {
    let (mut rows, mut wrong) = (0usize, 0usize);
    let mut faults = String::new(alloc);
    for row in text.lines() {
        if let Some((call, wanted)) = row.split_once(" => ") {
            rows = rows.saturating_add(1);
            if !answers(alloc, kind, call, wanted, &mut faults)? {
                wrong = wrong.saturating_add(1);
            }
        }
    }
    format!(in alloc; "{rows} rows, {wrong} wrong{faults}")
}

/// Whether a row has the answer that is wanted. If not, a line is added to the faults.
fn answers(
    alloc: Global,
    kind: Kind,
    call: &str,
    wanted: &str,
    faults: &mut String,
) -> Result<bool, AllocError> {
    let told = answer(alloc, kind, call)?;
    if told.as_str().trim_end() == wanted {
        return Ok(true);
    }
    write!(faults, "\n  WRONG {call} => {told}, and not {wanted}")?;
    Ok(false)
}

/// The answer to a row.
fn answer(alloc: Global, kind: Kind, row: &str) -> Result<String, AllocError> {
    match kind {
        Kind::Entries => entries_answer(alloc, row),
        Kind::Words => words::answer(alloc, row),
        Kind::Zones => zone::answer(alloc, row),
        Kind::Failing => zone::failing_answer(alloc, row),
        Kind::Printed => printed::answer(alloc, row),
        Kind::Types => types_answer(alloc, row),
        Kind::Loading => loading::answer(alloc, row),
        Kind::Chains => chains::answer(alloc, row),
        Kind::Digests => digests::answer(alloc, row),
        Kind::Publications => publications::answer(alloc, row),
    }
}

/// What is read of a zone file, and what is printed of it.
fn types_answer(alloc: Global, row: &str) -> Result<String, AllocError> {
    let read = zone::answer(alloc, row)?;
    let printed = printed::answer(alloc, row)?;
    format!(in alloc; "{read}| {printed}")
}

/// The entries of a text, which have to be the same in pieces.
fn entries_answer(alloc: Global, row: &str) -> Result<String, AllocError> {
    let text = octets_of(alloc, row)?;
    let whole = entries::answer(alloc, text.as_slice(), text.len())?;
    let pieces = entries::answer(alloc, text.as_slice(), 1)?;
    if whole.as_str() == pieces.as_str() {
        Ok(whole)
    } else {
        format!(in alloc; "{whole} and in pieces {pieces}")
    }
}
