//! The records of a text and of those that it includes.
ghost use Rattle.std.specs.Prelude.{◌≡◌, ℕ, List, [], drop, Option, Some, IfOk, OnOk, IsNone, IfSome, string_bytes};
ghost use Rattle.zone_scanner.specs.Entries.{events_of};
ghost use Rattle.zone_scanner.specs.Steps.{events_from};
ghost use Rattle.zone_texts.specs.GoingOn.{GoesOnAt};
ghost use Rattle.zone_texts.specs.Inclusions.{Files, Gathered, entries_read, file_read, gathered, included, origin_in, with_lines};
ghost use Rattle.zone_texts.specs.Parts.{GoesOnWith, IsOpened, IsTold, read_behind};
ghost use Rattle.zone_texts.specs.Readings.{IsFaultless};

use crate::directives::{Inclusion, take_entry};
use crate::fault::What;
use crate::lines::{behind_mark, count_lines, octets_before_start};
use crate::sources::FilePlace;
use crate::state::{Part, Reading, copy_if_any, copy_of};
use crate::texts::Texts;
use record_fields::Reason;
use std::alloc::{AllocError, Global};
use std::io::ErrorKind;
use std::str;
use zone_file::{Context, ZoneFault};
use zone_proto::Name;
use zone_scanner::{EntryError, EntryFault, EntryReader, Place};

/// The most files that one file and those that it includes may include.
const MOST_FILES: usize = 1_000;

/// What a text goes on with behind a part that was read.
#[derive(Drop)]
enum Next {
    /// Nothing: the text ends.
    End,
    /// The part can't be cut into entries, and the text goes on behind so many octets of it, where an entry may begin.
    Cut(usize),
    /// A file is included; the part goes on behind so many octets of it.
    Include(Inclusion, EntryReader, usize),
}

/// Reads a text of the file of a name, and the texts that it includes, within so many others. What is left behind it is in the context.
#[cycle(reading)]
pub(crate) fn read_text<T: Texts>(
    alloc: Global,
    texts: &mut T,
    reading: &mut Reading,
    context: &mut Context,
    part: Part,
    name: &str,
    text: &[u8],
    depth: u32,
) -> Result<(), AllocError>
    ensures before { OnOk result (IsFaultless reading.new → IsFaultless reading.old) }
    ensures known { OnOk result (T.known texts.new ≡ T.known texts.old) }
    ensures read { OnOk result (part.lines ≡ 0 → IsFaultless reading.new →
        (files : Files) → T.known texts.old ≡ Some files →
        entries_read (file_read files depth) (files.beside name.now) part.before
        (events_of text.now)
        (gathered context.old reading.old.records.items reading.old.sources.lines)
        ≡ Some (gathered context.new reading.new.records.items reading.new.sources.lines)) }
{
    let mut part = part;
    let mut rest = text;
    if let Some(behind) = behind_mark(text) {
        reading.tell(part.place(Place::first()), What::ByteOrderMark)?;
        rest = behind;
    }
    let mut entries = EntryReader::new(alloc);
    let mut at = 0usize;
    'parts: for _ in 0..u64::MAX {
        match next_part(alloc, reading, context, part, entries, rest, at)? {
            Next::End => return Ok(()),
            Next::Cut(count) => {
                let (taken, behind) = rest.split_at(count.min(rest.len()));
                part.lines = part.lines.saturating_add(count_lines(taken));
                rest = behind;
                at = 0;
                entries = EntryReader::new(alloc);
            }
            Next::Include(inclusion, behind, count) => {
                include(alloc, texts, reading, context, part, name, inclusion, depth)?;
                at = count;
                entries = behind;
            }
        }
    }
    Err(AllocError)
}

/// Reads the file that a text of the file of a name includes, within so many others.
#[cycle(reading)]
#[tactic(auto, using(crate::proofs::Parts::included_so))]
fn include<T: Texts>(
    alloc: Global,
    texts: &mut T,
    reading: &mut Reading,
    context: &mut Context,
    part: Part,
    name: &str,
    inclusion: Inclusion,
    depth: u32,
) -> Result<(), AllocError>
    ensures before { OnOk result (IsFaultless reading.new → IsFaultless reading.old) }
    ensures known { OnOk result (T.known texts.new ≡ T.known texts.old) }
    ensures read { OnOk result (IsFaultless reading.new →
        (files : Files) → T.known texts.old ≡ Some files →
        included (file_read files depth) (files.beside name.now) inclusion.name.items
        inclusion.origin
        (gathered context.old reading.old.records.items reading.old.sources.lines)
        ≡ Some (gathered context.new reading.new.records.items reading.new.sources.lines)) }
{
    let Inclusion {
        place,
        name: word,
        origin,
    } = inclusion;
    let outer = enter(context, origin)?;
    let at = part.place(place);
    let Some(opened) = open(alloc, texts, reading, at, name, word.as_slice(), depth)? else {
        leave(context, outer);
        return Ok(());
    };
    if depth == 0 {
        leave(context, outer);
        return Ok(());
    }
    read_text(
        alloc,
        texts,
        reading,
        context,
        opened.part,
        opened.name.as_str(),
        opened.text.as_slice(),
        depth - 1,
    )?;
    leave(context, outer);
    Ok(())
}

/// What a text that includes another has behind it as before.
#[derive(Drop)]
struct Outer {
    origin: Name,
    owner: Option<Name>,
}

/// Enters a text that is included, with its origin if one is named for it, and gives what is left for the one that includes it.
fn enter(context: &mut Context, origin: Option<Name>) -> Result<Outer, AllocError>
    ensures outer { IfOk result
        (λ outer. outer ≡ record { origin = context.old.origin; owner = context.old.owner }) }
    ensures inner { OnOk result (context.new ≡ origin_in origin context.old) }
{
    let outer = Outer {
        origin: copy_of(&context.origin)?,
        owner: copy_if_any(&context.owner)?,
    };
    if let Some(origin) = origin {
        context.origin = origin;
    }
    Ok(outer)
}

/// Goes back to the text that includes another: its origin and its last owner are as they were.
fn leave(context: &mut Context, outer: Outer)
    ensures { context.new
        ≡ record context.old { origin = outer.origin; owner = outer.owner } }
{
    let Outer { origin, owner } = outer;
    context.origin = origin;
    context.owner = owner;
}

/// A file that was opened: where its text stands, its name and its text.
#[derive(Drop)]
struct Opened {
    part: Part,
    name: String,
    text: Vec<u8>,
}

/// Opens the file that an entry at a place of the file of a name includes. None where it can't be, which is told.
fn open<T: Texts>(
    alloc: Global,
    texts: &mut T,
    reading: &mut Reading,
    at: FilePlace,
    file: &str,
    word: &[u8],
    depth: u32,
) -> Result<Option<Opened>, AllocError>
    ensures known { OnOk result (T.known texts.new ≡ T.known texts.old) }
    ensures before { OnOk result (IsFaultless reading.new → IsFaultless reading.old) }
    ensures records { reading.new.records ≡ reading.old.records }
    ensures none { IfOk result (λ opened. IsNone opened → IsFaultless reading.new → ⊥) }
    ensures some { IfOk result (λ opened. IfSome opened (λ o. (files : Files) →
        T.known texts.old ≡ Some files → IsOpened files file.now word.now depth
        reading.old.sources.lines reading.new.sources.lines o)) }
{
    let Ok(word) = str::from_utf8(word) else {
        reading.tell(at, What::FileName)?;
        return Ok(None);
    };
    let name = texts.name(alloc, file, word)?;
    let what = if reading.sources.is_open(name.as_str(), at.file) {
        What::Loop(name)
    } else if depth == 0 {
        What::TooDeep(name)
    } else if reading.sources.files.len() > MOST_FILES {
        What::TooMany(name)
    } else {
        match texts.text(alloc, name.as_str()) {
            Ok(text) => return Ok(Some(put_file(reading, at, name, text)?)),
            Err(ErrorKind::OutOfMemory) => return Err(AllocError),
            Err(kind) => unread(name, kind),
        }
    };
    reading.tell(at, what)?;
    Ok(None)
}

/// Why the file of a name isn't read.
fn unread(name: String, kind: ErrorKind) -> What
    ensures folder { kind ≡ ErrorKind.IsADirectory → result ≡ What.Folder name }
    ensures stream { kind ≡ ErrorKind.NotSeekable → result ≡ What.Stream name }
{
    match kind {
        ErrorKind::IsADirectory => What::Folder(name),
        ErrorKind::NotSeekable => What::Stream(name),
        kind => What::Unreadable(name, kind),
    }
}

/// Puts a file behind the others.
fn put_file(
    reading: &mut Reading,
    at: FilePlace,
    name: String,
    text: Vec<u8>,
) -> Result<Opened, AllocError>
    ensures faults { reading.new.faults ≡ reading.old.faults }
    ensures more_faults { reading.new.more_faults ≡ reading.old.more_faults }
    ensures records { reading.new.records ≡ reading.old.records }
    ensures lines { OnOk result
        (reading.new.sources.lines ≡ with_lines reading.old.sources.lines text.items) }
    ensures before { IfOk result (λ o. o.part.before ≡ reading.old.sources.lines) }
    ensures begin { IfOk result (λ o. o.part.lines ≡ 0) }
    ensures name { IfOk result (λ o. string_bytes o.name ≡ string_bytes name) }
    ensures text { IfOk result (λ o. o.text.items ≡ text.items) }
{
    let before = reading.sources.lines;
    let lines = count_lines(text.as_slice()).saturating_add(1);
    let known = name.clone()?;
    let file = reading.sources.open(known, lines, Some(at))?;
    Ok(Opened {
        part: Part {
            file,
            before,
            lines: 0,
        },
        name,
        text,
    })
}

/// Reads a part of a text from behind so many octets of it up to where it can't be cut into entries, or a file is included, or to its
/// end, and gives what it goes on with. `entries` has read what is before, and counts lines from the beginning of the part.
fn next_part(
    alloc: Global,
    reading: &mut Reading,
    context: &mut Context,
    part: Part,
    entries: EntryReader,
    text: &[u8],
    start: usize,
) -> Result<Next, AllocError>
    ensures before { OnOk result (IsFaultless reading.new → IsFaultless reading.old) }
    ensures cut { IfOk result (λ next. IsTold reading.new next) }
    ensures behind { IfOk result (λ next.
        GoesOnWith (events_from (drop start text.now) entries) text.now next) }
    ensures read { IfOk result (λ next. part.lines ≡ 0 → IsFaultless reading.new →
        (inner : List ℕ → Gathered → Option Gathered) (beside : List ℕ → List ℕ) →
        entries_read inner beside part.before (events_from (drop start text.now) entries)
        (gathered context.old reading.old.records.items reading.old.sources.lines)
        ≡ read_behind inner beside part.before text.now next
        (gathered context.new reading.new.records.items reading.new.sources.lines)) }
{
    let mut entries = entries;
    let mut at = start;
    while at < text.len() {
        match entries.take_entry(alloc, &text[at..]) {
            Ok((count, entry)) => {
                at += count;
                if let Some(entry) = entry {
                    if let Some(inclusion) = take_entry(alloc, reading, context, part, &entry)? {
                        return Ok(Next::Include(inclusion, entries, at));
                    }
                }
            }
            Err(EntryError::Memory) => return Err(AllocError),
            Err(EntryError::Fault(fault)) => {
                let count = cut(reading, part, text, fault)?;
                return Ok(Next::Cut(count));
            }
        }
    }
    let next = last_part(alloc, reading, context, part, entries, text)?;
    Ok(next)
}

/// Reads the last entry of a text.
fn last_part(
    alloc: Global,
    reading: &mut Reading,
    context: &mut Context,
    part: Part,
    entries: EntryReader,
    text: &[u8],
) -> Result<Next, AllocError>
    ensures before { OnOk result (IsFaultless reading.new → IsFaultless reading.old) }
    ensures cut { IfOk result (λ next. IsTold reading.new next) }
    ensures behind { IfOk result (λ next. GoesOnWith (events_from [] entries) text.now next) }
    ensures read { IfOk result (λ next. part.lines ≡ 0 → IsFaultless reading.new →
        (inner : List ℕ → Gathered → Option Gathered) (beside : List ℕ → List ℕ) →
        entries_read inner beside part.before (events_from [] entries)
        (gathered context.old reading.old.records.items reading.old.sources.lines)
        ≡ read_behind inner beside part.before text.now next
        (gathered context.new reading.new.records.items reading.new.sources.lines)) }
{
    match entries.finish(alloc) {
        Ok(None) => Ok(Next::End),
        Ok(Some(entry)) => match take_entry(alloc, reading, context, part, &entry)? {
            Some(inclusion) => {
                let behind = EntryReader::new(alloc);
                Ok(Next::Include(inclusion, behind, text.len()))
            }
            None => Ok(Next::End),
        },
        Err(EntryError::Memory) => Err(AllocError),
        Err(EntryError::Fault(fault)) => {
            let count = cut(reading, part, text, fault)?;
            Ok(Next::Cut(count))
        }
    }
}

/// Tells why a part of a text can't be cut into entries, and gives how many octets of it stand before where reading goes on.
fn cut(
    reading: &mut Reading,
    part: Part,
    text: &[u8],
    fault: EntryFault,
) -> Result<usize, AllocError>
    ensures told { OnOk result (IsFaultless reading.new → ⊥) }
    ensures start { IfOk result (λ count. GoesOnAt text.now fault.place.line count) }
{
    let line = fault.place.line;
    tell_cut(reading, part, fault)?;
    Ok(octets_before_start(text, line))
}

/// Tells why a text can't be cut into entries.
fn tell_cut(reading: &mut Reading, part: Part, fault: EntryFault) -> Result<(), AllocError>
    ensures { OnOk result (IsFaultless reading.new → ⊥) }
{
    let told = part.fault(ZoneFault {
        place: fault.place,
        reason: Reason::Entry(fault.reason),
        word: None,
    });
    reading.tell(told.at, told.what)
}
