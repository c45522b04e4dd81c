//! The records that a `$GENERATE` stands for: one for each number of its range, read as an entry of its own.
ghost use Rattle.std.specs.Prelude.{◌≡◌, ◌++◌, ◌∷◌, [], Some, IfErr, IfOk, OnOk, option_map};
ghost use Rattle.zone_scanner.specs.declared.place.Place.{Place as PlaceValue};
ghost use Rattle.zone_scanner.specs.Entries.{Whole, events_of};
ghost use Rattle.zone_scanner.specs.Steps.{events_from};
ghost use Rattle.zone_texts.specs.Generation.{generated, line_for, middle_text, range_of, record_for, record_of_line, records_by, template_fault, template_of};
ghost use Rattle.zone_texts.specs.Patterns.{filled};
ghost use Rattle.zone_texts.specs.Inclusions.{gathered, placed_behind, with_records};
ghost use Rattle.zone_texts.specs.Readings.{IsFaultless};

use crate::fault::What;
use crate::pattern::{PatternError, Range, push_pattern, read_range};
use crate::state::{Part, Reading, copy_of_context, with_word};
use record_fields::{Fault, Reason};
use std::alloc::{AllocError, AllocFailed, Global};
use zone_file::{Context, PlacedRecord, ZoneError, ZoneFault, read_entry};
use zone_proto::Record;
use zone_scanner::{Entry, EntryError, EntryReader, Place, Word};

/// The words of a `$GENERATE` of which its lines are made.
#[derive(Drop)]
struct Template<'e> {
    owner: &'e Word,
    /// TTL, class and type.
    middle: &'e [Word],
    data_word: &'e Word,
}

/// Why a `$GENERATE` makes no records.
#[derive(Drop)]
enum Stop {
    /// A growth that the allocator refused.
    Memory,
    /// What is wrong with a word of its entry.
    Word(Fault),
    /// What is wrong, and where.
    At(Place, What),
}

/// Want of memory is `Memory`.
impl From<AllocError> for Stop {
    fn from(_: AllocError) -> Stop {
        Stop::Memory
    }
}

/// Want of memory is `Memory`; the value that found no room is dropped.
impl<T: Drop> From<AllocFailed<T>> for Stop {
    fn from(_: AllocFailed<T>) -> Stop {
        Stop::Memory
    }
}

/// What is wrong with a word is `Word`.
impl From<Fault> for Stop {
    fn from(fault: Fault) -> Stop {
        Stop::Word(fault)
    }
}

/// Appends the records of a `$GENERATE`, whose entry this is, or tells what is wrong with it. The entries behind it take nothing from it.
pub(crate) fn generate(
    alloc: Global,
    reading: &mut Reading,
    context: &Context,
    part: Part,
    entry: &Entry,
) -> Result<(), AllocError>
    ensures before { OnOk result (IsFaultless reading.new → IsFaultless reading.old) }
    ensures records { OnOk result (part.lines ≡ 0 → IsFaultless reading.new →
        with_records (generated context.now (placed_behind part.before) entry.now.words)
        (gathered context.now reading.old.records.items reading.old.sources.lines)
        ≡ Some (gathered context.now reading.new.records.items reading.new.sources.lines)) }
{
    match put_records(alloc, &mut reading.records, context, part, entry.words()) {
        Ok(()) => Ok(()),
        Err(Stop::Memory) => Err(AllocError),
        Err(Stop::Word(fault)) => {
            let told = part.fault(with_word(alloc, entry.words(), fault)?);
            reading.tell(told.at, told.what)
        }
        Err(Stop::At(place, What::Entry(fault))) => {
            let at = part.place(place);
            let fault = ZoneFault {
                place: at.place,
                reason: fault.reason,
                word: fault.word,
            };
            reading.tell(at, What::Entry(fault))
        }
        Err(Stop::At(place, what)) => reading.tell(part.place(place), what),
    }
}

/// Appends a record for each number.
fn put_records(
    alloc: Global,
    records: &mut Vec<PlacedRecord>,
    context: &Context,
    part: Part,
    words: &[Word],
) -> Result<(), Stop>
    ensures { OnOk result (part.lines ≡ 0 → option_map (λ rs. records.old.items ++ rs)
        (generated context.now (placed_behind part.before) words.now) ≡ Some records.new.items) }
{
    match words {
        [verb, range, owner, rest @ ..] => {
            let template = template_of(owner, rest)?;
            let numbers = range_at(range)?;
            let begin = verb.place();
            put_all(
                alloc,
                records,
                context,
                begin,
                part.counted(begin),
                &template,
                numbers,
            )
        }
        _ => Err(Stop::Word(missing(match words.last() {
            Some(last) => last.place(),
            None => Place::first(),
        }))),
    }
}

/// The range that a word is.
fn range_at(word: &Word) -> Result<Range, Stop>
    ensures { IfOk result (λ r. range_of word.now.octets ≡ Some r) }
{
    match read_range(word.octets()) {
        Ok(range) => Ok(range),
        Err(what) => Err(Stop::At(word.place(), what)),
    }
}

/// The words from the owner on: TTL, class and type, of which the type alone has to be there, and data.
fn template_of<'e>(owner: &'e Word, rest: &'e [Word]) -> Result<Template<'e>, Fault>
    ensures ok { IfOk result (λ t. template_of owner.now rest.now ≡ Some (record {
      owner = t.owner.now;
      middle = t.middle.now;
      data_word = t.data_word.now;
    })) }
    ensures err { IfErr result (λ fault. template_fault owner.now rest.now ≡ Some fault) }
{
    if owner.is_quoted() {
        return Err(Fault {
            place: owner.place(),
            reason: Reason::Quoted,
        });
    }
    match rest {
        [_, data_word] => Ok(Template {
            owner,
            middle: &rest[..1],
            data_word,
        }),
        [_, _, data_word] => Ok(Template {
            owner,
            middle: &rest[..2],
            data_word,
        }),
        [_, _, _, data_word] => Ok(Template {
            owner,
            middle: &rest[..3],
            data_word,
        }),
        [_, _, _, _, surplus, ..] => Err(Fault {
            place: surplus.place(),
            reason: Reason::Surplus,
        }),
        [last] => Err(missing(last.place())),
        [] => Err(missing(owner.place())),
    }
}

/// A word is missing behind the last one, at this place.
fn missing(place: Place) -> Fault
    ensures { result ≡ record { place = place; reason = Reason.Missing } }
{
    Fault {
        place,
        reason: Reason::Missing,
    }
}

/// Appends a record for each number of a range, at a place; what is wrong is told at the beginning of the entry.
fn put_all(
    alloc: Global,
    records: &mut Vec<PlacedRecord>,
    context: &Context,
    begin: Place,
    place: Place,
    template: &Template<'_>,
    numbers: Range,
) -> Result<(), Stop>
    ensures { OnOk result (option_map (λ rs. records.old.items ++ rs)
        (records_by context.now place (Some numbers) (Some (record {
          owner = template.now.owner.now;
          middle = template.now.middle.now;
          data_word = template.now.data_word.now;
        })))
        ≡ Some records.new.items) }
{
    let mut number = u64::from(numbers.first);
    let mut left = numbers.count();
    while left > 0 {
        let given = record_for(alloc, context, begin, template, number)?;
        records.push(PlacedRecord { place, given })?;
        let Some(next) = number.checked_add(u64::from(numbers.step)) else {
            return Err(Stop::At(begin, What::Range));
        };
        number = next;
        left -= 1;
    }
    Ok(())
}

/// The record of a number.
fn record_for(
    alloc: Global,
    context: &Context,
    begin: Place,
    template: &Template<'_>,
    number: u64,
) -> Result<Record, Stop>
    ensures { IfOk result (λ given. (p : PlaceValue) → record_for context.now p (record {
      owner = template.now.owner.now;
      middle = template.now.middle.now;
      data_word = template.now.data_word.now;
    }) number
        ≡ Some (record { place = p; given = given })) }
{
    let mut line = Vec::new(alloc);
    push_line(alloc, &mut line, template, number)?;
    record_of_line(alloc, context, begin, line.as_slice())
}

/// Puts the line of a number together.
fn push_line(
    alloc: Global,
    line: &mut Vec<u8>,
    template: &Template<'_>,
    number: u64,
) -> Result<(), Stop>
    ensures { OnOk result (option_map (λ s. line.old.items ++ s) (line_for (record {
      owner = template.now.owner.now;
      middle = template.now.middle.now;
      data_word = template.now.data_word.now;
    }) number) ≡ Some line.new.items) }
{
    push_word(alloc, line, template.owner, number)?;
    push_middle(line, template.middle)?;
    line.push(b' ')?;
    push_word(alloc, line, template.data_word, number)?;
    line.push(b'\n')?;
    Ok(())
}

/// Appends words as they are, each behind a blank.
fn push_middle(line: &mut Vec<u8>, words: &[Word]) -> Result<(), AllocError>
    ensures { OnOk result (line.new.items ≡ line.old.items ++ middle_text words.now) }
{
    for word in words {
        line.push(b' ')?;
        line.extend_from_slice(word.octets())?;
    }
    Ok(())
}

/// Appends what a word makes of a number.
fn push_word(alloc: Global, line: &mut Vec<u8>, word: &Word, number: u64) -> Result<(), Stop>
    ensures { OnOk result (option_map (λ s. line.old.items ++ s)
        (filled word.now.quoted number word.now.octets) ≡ Some line.new.items) }
{
    match push_pattern(alloc, line, word.octets(), word.is_quoted(), number) {
        Ok(()) => Ok(()),
        Err(PatternError::Memory) => Err(Stop::Memory),
        Err(PatternError::Wrong(what)) => Err(Stop::At(word.place(), what)),
    }
}

/// The record that a line is, where this is left of the entries before.
#[tactic(auto, unfolding(crate::specs::Generation::record_of_line))]
fn record_of_line(
    alloc: Global,
    context: &Context,
    begin: Place,
    line: &[u8],
) -> Result<Record, Stop>
    ensures { IfOk result (λ given. option_map (λ r. r.given) (record_of_line context.now line.now)
        ≡ Some given) }
{
    let entry = only_entry(alloc, begin, line)?;
    let mut tried = copy_of_context(context)?;
    match read_entry(alloc, &mut tried, &entry) {
        Ok(Some(placed)) => Ok(placed.given),
        Ok(None) => Err(Stop::At(begin, What::NoRecord)),
        Err(ZoneError::Memory) => Err(Stop::Memory),
        Err(ZoneError::Fault(fault)) => Err(Stop::At(begin, What::Entry(fault))),
    }
}

/// The one entry that a line is.
fn only_entry(alloc: Global, begin: Place, line: &[u8]) -> Result<Entry, Stop>
    ensures { IfOk result (λ entry. events_of line.now ≡ Whole entry ∷ []) }
{
    let mut entries = EntryReader::new(alloc);
    match entries.take_entry(alloc, line) {
        Ok((count, Some(entry))) => {
            if count < line.len() {
                return Err(Stop::At(begin, What::NoRecord));
            }
            end_line(alloc, entries, begin)?;
            Ok(entry)
        }
        Ok((_, None)) => Err(Stop::At(begin, What::NoRecord)),
        Err(error) => Err(stop_by(error, begin)),
    }
}

/// Refuses a line on which more than one entry stands.
fn end_line(alloc: Global, entries: EntryReader, begin: Place) -> Result<(), Stop>
    ensures { OnOk result (events_from [] entries ≡ []) }
{
    match entries.finish(alloc) {
        Ok(None) => Ok(()),
        Ok(Some(_)) => Err(Stop::At(begin, What::NoRecord)),
        Err(error) => Err(stop_by(error, begin)),
    }
}

/// A line that can't be cut into entries.
fn stop_by(error: EntryError, begin: Place) -> Stop {
    match error {
        EntryError::Memory => Stop::Memory,
        EntryError::Fault(fault) => Stop::At(
            begin,
            What::Entry(ZoneFault {
                place: begin,
                reason: Reason::Entry(fault.reason),
                word: None,
            }),
        ),
    }
}
