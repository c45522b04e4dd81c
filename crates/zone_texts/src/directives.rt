//! The entries of a text, with `$INCLUDE` and `$GENERATE` among them.
ghost use Rattle.std.specs.Prelude.{◌≡◌, ℕ, List, Option, Some, IfOk, IsErr, OnOk};
ghost use Rattle.record_fields.specs.Fields.{left_at};
ghost use Rattle.record_fields.specs.Readings.{Gives};
ghost use Rattle.zone_file.specs.Records.{is_control, read_entry};
ghost use Rattle.zone_texts.specs.GoingOn.{behind_fault};
ghost use Rattle.zone_texts.specs.Inclusions.{Gathered, directive_by, directive_of, entry_read, gathered, included_in, inclusion_of, left_to, origin_at, with_entry, with_moved};
ghost use Rattle.zone_texts.specs.Readings.{IsFaultless};

use crate::fault::What;
use crate::generate::generate;
use crate::state::{Part, Reading, copy_of, copy_of_context, with_word};
use record_fields::{ReadError, Reason, Words, take_name};
use std::alloc::{AllocError, Global};
use zone_file::{Context, PlacedRecord, ZoneError, read_entry};
use zone_proto::{Name, Seq};
use zone_scanner::{Entry, Place, Word};
use zone_tokens::to_upper;

/// An entry of `$INCLUDE` (RFC 1035 section 5.1): the file that it names, and the origin for it, if it names one.
#[derive(Drop)]
pub(crate) struct Inclusion {
    pub(crate) place: Place,
    pub(crate) name: Vec<u8>,
    pub(crate) origin: Option<Name>,
}

/// What an entry is, beside a record.
#[derive(Clone, Copy, PartialEq, Eq, Debug)]
pub(crate) enum Directive {
    Includes,
    Generates,
    Neither,
}

/// Takes an entry: a record goes behind the others, and a fault behind the other faults, with which the context stays as it was but for
/// what would make a fault of each entry behind it. Gives what is to be included, if it is an entry of `$INCLUDE`.
#[tactic(auto, unfolding(crate::specs::Inclusions::entry_read))]
pub(crate) fn take_entry(
    alloc: Global,
    reading: &mut Reading,
    context: &mut Context,
    part: Part,
    entry: &Entry,
) -> Result<Option<Inclusion>, AllocError>
    ensures before { OnOk result (IsFaultless reading.new → IsFaultless reading.old) }
    ensures entry { IfOk result (λ taken. part.lines ≡ 0 → IsFaultless reading.new →
        (inner : List ℕ → Gathered → Option Gathered) (beside : List ℕ → List ℕ) →
        entry_read inner beside part.before entry.now
        (gathered context.old reading.old.records.items reading.old.sources.lines)
        ≡ left_to inner beside taken
        (gathered context.new reading.new.records.items reading.new.sources.lines)) }
{
    match directive_of(alloc, entry.is_indented(), entry.words())? {
        Directive::Includes => take_inclusion(alloc, reading, context, part, entry.words()),
        Directive::Generates => {
            generate(alloc, reading, context, part, entry)?;
            Ok(None)
        }
        Directive::Neither => {
            take_record(alloc, reading, context, part, entry)?;
            Ok(None)
        }
    }
}

/// What an entry of these words is.
fn directive_of(alloc: Global, is_indented: bool, words: &[Word]) -> Result<Directive, AllocError>
    ensures { IfOk result (λ directive. directive ≡ directive_of is_indented words.now) }
{
    let Some(first) = words.first() else {
        return Ok(Directive::Neither);
    };
    if !is_control(is_indented, first) {
        return Ok(Directive::Neither);
    }
    let verb = to_upper(alloc, first.octets())?;
    Ok(directive_by(verb.as_slice()))
}

/// What an entry is whose first word is this one, in upper case.
fn directive_by(verb: &[u8]) -> Directive
    ensures { result ≡ directive_by verb.now }
{
    if verb == b"$INCLUDE".as_slice() {
        return Directive::Includes;
    }
    if verb == b"$GENERATE".as_slice() {
        return Directive::Generates;
    }
    Directive::Neither
}

/// Whether an entry with this first word is a control entry.
fn is_control(is_indented: bool, word: &Word) -> bool
    ensures { result ≡ is_control is_indented word.now }
{
    if is_indented || word.is_quoted() {
        return false;
    }
    match word.octets() {
        [first, ..] => *first == b'$',
        [] => false,
    }
}

/// Takes an entry of `$INCLUDE`, with these words.
fn take_inclusion(
    alloc: Global,
    reading: &mut Reading,
    context: &Context,
    part: Part,
    words: &[Word],
) -> Result<Option<Inclusion>, AllocError>
    ensures before { OnOk result (IsFaultless reading.new → IsFaultless reading.old) }
    ensures entry { IfOk result (λ taken. IsFaultless reading.new →
        (inner : List ℕ → Gathered → Option Gathered) (beside : List ℕ → List ℕ) →
        included_in inner beside words.now
        (gathered context.now reading.old.records.items reading.old.sources.lines)
        ≡ left_to inner beside taken
        (gathered context.now reading.new.records.items reading.new.sources.lines)) }
{
    let Some((first, rest)) = words.split_first() else {
        return Ok(None);
    };
    match inclusion_of(alloc, &context.origin, first.place(), rest) {
        Ok(inclusion) => Ok(Some(inclusion)),
        Err(ReadError::Memory) => Err(AllocError),
        Err(ReadError::Fault(fault)) => {
            let told = part.fault(with_word(alloc, rest, fault)?);
            reading.tell(told.at, told.what)?;
            Ok(None)
        }
    }
}

/// What these words include.
fn inclusion_of(
    alloc: Global,
    origin: &Name,
    place: Place,
    words: &[Word],
) -> Result<Inclusion, ReadError>
    ensures { Gives (λ x. (x.name.items, x.origin)) result
        (inclusion_of origin.now (left_at place words.now)) }
{
    let mut left = Words::new(place, words);
    let file = left.take_any()?;
    let own = take_origin(alloc, origin, left)?;
    Ok(Inclusion {
        place: file.place(),
        name: Vec::from_slice(alloc, file.octets())?,
        origin: own,
    })
}

/// The origin behind the name of a file, if words are left, and that no others are.
fn take_origin(alloc: Global, origin: &Name, left: Words<'_>) -> Result<Option<Name>, ReadError>
    ensures { Gives (λ o. o) result (origin_at origin.now left.entry.place left.entry.words) }
{
    let mut left = left;
    if left.rest().is_empty() {
        return Ok(None);
    }
    let own = take_name(alloc, origin, &mut left)?;
    left.end()?;
    Ok(Some(own))
}

/// Takes an entry that is a record, or `$ORIGIN` or `$TTL`. Of one with a fault nothing is taken.
fn take_record(
    alloc: Global,
    reading: &mut Reading,
    context: &mut Context,
    part: Part,
    entry: &Entry,
) -> Result<(), AllocError>
    ensures before { OnOk result (IsFaultless reading.new → IsFaultless reading.old) }
    ensures entry { OnOk result (part.lines ≡ 0 → IsFaultless reading.new →
        with_entry part.before (read_entry context.old entry.now)
        (gathered context.old reading.old.records.items reading.old.sources.lines)
        ≡ Some (gathered context.new reading.new.records.items reading.new.sources.lines)) }
    ensures faulty { OnOk result (IsErr (read_entry context.old entry.now) →
        context.new ≡ behind_fault context.old) }
    ensures records { OnOk result (IsErr (read_entry context.old entry.now) →
        reading.new.records ≡ reading.old.records) }
{
    let mut tried = copy_of_context(context)?;
    match read_entry(alloc, &mut tried, entry) {
        Ok(given) => {
            *context = tried;
            push(&mut reading.records, part, given)
        }
        Err(ZoneError::Memory) => Err(AllocError),
        Err(ZoneError::Fault(fault)) => {
            let told = part.fault(fault);
            reading.tell(told.at, clearer(told.what, is_control_entry(entry)))?;
            go_on(context)
        }
    }
}

/// Whether an entry is a control entry.
fn is_control_entry(entry: &Entry) -> bool {
    match entry.words().first() {
        Some(word) => is_control(entry.is_indented(), word),
        None => false,
    }
}

/// What is wrong with an entry, told with what is known of the entry and of its word.
fn clearer(what: What, is_control: bool) -> What {
    match what {
        What::Entry(fault) => match fault.reason {
            Reason::Control => What::Control,
            Reason::Ttl if !is_control => What::TtlOrType,
            Reason::Name(_) if !is_ascii(&fault.word) => What::NotAscii,
            _ => What::Entry(fault),
        },
        other => other,
    }
}

/// Whether a word has no other octets than those of ASCII.
fn is_ascii(word: &Option<Seq<u8>>) -> bool {
    match word {
        Some(word) => word.as_slice().is_ascii(),
        None => true,
    }
}

/// Appends a record, if there is one.
fn push(
    records: &mut Vec<PlacedRecord>,
    part: Part,
    given: Option<PlacedRecord>,
) -> Result<(), AllocError>
    ensures { OnOk result (part.lines ≡ 0 →
        records.new.items ≡ with_moved part.before given records.old.items) }
{
    let Some(placed) = given else {
        return Ok(());
    };
    records.push(PlacedRecord {
        place: part.counted(placed.place),
        given: placed.given,
    })?;
    Ok(())
}

/// Behind a faulty entry the next ones have an owner and a TTL, since the faulty one may have been the one to give them.
fn go_on(context: &mut Context) -> Result<(), AllocError>
    ensures { OnOk result (context.new ≡ behind_fault context.old) }
{
    if context.owner.is_none() {
        context.owner = Some(copy_of(&context.origin)?);
    }
    if context.last_ttl.is_none() {
        context.last_ttl = Some(0);
    }
    Ok(())
}
