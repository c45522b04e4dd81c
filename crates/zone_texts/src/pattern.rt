//! The words of a `$GENERATE`, as BIND reads them: its range, and what is made of a pattern for a number.
ghost use Rattle.std.specs.Prelude.{◌≡◌, ◌++◌, ◌∷◌, ◌<◌, ◌&&◌, ◌==◌, [], Some, None, length, IfOk, IfSome, OnOk, MatchOption, option_map};
ghost use Rattle.zone_texts.specs.Generation.{count_of, is_range, range_behind, range_of, range_of_parts};
ghost use Rattle.zone_texts.specs.Patterns.{after_octet, base_of, cut_at, escaped_text, filled, inside_after, modified, dollar_text, octet_text, parts_of, plain_number, plain_text, text_at_end, with_offset};

use crate::cuts::cut_at;
use crate::fault::What;
use crate::numbers::push_number;
use line_text::{read_u8, read_u32};
use std::alloc::{AllocError, AllocFailed, Global};

/// The most records that one entry may make.
const MOST_RECORDS: u64 = 65_536;

/// The greatest number of a range.
const MOST: u32 = 2_147_483_647;

/// Why a pattern isn't filled in.
#[derive(Drop)]
pub(crate) enum PatternError {
    /// A growth that the allocator refused.
    Memory,
    /// What is wrong.
    Wrong(What),
}

/// Want of memory is `Memory`.
impl From<AllocError> for PatternError {
    fn from(_: AllocError) -> PatternError {
        PatternError::Memory
    }
}

/// Want of memory is `Memory`; the value that found no room is dropped.
impl<T: Drop> From<AllocFailed<T>> for PatternError {
    fn from(_: AllocFailed<T>) -> PatternError {
        PatternError::Memory
    }
}

/// The numbers from one to another, by steps.
#[derive(Clone, Copy, PartialEq, Eq, Debug)]
pub(crate) struct Range {
    pub(crate) first: u32,
    pub(crate) last: u32,
    pub(crate) step: u32,
}

impl Range {
    /// How many numbers it has.
    pub(crate) fn count(self) -> u64
        ensures { result ≡ count_of self }
    {
        if self.step == 0 {
            return 0;
        }
        u64::from(self.last.saturating_sub(self.first) / self.step) + 1
    }

    /// Whether it is one of a `$GENERATE`, but for how many numbers it has.
    fn ascends(self) -> bool {
        self.step != 0 && self.first <= self.last && self.last <= MOST
    }

    /// Whether it is one of a `$GENERATE`.
    fn is_range(self) -> bool
        ensures { result ≡ is_range self }
    {
        if self.step == 0 || self.last < self.first || self.last > MOST {
            return false;
        }
        self.count() <= MOST_RECORDS
    }
}

/// Reads a range, `FIRST-LAST` or `FIRST-LAST/STEP`.
pub(crate) fn read_range(word: &[u8]) -> Result<Range, What>
    ensures { IfOk result (λ r. range_of word.now ≡ Some r) }
{
    let Some(range) = range_of(word) else {
        return Err(What::Range);
    };
    if range.is_range() {
        return Ok(range);
    }
    Err(if range.ascends() {
        What::TooManyRecords
    } else {
        What::Range
    })
}

fn range_of(word: &[u8]) -> Option<Range>
    ensures { result ≡ range_of_parts (cut_at 45 word.now) }
{
    let (first, behind) = cut_at(word, b'-')?;
    range_behind(first, behind)
}

/// The range of its first number and what stands behind that.
fn range_behind(first: &[u8], behind: &[u8]) -> Option<Range>
    ensures { result ≡ range_of_parts (Some (first.now, behind.now)) }
{
    match cut_at(behind, b'/') {
        Some((last, step)) => Some(Range {
            first: read_u32(first)?,
            last: read_u32(last)?,
            step: read_u32(step)?,
        }),
        None => Some(Range {
            first: read_u32(first)?,
            last: read_u32(behind)?,
            step: 1,
        }),
    }
}

/// What stands before an octet of a pattern.
#[derive(Clone, Copy, PartialEq, Eq, Debug)]
pub(crate) enum Before {
    /// Nothing that matters.
    Plain,
    /// A backslash.
    Escape,
    /// A `$`.
    Dollar,
    /// A `$` and a brace, and what stands in it.
    Brace,
}

impl Before {
    /// What stands before the next octet.
    fn behind(self, octet: u8) -> Before
        ensures { result ≡ after_octet self octet }
    {
        match self {
            Before::Plain => after_plain(octet),
            Before::Escape => Before::Plain,
            Before::Dollar => match octet {
                b'$' => Before::Plain,
                b'{' => Before::Brace,
                _ => after_plain(octet),
            },
            Before::Brace => {
                if octet == b'}' {
                    Before::Plain
                } else {
                    Before::Brace
                }
            }
        }
    }
}

fn after_plain(octet: u8) -> Before
    ensures { result ≡ after_octet Before.Plain octet }
{
    match octet {
        b'$' => Before::Dollar,
        b'\\' => Before::Escape,
        _ => Before::Plain,
    }
}

/// Appends what a pattern makes of a number: `$` is the number, `${OFFSET,WIDTH,BASE}` a sum in a form, `$$` and `\$` are a `$`. Of a
/// pattern in quotes, `\"` is a quote.
pub(crate) fn push_pattern(
    alloc: Global,
    line: &mut Vec<u8>,
    pattern: &[u8],
    is_quoted: bool,
    number: u64,
) -> Result<(), PatternError>
    ensures { OnOk result (option_map (λ s. line.old.items ++ s)
        (filled is_quoted number pattern.now) ≡ Some line.new.items) }
{
    let mut before = Before::Plain;
    let mut inside = Vec::new(alloc);
    for octet in pattern {
        push_octet(
            alloc,
            line,
            is_quoted,
            number,
            before,
            inside.as_slice(),
            *octet,
        )?;
        put_inside(&mut inside, before, *octet)?;
        before = before.behind(*octet);
    }
    push_end(alloc, line, number, before)
}

/// Appends what an octet of a pattern makes of a number, behind what stands before it.
fn push_octet(
    alloc: Global,
    line: &mut Vec<u8>,
    is_quoted: bool,
    number: u64,
    before: Before,
    inside: &[u8],
    octet: u8,
) -> Result<(), PatternError>
    ensures { OnOk result (option_map (λ s. line.old.items ++ s)
        (octet_text is_quoted number before inside.now octet) ≡ Some line.new.items) }
{
    match before {
        Before::Plain => Ok(push_plain(line, octet)?),
        Before::Escape => Ok(push_escaped(line, is_quoted, octet)?),
        Before::Dollar => Ok(push_behind_dollar(alloc, line, number, octet)?),
        Before::Brace => {
            if octet == b'}' {
                push_modified(alloc, line, inside, number)
            } else {
                Ok(())
            }
        }
    }
}

/// Appends an octet behind nothing that matters, unless it begins something.
fn push_plain(line: &mut Vec<u8>, octet: u8) -> Result<(), AllocError>
    ensures { OnOk result (line.new.items ≡ line.old.items ++ plain_text octet) }
{
    if octet != b'$' && octet != b'\\' {
        line.push(octet)?;
    }
    Ok(())
}

/// Appends an octet behind a backslash.
fn push_escaped(line: &mut Vec<u8>, is_quoted: bool, octet: u8) -> Result<(), AllocError>
    ensures { OnOk result (line.new.items ≡ line.old.items ++ escaped_text is_quoted octet) }
{
    if !(is_quoted && octet == b'"') {
        line.push(b'\\')?;
    }
    line.push(octet)?;
    Ok(())
}

/// Appends what an octet behind a `$` makes of a number.
fn push_behind_dollar(
    alloc: Global,
    line: &mut Vec<u8>,
    number: u64,
    octet: u8,
) -> Result<(), AllocError>
    ensures { OnOk result (line.new.items ≡ line.old.items ++ dollar_text number octet) }
{
    match octet {
        b'$' => line.extend_from_slice(b"\\$"),
        b'{' => Ok(()),
        _ => {
            push_number(alloc, line, Base::Decimal, 0, number)?;
            push_plain(line, octet)
        }
    }
}

/// Keeps an octet of a brace that is open.
fn put_inside(inside: &mut Vec<u8>, before: Before, octet: u8) -> Result<(), AllocError>
    ensures { OnOk result (inside.new.items ≡ inside_after before inside.old.items octet) }
{
    if before == Before::Brace && octet != b'}' {
        inside.push(octet)?;
        return Ok(());
    }
    inside.clear();
    Ok(())
}

/// Appends what the end of a pattern makes of a number.
fn push_end(
    alloc: Global,
    line: &mut Vec<u8>,
    number: u64,
    before: Before,
) -> Result<(), PatternError>
    ensures { OnOk result (option_map (λ s. line.old.items ++ s) (text_at_end number before)
        ≡ Some line.new.items) }
{
    match before {
        Before::Plain => Ok(()),
        Before::Escape => Ok(line.push(b'\\')?),
        Before::Dollar => Ok(push_number(alloc, line, Base::Decimal, 0, number)?),
        Before::Brace => Err(PatternError::Wrong(What::Modifier)),
    }
}

/// In which form a number is written.
#[derive(Clone, Copy, PartialEq, Eq, Debug)]
pub(crate) enum Base {
    /// To the base 8.
    Octal,
    /// To the base 10.
    Decimal,
    /// To the base 16, in small letters or in capitals.
    Hex(bool),
    /// In hex, the last digit first and a dot between two: names below ip6.arpa.
    Nibbles(bool),
}

/// Appends the number with what stands in braces behind the `$`.
#[tactic(auto, unfolding(crate::specs::Patterns::modified))]
fn push_modified(
    alloc: Global,
    line: &mut Vec<u8>,
    inside: &[u8],
    number: u64,
) -> Result<(), PatternError>
    ensures { OnOk result (option_map (λ s. line.old.items ++ s) (modified number inside.now)
        ≡ Some line.new.items) }
{
    let parts = parts_of(inside);
    let (Some(width), Some(base)) = (parts.width, parts.base) else {
        return Err(PatternError::Wrong(What::Modifier));
    };
    match with_offset(number, parts.offset) {
        Some(sum) => Ok(push_number(alloc, line, base, width, sum)?),
        None => Err(PatternError::Wrong(if is_offset(parts.offset) {
            What::Negative
        } else {
            What::Modifier
        })),
    }
}

/// The parts of what stands in braces. The width is 0 and the base 10 where they are left out.
#[derive(Clone, Copy)]
struct Parts<'p> {
    offset: &'p [u8],
    width: Option<u8>,
    base: Option<Base>,
}

fn parts_of(inside: &[u8]) -> Parts<'_>
    ensures { (result.offset.now, (result.width, result.base)) ≡ parts_of inside.now }
{
    let Some((offset, behind)) = cut_at(inside, b',') else {
        return Parts {
            offset: inside,
            width: Some(0),
            base: Some(Base::Decimal),
        };
    };
    match cut_at(behind, b',') {
        Some((width, base)) => Parts {
            offset,
            width: read_u8(width),
            base: base_of(base),
        },
        None => Parts {
            offset,
            width: read_u8(behind),
            base: Some(Base::Decimal),
        },
    }
}

fn base_of(word: &[u8]) -> Option<Base>
    ensures { result ≡ base_of word.now }
{
    if word == b"d".as_slice() {
        return Some(Base::Decimal);
    }
    if word == b"o".as_slice() {
        return Some(Base::Octal);
    }
    if word == b"x".as_slice() {
        return Some(Base::Hex(false));
    }
    if word == b"X".as_slice() {
        return Some(Base::Hex(true));
    }
    if word == b"n".as_slice() {
        return Some(Base::Nibbles(false));
    }
    if word == b"N".as_slice() {
        return Some(Base::Nibbles(true));
    }
    None
}

/// A number with an offset, which may have a sign. None where the sum is below 0, or this is no offset.
fn with_offset(number: u64, offset: &[u8]) -> Option<u64>
    ensures { IfSome result (λ sum. with_offset number offset.now ≡ Some sum) }
{
    match offset {
        [] => None,
        [b'-', by @ ..] => number.checked_sub(u64::from(read_u32(by)?)),
        [b'+', by @ ..] => number.checked_add(u64::from(read_u32(by)?)),
        _ => number.checked_add(u64::from(read_u32(offset)?)),
    }
}

/// Whether this is an offset.
fn is_offset(offset: &[u8]) -> bool {
    match offset {
        [b'-' | b'+', by @ ..] => read_u32(by).is_some(),
        _ => read_u32(offset).is_some(),
    }
}
