//! The words of a line.
ghost use Rattle.std.specs.Prelude.{◌≡◌, ◌++◌, IfOk, OnOk, drop, position, take};
ghost use Rattle.update_rules.specs.Words.{begins_word, begun, ends_word, is_blank, is_quote, length_before, mode_behind, mode_within, open_quote, says, word_at, word_of, words_of};

use std::alloc::{AllocError, Global};

/// The octet before a word that may have blanks, and behind it.
const QUOTE: u8 = b'"';

/// What an octet of a line comes behind.
#[derive(Clone, Copy, PartialEq, Eq, Debug)]
pub(crate) enum Mode {
    /// Behind a blank, a closed quote, or nothing.
    Between,
    /// Behind an octet of a word without quotes.
    Inside,
    /// Behind the quote at this offset, which isn't closed yet.
    Quoted(usize),
    /// Behind an octet of a comment.
    Comment,
}

/// Where the words of a line begin.
#[tactic(auto, using(crate::proofs::WordRuns::one_further))]
pub(crate) fn words_of(alloc: Global, line: &[u8]) -> Result<Vec<usize>, AllocError>
    ensures { IfOk result (λ words. words.items ≡ words_of line.now) }
{
    let mut words = Vec::new(alloc);
    let mut mode = Mode::Between;
    for at in 0..line.len() {
        let octet = line[at];
        push_begun(&mut words, mode, at, octet)?;
        mode = mode_behind(mode, at, octet);
    }
    Ok(words)
}

/// Appends the beginning of a word, if one begins with the octet at an offset.
fn push_begun(words: &mut Vec<usize>, mode: Mode, at: usize, octet: u8) -> Result<(), AllocError>
    ensures { OnOk result (words.new.items ≡ words.old.items ++ begun mode at octet) }
{
    if !begins_word(mode, octet) {
        return Ok(());
    }
    words.push(at)?;
    Ok(())
}

/// Where the quote is that isn't closed in a line, if there is one.
#[tactic(auto, using(crate::proofs::WordRuns::mode_further))]
pub(crate) fn open_quote(line: &[u8]) -> Option<usize>
    ensures { result ≡ open_quote line.now }
{
    let mut mode = Mode::Between;
    for at in 0..line.len() {
        mode = mode_behind(mode, at, line[at]);
    }
    match mode {
        Mode::Quoted(at) => Some(at),
        _ => None,
    }
}

/// Whether a word begins with an octet.
fn begins_word(mode: Mode, octet: u8) -> bool
    ensures { result ≡ begins_word mode octet }
{
    match mode {
        Mode::Between => !ends_word(octet),
        Mode::Inside | Mode::Quoted(_) | Mode::Comment => false,
    }
}

/// What the octet behind the one at an offset comes behind.
fn mode_behind(mode: Mode, at: usize, octet: u8) -> Mode
    ensures { result ≡ mode_behind mode at octet }
{
    match mode {
        Mode::Between => {
            if is_quote(octet) {
                Mode::Quoted(at)
            } else {
                mode_within(octet)
            }
        }
        Mode::Inside => mode_within(octet),
        Mode::Quoted(begun) => {
            if is_quote(octet) {
                Mode::Between
            } else {
                Mode::Quoted(begun)
            }
        }
        Mode::Comment => Mode::Comment,
    }
}

/// What the octet behind this one comes behind, which is in no quotes and no comment.
fn mode_within(octet: u8) -> Mode
    ensures { result ≡ mode_within octet }
{
    if octet == b'#' {
        Mode::Comment
    } else if is_blank(octet) {
        Mode::Between
    } else {
        Mode::Inside
    }
}

/// The word that begins at an offset of a line, without its quotes.
pub(crate) fn word_at(line: &[u8], at: usize) -> &[u8]
    ensures { result.now ≡ word_at at line.now }
{
    word_of(behind(line, at))
}

/// The word that octets begin with, without its quotes.
fn word_of(octets: &[u8]) -> &[u8]
    ensures { result.now ≡ word_of octets.now }
{
    match octets {
        [QUOTE, quoted @ ..] => front(quoted, length_before_quote(quoted)),
        _ => front(octets, length_before_end(octets)),
    }
}

/// The octets of a line behind so many.
fn behind(line: &[u8], count: usize) -> &[u8]
    ensures { result.now ≡ drop count line.now }
{
    if count < line.len() {
        &line[count..]
    } else {
        &[]
    }
}

/// The first octets, so many or all of them.
fn front(octets: &[u8], count: usize) -> &[u8]
    ensures { result.now ≡ take count octets.now }
{
    if count < octets.len() {
        &octets[..count]
    } else {
        octets
    }
}

/// How many octets come before the first that ends a word.
fn length_before_end(octets: &[u8]) -> usize
    ensures { result ≡ length_before ends_word octets.now }
{
    first_end(octets).unwrap_or(octets.len())
}

/// The first octet that ends a word.
fn first_end(octets: &[u8]) -> Option<usize>
    ensures { result ≡ position ends_word octets.now }
{
    octets.iter().position(|octet| ends_word(*octet))
}

/// How many octets come before the first quote.
fn length_before_quote(octets: &[u8]) -> usize
    ensures { result ≡ length_before is_quote octets.now }
{
    first_quote(octets).unwrap_or(octets.len())
}

/// The first quote.
fn first_quote(octets: &[u8]) -> Option<usize>
    ensures { result ≡ position is_quote octets.now }
{
    octets.iter().position(|octet| is_quote(*octet))
}

/// Whether an octet ends a word before it that has no quotes.
fn ends_word(octet: u8) -> bool
    ensures { result ≡ ends_word octet }
{
    octet == b'#' || is_blank(octet)
}

/// Whether an octet separates words.
fn is_blank(octet: u8) -> bool
    ensures { result ≡ is_blank octet }
{
    octet == b' ' || octet == b'\t' || octet == b'\r'
}

/// Whether an octet is a quote.
fn is_quote(octet: u8) -> bool
    ensures { result ≡ is_quote octet }
{
    octet == QUOTE
}

/// Whether a word is this one.
pub(crate) fn says(word: &[u8], wanted: &[u8]) -> bool
    ensures { result ≡ says word.now wanted.now }
{
    word == wanted
}
