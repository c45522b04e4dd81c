//! The words of a text.
ghost use Rattle.std.specs.Prelude.{◌≡◌, ◌++◌, IfOk, OnOk, drop, position, take};
ghost use Rattle.key_files.specs.Words.{begins_word, begun, ends_word, is_heading, is_separator, mode_behind, says, telling, word_at, word_length, words_of};

use message_hmac::same_octets;
use std::alloc::{AllocError, Global};

/// What an octet of a text comes behind.
#[derive(Clone, Copy, PartialEq, Eq, Debug)]
pub(crate) enum Mode {
    /// Behind a separator, or nothing.
    Between,
    /// Behind an octet of a word.
    Inside,
    /// Behind an octet of a comment.
    Comment,
}

/// Where the words of a text begin, but for those that say nothing.
#[tactic(auto, using(crate::proofs::WordRuns::one_further))]
pub(crate) fn words_of(alloc: Global, text: &[u8]) -> Result<Vec<usize>, AllocError>
    ensures { IfOk result (λ words. words.items ≡ words_of text.now) }
{
    let mut words = Vec::new(alloc);
    let mut mode = Mode::Between;
    for at in 0..text.len() {
        let octet = text[at];
        push_begun(&mut words, text, mode, at, octet)?;
        mode = mode_behind(mode, octet);
    }
    Ok(words)
}

/// Appends the beginning of a word, if one begins with the octet at an offset of a text and says something.
fn push_begun(
    words: &mut Vec<usize>,
    text: &[u8],
    mode: Mode,
    at: usize,
    octet: u8,
) -> Result<(), AllocError>
    ensures { OnOk result
        (words.new.items ≡ words.old.items ++ telling text.now (begun mode at octet)) }
{
    if !begins_word(mode, octet) || is_heading(word_at(text, at)) {
        return Ok(());
    }
    words.push(at)?;
    Ok(())
}

/// Whether an octet separates words.
#[tactic(auto, unfolding(crate::specs::Words::is_separator))]
fn is_separator(octet: u8) -> bool
    ensures { result ≡ is_separator octet }
{
    matches!(
        octet,
        b' ' | b'\t' | b'\r' | b'\n' | b'"' | b'{' | b'}' | b';'
    )
}

/// Whether a word begins with an octet.
fn begins_word(mode: Mode, octet: u8) -> bool
    ensures { result ≡ begins_word mode octet }
{
    match mode {
        Mode::Between => !ends_word(octet),
        Mode::Inside | Mode::Comment => false,
    }
}

/// What the octet behind this one comes behind.
fn mode_behind(mode: Mode, octet: u8) -> Mode
    ensures { result ≡ mode_behind mode octet }
{
    match mode {
        Mode::Comment => {
            if octet == b'\n' {
                Mode::Between
            } else {
                Mode::Comment
            }
        }
        Mode::Between | Mode::Inside => {
            if octet == b'#' {
                Mode::Comment
            } else if is_separator(octet) {
                Mode::Between
            } else {
                Mode::Inside
            }
        }
    }
}

/// The word that begins at an offset of a text.
pub(crate) fn word_at(text: &[u8], at: usize) -> &[u8]
    ensures { result.now ≡ word_at at text.now }
{
    let octets = behind(text, at);
    front(octets, word_length(octets))
}

/// The octets of a text behind so many.
fn behind(text: &[u8], count: usize) -> &[u8]
    ensures { result.now ≡ drop count text.now }
{
    if count < text.len() {
        &text[count..]
    } else {
        &[]
    }
}

/// The first octets of a text, so many or all of them.
pub(crate) fn front(text: &[u8], count: usize) -> &[u8]
    ensures { result.now ≡ take count text.now }
{
    if count < text.len() {
        &text[..count]
    } else {
        text
    }
}

/// How many octets come before the first that ends a word.
fn word_length(octets: &[u8]) -> usize
    ensures { result ≡ word_length octets.now }
{
    first_end(octets).unwrap_or(octets.len())
}

/// The first octet that ends a word.
fn first_end(octets: &[u8]) -> Option<usize>
    ensures { result ≡ position ends_word octets.now }
{
    octets.iter().position(|octet| ends_word(*octet))
}

/// Whether an octet ends a word before it.
fn ends_word(octet: u8) -> bool
    ensures { result ≡ ends_word octet }
{
    octet == b'#' || is_separator(octet)
}

/// Whether a word says nothing of a key.
fn is_heading(word: &[u8]) -> bool
    ensures { result ≡ is_heading word.now }
{
    says(word, b"key:") || says(word, b"-")
}

/// Whether a word is this one.
pub(crate) fn says(word: &[u8], wanted: &[u8]) -> bool
    ensures { result ≡ says word.now wanted.now }
{
    same_octets(word, wanted)
}
