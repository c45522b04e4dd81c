//! A key of a file.
ghost use Rattle.std.specs.Prelude.{◌≡◌, ◌≢◌, IfErr, IfOk, OnOk};
ghost use Rattle.line_text.specs.Reading.{name_of_word};
ghost use Rattle.key_files.specs.Entries.{algorithm_of, entry_by, entry_of, FailsBy, fields_of, is_algorithm_word, is_name_word, is_secret_word};

use crate::fault::{KeyFileReason, WordError};
use crate::words::{says, word_at};
use message_hmac::{Algorithm, Secret};
use std::alloc::{AllocError, Global};
use std::str;
use zone_proto::{LowerName, Name, ProtoError};
use zone_tokens::read_base64;

/// A key of a file, which says nothing of the zones that those may have who share it. It has no `Debug`, so that its secret is in no message.
#[derive(Drop)]
pub struct KeyEntry {
    /// Its name.
    pub name: LowerName,
    /// The algorithm by which codes are made under it.
    pub algorithm: Algorithm,
    /// Its secret.
    pub secret: Secret,
}

/// Where the six words begin that write a key.
#[derive(Clone, Copy, PartialEq, Eq, Debug)]
pub(crate) struct KeyWords {
    pub name_word: usize,
    pub name: usize,
    pub first_word: usize,
    pub first: usize,
    pub second_word: usize,
    pub second: usize,
}

/// The key that six words of a text write.
pub(crate) fn entry_of(alloc: Global, text: &[u8], words: KeyWords) -> Result<KeyEntry, WordError>
    ensures entry { IfOk result (λ entry. entry_of text.now words ≡ Ok entry) }
    ensures fault { IfErr result (FailsBy (entry_of text.now words)) }
{
    if !is_name_word(word_at(text, words.name_word)) {
        return Err(WordError::Wrong(words.name_word, KeyFileReason::NameWanted));
    }
    let (algorithm, secret) = fields_of(text, words)?;
    entry_by(alloc, text, words.name, algorithm, secret)
}

/// Where the words are that name the algorithm of a key and write its secret.
fn fields_of(text: &[u8], words: KeyWords) -> Result<(usize, usize), WordError>
    ensures { result ≡ fields_of text.now words }
{
    let (first_word, second_word) = (
        word_at(text, words.first_word),
        word_at(text, words.second_word),
    );
    if is_algorithm_word(first_word) {
        if is_secret_word(second_word) {
            Ok((words.first, words.second))
        } else {
            Err(WordError::Wrong(words.second_word, KeyFileReason::SecretWanted))
        }
    } else if is_secret_word(first_word) {
        if is_algorithm_word(second_word) {
            Ok((words.second, words.first))
        } else {
            Err(WordError::Wrong(words.second_word, KeyFileReason::AlgorithmWanted))
        }
    } else {
        Err(WordError::Wrong(words.first_word, KeyFileReason::FieldWanted))
    }
}

/// The key of a name, an algorithm and a secret, where their words begin.
fn entry_by(
    alloc: Global,
    text: &[u8],
    name: usize,
    algorithm: usize,
    secret: usize,
) -> Result<KeyEntry, WordError>
    ensures entry { IfOk result (λ entry. entry_by text.now name algorithm secret ≡ Ok entry) }
    ensures fault { IfErr result (FailsBy (entry_by text.now name algorithm secret)) }
{
    let Some(read_name) = read_name(alloc, word_at(text, name))? else {
        return Err(WordError::Wrong(name, KeyFileReason::BadName));
    };
    let Some(read_algorithm) = read_algorithm(word_at(text, algorithm)) else {
        return Err(WordError::Wrong(algorithm, KeyFileReason::UnknownAlgorithm));
    };
    let Some(octets) = read_base64(alloc, word_at(text, secret))? else {
        return Err(WordError::Wrong(secret, KeyFileReason::BadSecret));
    };
    Ok(KeyEntry {
        name: LowerName::from(read_name),
        algorithm: read_algorithm,
        secret: Secret::new(octets),
    })
}

/// The name that a word is; none if it is none.
#[tactic(auto, using(crate::proofs::WordNames::naming))]
fn read_name(alloc: Global, word: &[u8]) -> Result<Option<Name>, AllocError>
    ensures { IfOk result (λ name. name ≡ name_of_word word.now) }
{
    let Ok(text) = str::from_utf8(word) else {
        return Ok(None);
    };
    match Name::parse(alloc, text) {
        Ok(name) => Ok(Some(name)),
        Err(error) => no_name(error),
    }
}

/// No name, unless there was no memory to read it.
fn no_name(error: ProtoError) -> Result<Option<Name>, AllocError>
    ensures none { IfOk result (λ name. name ≡ None) }
    ensures fault { OnOk result (error ≢ ProtoError.Memory) }
{
    match error {
        ProtoError::Memory => Err(AllocError),
        _ => Ok(None),
    }
}

/// The algorithm that a word names.
fn read_algorithm(word: &[u8]) -> Option<Algorithm>
    ensures { result ≡ algorithm_of word.now }
{
    if says(word, b"hmac-sha1") {
        Some(Algorithm::Sha1)
    } else if says(word, b"hmac-sha224") {
        Some(Algorithm::Sha224)
    } else if says(word, b"hmac-sha256") {
        Some(Algorithm::Sha256)
    } else if says(word, b"hmac-sha384") {
        Some(Algorithm::Sha384)
    } else if says(word, b"hmac-sha512") {
        Some(Algorithm::Sha512)
    } else {
        None
    }
}

/// Whether the name of a key follows a word.
fn is_name_word(word: &[u8]) -> bool
    ensures { result ≡ is_name_word word.now }
{
    says(word, b"key") || says(word, b"name:") || says(word, b"id:")
}

/// Whether the name of an algorithm follows a word.
fn is_algorithm_word(word: &[u8]) -> bool
    ensures { result ≡ is_algorithm_word word.now }
{
    says(word, b"algorithm") || says(word, b"algorithm:")
}

/// Whether a secret follows a word.
fn is_secret_word(word: &[u8]) -> bool
    ensures { result ≡ is_secret_word word.now }
{
    says(word, b"secret") || says(word, b"secret:")
}
