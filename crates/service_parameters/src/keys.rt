//! The keys of service parameters.
ghost use Rattle.std.specs.Prelude.{◌≡◌};
ghost use Rattle.service_parameters.specs.Keys.{begins_with_zero, key_of, number_named, number_of, number_written, plain_number};

use line_text::read_u16;

/// A key, and how it is written.
#[derive(Clone, Copy, PartialEq, Eq, Debug)]
pub(crate) enum Key {
    /// By its name, so that its value has a form of its own.
    Named(u16),
    /// As `key` and its number, so that its value is octets.
    Numbered(u16),
}

impl Key {
    /// The number of the key.
    pub(crate) fn number(self) -> u16
        ensures { result ≡ number_of self }
    {
        match self {
            Key::Named(number) | Key::Numbered(number) => number,
        }
    }
}

/// Reads a key: by its name, in lower case, or as `key` and its number up to 65534 without leading zeros (RFC 9460 sections 2.1
/// and 14.3.2). None if the word is neither.
pub(crate) fn read_key(word: &[u8]) -> Option<Key>
    ensures { result ≡ key_of word.now }
{
    match number_named(word) {
        Some(number) => Some(Key::Named(number)),
        None => Some(Key::Numbered(number_written(word)?)),
    }
}

/// The number of the key that has this name.
fn number_named(word: &[u8]) -> Option<u16>
    ensures { result ≡ number_named word.now }
{
    if word == b"mandatory".as_slice() {
        Some(0)
    } else if word == b"alpn".as_slice() {
        Some(1)
    } else if word == b"no-default-alpn".as_slice() {
        Some(2)
    } else if word == b"port".as_slice() {
        Some(3)
    } else if word == b"ipv4hint".as_slice() {
        Some(4)
    } else if word == b"ech".as_slice() {
        Some(5)
    } else if word == b"ipv6hint".as_slice() {
        Some(6)
    } else if word == b"dohpath".as_slice() {
        Some(7)
    } else if word == b"ohttp".as_slice() {
        Some(8)
    } else {
        None
    }
}

/// The number behind `key`.
fn number_written(word: &[u8]) -> Option<u16>
    ensures { result ≡ number_written word.now }
{
    if word.len() < 3 {
        return None;
    }
    let (front, digits) = word.split_at(3);
    if front == b"key".as_slice() {
        plain_number(digits)
    } else {
        None
    }
}

/// A number up to 65534 in digits, without leading zeros.
fn plain_number(digits: &[u8]) -> Option<u16>
    ensures { result ≡ plain_number digits.now }
{
    if begins_with_zero(digits) {
        return None;
    }
    let number = read_u16(digits)?;
    if number <= 65_534 { Some(number) } else { None }
}

/// Whether a zero stands before other digits.
fn begins_with_zero(digits: &[u8]) -> bool
    ensures { result ≡ begins_with_zero digits.now }
{
    match digits {
        [] | [_] => false,
        [first, _, ..] => *first == b'0',
    }
}
