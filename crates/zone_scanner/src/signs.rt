//! What each octet of a text stands for.
ghost use Rattle.std.specs.Prelude.{◌≡◌, ◌≤◌, ◌<◌, ℕ, true, false, length, slice_index};
ghost use Rattle.zone_scanner.specs.Signs.{sign_of, plain_sign, mode_after, goes_on, joins, fault_at_end, escaped_sign};

use crate::fault::{EntryFault, EntryReason};
use crate::place::Place;

/// What an octet of a text stands for.
#[derive(Clone, Copy, PartialEq, Eq, Debug)]
pub(crate) enum Sign {
    /// A blank between words.
    Blank,
    /// The end of a line.
    LineEnd,
    /// A parenthesis that opens.
    Opens,
    /// A parenthesis that closes.
    Closes,
    /// A quote that opens.
    Quote,
    /// A quote that closes.
    Unquote,
    /// An octet of a word.
    Octet(u8),
    /// An octet that may not stand here.
    Wrong(EntryFault),
}

/// What comes before an octet and decides what it stands for.
#[derive(Clone, Copy, PartialEq, Eq, Debug)]
pub(crate) enum Mode {
    /// Nothing that does.
    Plain,
    /// A backslash.
    Escape,
    /// A quote that opened at this place and isn't closed.
    InQuotes(Place),
    /// A backslash behind such a quote.
    EscapeInQuotes(Place),
    /// A semicolon in the same line.
    InComment,
}

impl Mode {
    /// What an octet at a place stands for.
    pub(crate) fn sign_of(self, place: Place, octet: u8) -> Sign
        ensures { result ≡ sign_of self place octet }
    {
        match self {
            Mode::Plain => plain_sign(octet),
            Mode::Escape | Mode::EscapeInQuotes(_) => escaped_sign(place, octet),
            Mode::InQuotes(quote) => match octet {
                b'"' => Sign::Unquote,
                b'\n' => Sign::Wrong(EntryFault {
                    place: quote,
                    reason: EntryReason::OpenQuote,
                }),
                _ => Sign::Octet(octet),
            },
            Mode::InComment => match octet {
                b'\n' => Sign::LineEnd,
                _ => Sign::Blank,
            },
        }
    }

    /// What comes before the next octet.
    pub(crate) fn after(self, place: Place, octet: u8) -> Mode
        ensures { result ≡ mode_after self place octet }
    {
        match self {
            Mode::Plain => match octet {
                b';' => Mode::InComment,
                b'"' => Mode::InQuotes(place),
                b'\\' => Mode::Escape,
                _ => Mode::Plain,
            },
            Mode::Escape => Mode::Plain,
            Mode::InQuotes(quote) => match octet {
                b'"' => Mode::Plain,
                b'\\' => Mode::EscapeInQuotes(quote),
                _ => Mode::InQuotes(quote),
            },
            Mode::EscapeInQuotes(quote) => Mode::InQuotes(quote),
            Mode::InComment => match octet {
                b'\n' => Mode::Plain,
                _ => Mode::InComment,
            },
        }
    }

    /// Whether an octet is one of a word, wherever it stands, and the next comes after the same mode.
    fn goes_on(self, octet: u8) -> bool
        ensures { result ≡ goes_on self octet }
    {
        match self {
            Mode::Plain => !matches!(
                octet,
                b' ' | b'\t' | b';' | b'\n' | b'\r' | b'(' | b')' | b'"' | b'\\'
            ),
            Mode::InQuotes(_) => !matches!(octet, b'"' | b'\n' | b'\\'),
            Mode::Escape | Mode::EscapeInQuotes(_) | Mode::InComment => false,
        }
    }

    /// How many octets at the start of a text go on so, up to a number.
    pub(crate) fn run_length(self, text: &[u8], most: usize) -> usize
        ensures within { result ≤ length text.now }
        ensures most { result ≤ most }
        ensures go_on { (k : ℕ) → k < result → goes_on self (slice_index text.now k) ≡ true }
    {
        for (i, octet) in text.iter().enumerate() {
            if i == most || !self.goes_on(*octet) {
                return i;
            }
        }
        text.len()
    }

    /// Why a text may not end at a place, if it may not.
    pub(crate) fn fault_at_end(self, place: Place) -> Option<EntryFault>
        ensures { result ≡ fault_at_end self place }
    {
        match self {
            Mode::Plain | Mode::InComment => None,
            Mode::Escape | Mode::EscapeInQuotes(_) => Some(EntryFault {
                place,
                reason: EntryReason::OpenEscape,
            }),
            Mode::InQuotes(quote) => Some(EntryFault {
                place: quote,
                reason: EntryReason::OpenQuote,
            }),
        }
    }
}

impl Sign {
    /// Whether a word that begins behind it is joined to the word before.
    pub(crate) fn joins(self) -> bool
        ensures { result ≡ joins self }
    {
        match self {
            Sign::Unquote | Sign::Octet(_) => true,
            Sign::Blank
            | Sign::LineEnd
            | Sign::Opens
            | Sign::Closes
            | Sign::Quote
            | Sign::Wrong(_) => false,
        }
    }
}

/// What an octet outside of quotes and comments stands for, where no backslash comes before it.
fn plain_sign(octet: u8) -> Sign
    ensures { result ≡ plain_sign octet }
{
    match octet {
        b' ' | b'\t' | b';' => Sign::Blank,
        b'\n' | b'\r' => Sign::LineEnd,
        b'(' => Sign::Opens,
        b')' => Sign::Closes,
        b'"' => Sign::Quote,
        _ => Sign::Octet(octet),
    }
}

/// What an octet behind a backslash stands for.
fn escaped_sign(place: Place, octet: u8) -> Sign
    ensures { result ≡ escaped_sign place octet }
{
    match octet {
        b'\n' | b'\r' => Sign::Wrong(EntryFault {
            place,
            reason: EntryReason::OpenEscape,
        }),
        _ => Sign::Octet(octet),
    }
}
