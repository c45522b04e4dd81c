//! Faults as lines of text.

use crate::error::ZoneFault;
use record_fields::Reason;
use std::fmt;

/// How many octets of a word are shown at most.
const SHOWN: usize = 40;

/// A fault as a line of text: the name of the file, line and column, what is wrong there, and the word that is there if
/// that helps, as `example.zone:12:23: an IPv4 address takes four numbers with dots, not 'www'`.
#[derive(Drop)]
pub struct FaultText<'f> {
    pub file: &'f str,
    pub fault: &'f ZoneFault,
}

impl fmt::Display for FaultText<'_> {
    fn fmt<W: fmt::Write>(&self, f: &mut fmt::Formatter<W>) -> fmt::Result {
        let fault = self.fault;
        let place = fault.place;
        write!(f, "{}:{}:{}: ", self.file, place.line, place.column)?;
        write!(f, "{}", fault.reason)?;
        match &fault.word {
            Some(word) => write!(f, "{}", QuotedWord(fault.reason, word.as_slice())),
            None => Ok(()),
        }
    }
}

/// A word as it is told behind a reason.
#[derive(Drop)]
struct QuotedWord<'w>(Reason, &'w [u8]);

impl fmt::Display for QuotedWord<'_> {
    fn fmt<W: fmt::Write>(&self, f: &mut fmt::Formatter<W>) -> fmt::Result {
        match lead_of(self.0) {
            Some(lead) => write!(f, "{lead}'{}'", ShownWord(self.1)),
            None => Ok(()),
        }
    }
}

/// What stands between a reason and its word. None if the word isn't what is wrong.
fn lead_of(reason: Reason) -> Option<&'static str> {
    match reason {
        Reason::Missing => Some(" behind "),
        Reason::Surplus => Some(": "),
        Reason::Quoted => Some(": "),
        Reason::OnlyGeneric => Some(": "),
        Reason::HexOctets => Some(", behind "),
        Reason::Include => Some(": "),
        Reason::Parameter(_) => Some(": "),
        Reason::Entry(_) => None,
        Reason::NoOwner => None,
        Reason::NoTtl => None,
        Reason::LongTtl => None,
        Reason::Octets => None,
        Reason::TooLong => None,
        _ => Some(", not "),
    }
}

/// A word as it is in the text, octets that aren't printed by their numbers; of a long one its beginning.
#[derive(Drop)]
struct ShownWord<'w>(&'w [u8]);

impl fmt::Display for ShownWord<'_> {
    fn fmt<W: fmt::Write>(&self, f: &mut fmt::Formatter<W>) -> fmt::Result {
        let shown = self.0.get(..SHOWN).unwrap_or(self.0);
        for octet in shown {
            write!(f, "{}", ShownOctet(*octet))?;
        }
        if shown.len() < self.0.len() {
            write!(f, "..")?;
        }
        Ok(())
    }
}

/// An octet: a printing character of ASCII or a space as it is, and any other one as `\DDD`.
#[derive(Drop)]
struct ShownOctet(u8);

impl fmt::Display for ShownOctet {
    fn fmt<W: fmt::Write>(&self, f: &mut fmt::Formatter<W>) -> fmt::Result {
        let octet = self.0;
        if 32 <= octet && octet <= 126 {
            write!(f, "{}", octet as char)
        } else {
            let hundreds = (b'0' + octet / 100) as char;
            let tens = (b'0' + octet / 10 % 10) as char;
            let ones = (b'0' + octet % 10) as char;
            write!(f, "\\{hundreds}{tens}{ones}")
        }
    }
}
