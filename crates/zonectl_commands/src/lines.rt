//! The lines of an input, as they are read.
ghost use Rattle.std.specs.Prelude.{◌≡◌, ◌≤◌, ◌<◌, ◌+◌, ◌↔◌, ◌≢◌, ℕ, List, [], ◌∷◌, ◌++◌, Some, None, vec_len, vec_capacity, length, IfOk, IfSome, IfNone, OnOk, OnErr, IsTrue, true, nat_le, if◌then◌else◌};
ghost use Rattle.std.specs.Bool.{OnFalse, OnTrue};
ghost use Rattle.std.specs.Io.KnownBytes.{Consumes, IsAtEnd, Keeps};
ghost use Rattle.std.specs.List.{list_all};
ghost use Rattle.std.specs.Str.Lines.{strip_carriage_return};
ghost use Rattle.zonectl_commands.specs.Lines.{is_plain, plain};
ghost use Rattle.zonectl_commands.specs.InHand.{IsBegun};
ghost use Rattle.zonectl_commands.specs.AnsweredLines.{answered_line};
ghost use Rattle.zonectl_commands.specs.Kept.{begun_of, kept_if, IsCut};

use input_reads::read_some;
use memchr::memchr;
use std::alloc::{AllocError, Global};
use std::io;
use std::io::Read;
use std::marker::Model;

/// The longest line in octets, without its end.
const LINE_LIMIT: usize = 4_096;

/// The most octets that are kept of a line: one past the limit, for the carriage return of a line of the greatest length.
const LINE_BUFFER: usize = 4_097;

/// How many octets are read ahead.
const CHUNK: usize = 16_384;

/// What a line is.
pub enum Line {
    /// Its octets are in the buffer.
    Whole,
    /// It is too long, or has an octet above 126.
    Bad,
}

/// The lines of an input, as they are read: the octets read ahead, and the line in hand. All its memory is taken at the
/// start. Contracts see it as what is in hand (`InHand`).
#[derive(Drop)]
pub struct Lines {
    chunk: Vec<u8>,
    at: usize,
    filled: usize,
    line: Vec<u8>,
    /// Whether octets of the line in hand were taken, and its line feed wasn't yet.
    is_begun: bool,
    /// Whether all octets of the line in hand that were taken are in the buffer.
    fits: bool,
}

impl Model for Lines {
    ghost use Rattle.std.specs.Prelude.{slice_range, vec_len, vec_capacity};
    ghost use Rattle.zonectl_commands.specs.InHand.{InHand};
    ghost use Rattle.zonectl_commands.specs.Kept.{begun_of, IsInOrder};

    ghost Value = { InHand };

    ghost view = { λ l. record {
      line = l.line.items;
      begun = begun_of l.is_begun l.fits l.line.items;
      ahead = slice_range l.chunk.items l.at l.filled;
    } };

    ghost invariant = { λ l. IsInOrder (vec_len l.chunk) l.at l.filled
        (vec_len l.line) (vec_capacity l.line) l.is_begun l.fits };
}

impl Lines {
    ghost use Rattle.zonectl_commands.specs.InHand.{GoesOn, IsAllTaken, IsLastLine, IsUntaken, TakesFirst};

    /// No line in hand and nothing read ahead. An error if there isn't enough memory.
    pub fn new(alloc: Global) -> Result<Lines, AllocError>
        ensures { IfOk result (λ lines. IsUntaken lines []) }
    {
        let chunk = vec![in alloc; 0u8; CHUNK]?;
        let line = Vec::with_capacity(alloc, LINE_BUFFER)?;
        Ok(Lines {
            chunk,
            at: 0,
            filled: 0,
            line,
            is_begun: false,
            fits: true,
        })
    }

    /// The line in hand, without its end.
    pub fn line(&self) -> &[u8]
        ensures { result.now ≡ self.now.line }
    {
        self.line.as_slice()
    }

    /// Takes the next line out of what was read ahead. None if its line feed isn't there: then all that was read ahead is
    /// taken, and the line goes on with what is read next.
    pub fn take(&mut self) -> Option<Line>
        ensures taken { IfSome result
            (λ line. TakesFirst self.old self.new (answered_line line self.new.line)) }
        ensures none { IfNone result (GoesOn self.old self.new) }
        ensures used_up { IfNone result (self.new.ahead ≡ []) }
    {
        let (piece, is_end) = first_piece(&self.chunk[self.at..self.filled]);
        self.fits = put(&mut self.line, piece, self.is_begun, self.fits);
        self.at += piece.len();
        if !is_end {
            self.is_begun |= !piece.is_empty();
            return None;
        }
        self.at += 1;
        self.is_begun = false;
        drop_carriage_return(&mut self.line);
        Some(judge(self.line.as_slice(), self.fits))
    }

    /// Takes the last line at the end of the input, if it lacks its line feed. None if nothing comes after the last
    /// one.
    pub fn take_last(&mut self) -> Option<Line>
        requires { self.old.ahead ≡ [] }
        ensures taken { IfSome result (λ line. IsLastLine self.old (answered_line line
            self.new.line)) }
        ensures none { IfNone result (IsAllTaken self.old) }
        ensures left { IsUntaken self.new [] }
    {
        if !self.is_begun {
            return None;
        }
        self.is_begun = false;
        Some(judge(self.line.as_slice(), self.fits))
    }

    /// Reads ahead, once all is taken that was read before. False at the end of the input. What was taken of a line stays as
    /// it was, after an error too.
    pub fn fill<R: Read>(&mut self, input: &mut R) -> io::Result<bool>
        requires { self.old.ahead ≡ [] }
        ensures kept { self.new ≡ record self.old { ahead = self.new.ahead } }
        ensures read { OnOk result
            (Consumes (R.remaining input.old) (R.remaining input.new) self.new.ahead) }
        ensures more { IfOk result (λ is_more. OnTrue is_more (self.new.ahead ≢ [])) }
        ensures end { IfOk result
            (λ is_more. OnFalse is_more ((self.new.ahead ≡ []) × IsAtEnd (R.remaining input.new))) }
        ensures err { OnErr result
            ((self.new.ahead ≡ []) × Keeps (R.remaining input.old) (R.remaining input.new)) }
    {
        self.at = 0;
        self.filled = 0;
        let count = read_some(input, self.chunk.as_mut_slice())?;
        self.filled = count;
        Ok(count > 0)
    }
}

/// The octets before the first line feed, and that there is one; or all octets, if there is none.
#[tactic(auto, using(crate::proofs::LineFacts::cutting))]
fn first_piece(unread: &[u8]) -> (&[u8], bool)
    ensures { IsCut unread.now result.0.now result.1 }
{
    match memchr(b'\n', unread) {
        Some(end) => (&unread[..end], true),
        None => (unread, false),
    }
}

/// Appends a piece to what was taken of the line that goes on, or at the beginning of a new one. Answers whether all
/// that was taken of the line is here then.
fn put(line: &mut Vec<u8>, piece: &[u8], is_begun: bool, fits: bool) -> bool
    requires room { 4097 ≤ vec_capacity line.old }
    requires short { vec_len line.old ≤ 4097 }
    ensures begun { (begun : List ℕ) → IsBegun (begun_of is_begun fits line.old.items) begun
        → IsBegun (kept_if result line.new.items) (begun ++ piece.now) }
    ensures whole { IsTrue result → is_begun ≡ true → fits ≡ true }
    ensures len { IsTrue result
        → vec_len line.new ≡ (if is_begun then vec_len line.old else 0) + length piece.now }
    ensures short { vec_len line.new ≤ 4097 }
    ensures room { 4097 ≤ vec_capacity line.new }
{
    if !is_begun {
        line.clear();
    }
    let is_whole = fits || !is_begun;
    append(line, piece) && is_whole
}

/// Appends a piece to the octets of a line, unless they are too many then. Answers whether it did.
fn append(line: &mut Vec<u8>, piece: &[u8]) -> bool
    requires room { 4097 ≤ vec_capacity line.old }
    requires short { vec_len line.old ≤ 4097 }
    ensures items { line.new.items
        ≡ (if result then line.old.items ++ piece.now else line.old.items) }
    ensures fits { IsTrue result ↔ (vec_len line.old + length piece.now ≤ 4097) }
    ensures short { vec_len line.new ≤ 4097 }
    ensures room { vec_capacity line.old ≤ vec_capacity line.new }
{
    piece.len() <= LINE_BUFFER - line.len() && line.extend_from_slice(piece).is_ok()
}

/// Takes one carriage return at the end of a line away.
fn drop_carriage_return(line: &mut Vec<u8>)
    ensures items { line.new.items ≡ strip_carriage_return line.old.items }
    ensures room { vec_capacity line.new ≡ vec_capacity line.old }
{
    if line.last() == Some(&b'\r') {
        line.pop();
    }
}

/// What a line is, of which all octets are here or not.
fn judge(line: &[u8], fits: bool) -> Line
    ensures { answered_line result line.now ≡ (if fits then plain line.now else None) }
{
    if fits && is_plain(line) {
        Line::Whole
    } else {
        Line::Bad
    }
}

/// Whether a line is within the limits.
fn is_plain(line: &[u8]) -> bool
    ensures { result ≡ is_plain line.now }
{
    line.len() <= LINE_LIMIT && has_plain_octets(line)
}

fn has_plain_octets(line: &[u8]) -> bool
    ensures { result ≡ list_all (λ octet. nat_le octet 126) line.now }
{
    line.iter().all(|octet| *octet <= 126)
}
