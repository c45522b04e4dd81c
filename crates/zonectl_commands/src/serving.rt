//! Lines answered one after the other, by whatever carries out commands.
ghost use Rattle.std.specs.Prelude.{◌≡◌, ◌++◌, ℕ, List, [], Some, false, IfOk, OnOk, string_bytes};
ghost use Rattle.zonectl_commands.specs.declared.command.Command.{Command as CommandData};
ghost use Rattle.std.specs.Io.KnownBytes.{Appends, Consumes, IsAtEnd};
ghost use Rattle.zonectl_commands.specs.InHand.{IsUntaken};
ghost use Rattle.zonectl_commands.specs.Lines.{lines_of};
ghost use Rattle.zonectl_commands.specs.Serving.{HasNext, Moves};
ghost use Rattle.zonectl_commands.specs.AnsweredLines.{answered_line};
ghost use Rattle.zonectl_commands.specs.Transcripts.{bad_line, AnswersLine, IsTranscript};

use crate::command::{Command, read_command};
use crate::lines::{Line, Lines};
use line_text::TextError;
use std::alloc::{AllocError, Global};
use std::io::{Read, Write};

/// From how many octets on answers are written without waiting for the next read.
const WAITING_LIMIT: usize = 4_096;

/// How many octets of answers have room from the start. Behind those that wait, an answer of up to 4,096 octets always
/// has room, and doesn't allocate.
const ANSWERS_BUFFER: usize = 8_192;

/// What carries out commands, and keeps what they change.
pub trait Session {
    // The session before a command, the command, the text of an answer to it, and the session after it.
    ghost carries: { Self → CommandData → List ℕ → Self → Type 0 };

    /// Carries out a command, and adds its answer to the text. An error says that memory was refused for the text, of which a
    /// part may have been added then.
    fn carry_out(&mut self, command: Command, answer: &mut String) -> Result<(), AllocError>
        ensures { OnOk result ((text : List ℕ)
            × carries self.old command text self.new
            × (string_bytes answer.new ≡ string_bytes answer.old ++ text)) };
}

/// Why lines aren't served to their end.
pub enum Stop {
    /// No memory is found at the start.
    Memory,
    /// A read failed, or there are more lines than a number of 64 bits counts.
    Read,
    /// A write failed, or there isn't enough memory for the text of an answer.
    Write,
}

/// Has a session answer each line of an input, one after the other, and says whether all lines were good. A command is
/// carried out, a bad line is answered by `bad line N`, counted from 1, and a blank line and a comment, which begins
/// with `#`, by nothing. Where there isn't enough memory to read a line, its answer is `error Memory`.
///
/// Answers to lines that were read together are written together: those that wait are written in one piece before `input` is
/// read again and at its end, and as soon as they have 4,096 octets or more.
///
/// # Errors
/// The error says why not all lines were answered. After a read that failed, the answers to all lines before it are written;
/// after a write that failed nothing more is. Where it is the text of an answer that finds no memory, the answers before it are
/// written and nothing of it.
pub fn serve<S: Session, R: Read, W: Write>(
    alloc: Global,
    session: &mut S,
    input: &mut R,
    output: &mut W,
) -> Result<bool, Stop>
    ensures { IfOk result (λ good. (octets text : List ℕ)
        × Consumes (R.remaining input.old) (R.remaining input.new) octets
        × IsAtEnd (R.remaining input.new)
        × IsTranscript S.carries session.old 1 (lines_of octets) text good session.new
        × Appends (W.contents output.old) (W.contents output.new) text) }
{
    let Ok(mut lines) = Lines::new(alloc) else {
        return Err(Stop::Memory);
    };
    let Ok(mut answers) = String::with_capacity(alloc, ANSWERS_BUFFER) else {
        return Err(Stop::Memory);
    };
    let good = serve_lines(alloc, session, &mut lines, input, &mut answers, output)?;
    match output.flush() {
        Ok(()) => Ok(good),
        Err(_) => Err(Stop::Write),
    }
}

/// Serves all lines, and writes all answers.
fn serve_lines<S: Session, R: Read, W: Write>(
    alloc: Global,
    session: &mut S,
    lines: &mut Lines,
    input: &mut R,
    answers: &mut String,
    output: &mut W,
) -> Result<bool, Stop>
    requires none_read { IsUntaken lines.old [] }
    requires none_waiting { string_bytes answers.old ≡ [] }
    ensures { IfOk result (λ good. (octets text : List ℕ)
        × Consumes (R.remaining input.old) (R.remaining input.new) octets
        × IsAtEnd (R.remaining input.new)
        × IsTranscript S.carries session.old 1 (lines_of octets) text good session.new
        × Appends (W.contents output.old) (W.contents output.new) text) }
{
    let mut good = true;
    for i in 0..u64::MAX {
        match next_line(lines, input, answers, output)? {
            Some(line) => {
                good &= serve_line(alloc, session, line, lines.line(), i + 1, answers, output)?;
            }
            None => {
                good &= serve_last(alloc, session, lines, i + 1, answers, output)?;
                return Ok(good);
            }
        }
    }
    Err(Stop::Read)
}

/// Takes the next line that a line feed ends, if there is one. The answers that wait are written before each read of the input.
fn next_line<R: Read, W: Write>(
    lines: &mut Lines,
    input: &mut R,
    answers: &mut String,
    output: &mut W,
) -> Result<Option<Line>, Stop>
    ensures lines { IfOk result (λ next.
        HasNext lines.old lines.new (R.remaining input.old) (R.remaining input.new) next) }
    ensures answers { OnOk result (Moves (string_bytes answers.old)
        (W.contents output.old) (W.contents output.new) (string_bytes answers.new)) }
{
    for _ in 0..u64::MAX {
        if let Some(line) = lines.take() {
            return Ok(Some(line));
        }
        write_out(answers, output)?;
        match lines.fill(input) {
            Ok(true) => {}
            Ok(false) => return Ok(None),
            Err(_) => return Err(Stop::Read),
        }
    }
    Err(Stop::Read)
}

/// Serves what follows the last line feed, if something does, and writes the answers that wait.
fn serve_last<S: Session, W: Write>(
    alloc: Global,
    session: &mut S,
    lines: &mut Lines,
    number: u64,
    answers: &mut String,
    output: &mut W,
) -> Result<bool, Stop>
    requires { lines.old.ahead ≡ [] }
    ensures { IfOk result
        (λ good. (octets : List ℕ) → IsUntaken lines.old octets
        → ((text : List ℕ)
        × IsTranscript S.carries session.old number (lines_of octets) text good session.new
        × Appends (W.contents output.old) (W.contents output.new)
        (string_bytes answers.old ++ text))) }
{
    match lines.take_last() {
        Some(line) => {
            let good = serve_line(alloc, session, line, lines.line(), number, answers, output)?;
            write_out(answers, output)?;
            Ok(good)
        }
        None => {
            write_out(answers, output)?;
            Ok(true)
        }
    }
}

/// Answers a line, and says whether it is good. Its octets stand in `octets`.
fn serve_line<S: Session, W: Write>(
    alloc: Global,
    session: &mut S,
    line: Line,
    octets: &[u8],
    number: u64,
    answers: &mut String,
    output: &mut W,
) -> Result<bool, Stop>
    ensures { IfOk result (λ good. (text : List ℕ)
        × AnswersLine S.carries session.old number (answered_line line octets.now) text good
        session.new
        × Moves (string_bytes answers.old ++ text)
        (W.contents output.old) (W.contents output.new) (string_bytes answers.new)) }
{
    let waiting = answers.len();
    let Ok(good) = answer_line(alloc, session, line, octets, number, answers) else {
        // What stands of this line's answer isn't written.
        let _ = output.write_all(answers.as_bytes().get(..waiting).unwrap_or(&[]));
        return Err(Stop::Write);
    };
    if answers.len() >= WAITING_LIMIT {
        write_out(answers, output)?;
    }
    Ok(good)
}

/// Writes the answers that wait, if any do.
fn write_out<W: Write>(answers: &mut String, output: &mut W) -> Result<(), Stop>
    ensures { OnOk result ((string_bytes answers.new ≡ [])
        × Appends (W.contents output.old) (W.contents output.new) (string_bytes answers.old)) }
{
    if answers.is_empty() {
        return Ok(());
    }
    match output.write_all(answers.as_bytes()) {
        Ok(()) => {
            answers.clear();
            Ok(())
        }
        Err(_) => Err(Stop::Write),
    }
}

/// Adds the answer to a line to the text, and says whether the line is good. An error says that memory was refused for
/// the text.
fn answer_line<S: Session>(
    alloc: Global,
    session: &mut S,
    line: Line,
    octets: &[u8],
    number: u64,
    answer: &mut String,
) -> Result<bool, AllocError>
    ensures { IfOk result (λ good. (text : List ℕ)
        × AnswersLine S.carries session.old number (answered_line line octets.now) text good
        session.new
        × (string_bytes answer.new ≡ string_bytes answer.old ++ text)) }
{
    match line {
        Line::Whole => answer_words(alloc, session, octets, number, answer),
        Line::Bad => answer_bad_line(number, answer),
    }
}

/// The same of a line that is within the limits.
fn answer_words<S: Session>(
    alloc: Global,
    session: &mut S,
    line: &[u8],
    number: u64,
    answer: &mut String,
) -> Result<bool, AllocError>
    ensures { IfOk result (λ good. (text : List ℕ)
        × AnswersLine S.carries session.old number (Some line.now) text good session.new
        × (string_bytes answer.new ≡ string_bytes answer.old ++ text)) }
{
    match read_command(alloc, line) {
        Ok(Some(command)) => {
            session.carry_out(command, answer)?;
            Ok(true)
        }
        Ok(None) => Ok(true),
        Err(TextError::Memory) => {
            answer.push_str("error Memory\n")?;
            Ok(true)
        }
        Err(TextError::BadText) => answer_bad_line(number, answer),
    }
}

/// Tells that a line is bad.
fn answer_bad_line(number: u64, answer: &mut String) -> Result<bool, AllocError>
    ensures { IfOk result (λ good. (good ≡ false)
        × (string_bytes answer.new ≡ string_bytes answer.old ++ bad_line number)) }
{
    writeln!(answer, "bad line {number}")?;
    Ok(false)
}
