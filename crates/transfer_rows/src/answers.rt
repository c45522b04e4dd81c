//! Questions of secondaries, written, and the answers of primaries, taken.

use line_text::{HexText, RecordText, TextError, Words, read_hex, read_name};
use std::alloc::Global;
use transfer_reading::{
    AnswerFault, Asked, Outcome, OutcomeFault, Question, Stage, Transfer, write_query,
};
use zone_proto::Record;

/// A question, as it was sent.
fn read_asked(alloc: Global, words: &mut Words<'_>) -> Result<Asked, TextError> {
    let id = words.take_u16()?;
    let origin = read_name(alloc, words)?;
    let question = match words.take_needed()? {
        b"soa" => Question::Soa,
        b"changes" => Question::Changes(words.take_u32()?),
        b"zone" => Question::Zone,
        _ => return Err(TextError::BadText),
    };
    Ok(Asked {
        id,
        origin,
        question,
    })
}

/// A question, written.
pub fn query_told(alloc: Global, mut words: Words<'_>) -> Result<String, TextError> {
    let asked = read_asked(alloc, &mut words)?;
    words.end()?;
    let octets = write_query(alloc, &asked)?;
    Ok(format!(in alloc; "{}", HexText(octets.as_slice()))?)
}

/// How far an answer comes with its messages, and what it says.
pub fn answer_told(
    alloc: Global,
    held: &[Record],
    mut words: Words<'_>,
) -> Result<String, TextError> {
    let asked = read_asked(alloc, &mut words)?;
    let mut transfer = Transfer::new(alloc, asked);
    let mut told = String::new(alloc);
    for _ in 0..u64::MAX {
        let Some(word) = words.take() else {
            break;
        };
        let Some(message) = read_hex(alloc, word)? else {
            return Err(TextError::BadText);
        };
        match transfer.take(alloc, message.as_slice()) {
            Ok(()) => tell_stage(&mut told, transfer.stage())?,
            Err(AnswerFault::Memory) => return Err(TextError::Memory),
            Err(fault) => {
                write!(told, "{fault}")?;
                return Ok(told);
            }
        }
    }
    tell_outcome(&mut told, transfer.finish(alloc, held))?;
    Ok(told)
}

/// Tells how far an answer has come.
fn tell_stage(told: &mut String, stage: Stage) -> Result<(), TextError> {
    match stage {
        Stage::Before => write!(told, "before, ")?,
        Stage::Begun(newest) => write!(told, "begun {newest}, ")?,
        Stage::InZone(newest) => write!(told, "in zone {newest}, ")?,
        Stage::TakingOut(newest) => write!(told, "taking out {newest}, ")?,
        Stage::Giving(newest, reached) => write!(told, "giving {newest} {reached}, ")?,
        Stage::WholeZone => write!(told, "whole zone, ")?,
        Stage::AllDifferences => write!(told, "all differences, ")?,
        Stage::SerialAlone(serial) => write!(told, "serial {serial}, ")?,
    }
    Ok(())
}

/// Tells what an answer says.
fn tell_outcome(
    told: &mut String,
    outcome: Result<Outcome, OutcomeFault>,
) -> Result<(), TextError> {
    match outcome {
        Ok(Outcome::Zone(records)) => {
            for given in records.iter() {
                write!(told, "{}; ", RecordText(given))?;
            }
        }
        Ok(Outcome::Serial(serial)) => write!(told, "{serial}")?,
        Err(OutcomeFault::Memory) => return Err(TextError::Memory),
        Err(fault) => write!(told, "{fault}")?,
    }
    Ok(())
}
