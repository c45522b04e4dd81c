//! Rows: questions and messages, and the responses that are wanted.

use crate::questions::{say, say_at_last};
use crate::zones::{Zone, add, ask, read_policy, read_zone, secure, serve, take_denials};
use line_text::Words;
use std::alloc::Global;
use zone_server::TransferPolicy;

/// What has been read of a file.
#[derive(Drop)]
struct Reader<'t> {
    /// The zones of the server.
    zones: Vec<Zone>,
    /// Who may transfer them.
    policies: Vec<TransferPolicy>,
    /// The line of the messages that are to be answered.
    asked: Option<&'t str>,
    /// The responses that are wanted.
    wanted: String,
    /// How many rows there were.
    rows: usize,
    /// How many of them were answered otherwise.
    wrong: usize,
    /// A line for each of these, and what came.
    faults: String,
}

/// Tries the rows of a file. The report counts them, and has lines for each that is answered otherwise.
pub fn report(alloc: Global, text: &str) -> anyhow::Result<String> {
    let mut reader = Reader {
        zones: Vec::new(alloc),
        policies: Vec::new(alloc),
        asked: None,
        wanted: String::new(alloc),
        rows: 0,
        wrong: 0,
        faults: String::new(alloc),
    };
    for line in text.lines() {
        take_line(alloc, &mut reader, line)?;
    }
    judge(alloc, &mut reader)?;
    Ok(format!(in alloc;
        "{} rows, {} wrong{}",
        reader.rows, reader.wrong, reader.faults
    )?)
}

/// Takes a line. One that is none of a response ends the responses that are wanted.
fn take_line<'t>(alloc: Global, reader: &mut Reader<'t>, line: &'t str) -> anyhow::Result<()> {
    if is_response(line) {
        reader.wanted.push_str(line)?;
        reader.wanted.push_str("\n")?;
        return Ok(());
    }
    judge(alloc, reader)?;
    if is_asked(line) {
        reader.asked = Some(line);
    } else if let Some(words) = line.strip_prefix("> ") {
        add(alloc, &mut reader.zones, &mut Words::new(words.as_bytes()))?;
    } else if let Some(words) = line.strip_prefix("$ zone ") {
        let zone = read_zone(alloc, &mut Words::new(words.as_bytes()))?;
        reader.zones.push(zone)?;
    } else if let Some(word) = line.strip_prefix("$ policy ") {
        reader.policies.push(read_policy(word)?)?;
    } else if line == "$ secure" {
        secure(&mut reader.zones)?;
    } else if line == "$ denials" {
        take_denials(&mut reader.zones)?;
    } else if line == "$ server" {
        reader.zones.clear();
        reader.policies.clear();
    }
    Ok(())
}

/// Whether a line asks for a response.
fn is_asked(line: &str) -> bool {
    line.starts_with("= ")
        || line.starts_with("% ")
        || line.starts_with("? ")
        || line.starts_with("< ")
}

/// Whether a line is one of a response.
fn is_response(line: &str) -> bool {
    !line.is_empty()
        && !line.starts_with("#")
        && !line.starts_with("=")
        && !line.starts_with("%")
        && !line.starts_with("?")
        && !line.starts_with("<")
        && !line.starts_with(">")
        && !line.starts_with("$")
}

/// Hands over the messages that wait, and notes a fault where they are answered otherwise than it is wanted.
fn judge(alloc: Global, reader: &mut Reader<'_>) -> anyhow::Result<()> {
    if let Some(asked) = reader.asked.take() {
        let (zones, policies) = (reader.zones.as_slice(), reader.policies.as_slice());
        let came = came_of(alloc, zones, policies, asked)?;
        reader.rows = reader.rows.saturating_add(1);
        if came != reader.wanted {
            reader.wrong = reader.wrong.saturating_add(1);
            write!(reader.faults, "\n  WRONG {asked}: there came\n{came}")?;
        }
    }
    reader.wanted.clear();
    Ok(())
}

/// What came in answer to a line.
fn came_of(
    alloc: Global,
    zones: &[Zone],
    policies: &[TransferPolicy],
    asked: &str,
) -> anyhow::Result<String> {
    if let Some(words) = asked.strip_prefix("= ") {
        return say(alloc, zones, &mut Words::new(words.as_bytes()));
    }
    if let Some(words) = asked.strip_prefix("% ") {
        return say_at_last(alloc, zones, &mut Words::new(words.as_bytes()));
    }
    match asked.strip_prefix("< ") {
        Some(words) => serve(alloc, zones, policies, words),
        None => ask(alloc, zones, asked.strip_prefix("? ").unwrap_or(asked)),
    }
}
