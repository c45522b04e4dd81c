//! A session with the program, as a file writes it.

use crate::marks;
use std::alloc::{AllocError, Global};

/// Why a part of a file is no transcript.
#[derive(Drop)]
pub enum Unreadable {
    /// This line of it can't be read, counted from 1.
    Line(usize),
    Memory,
}

impl From<AllocError> for Unreadable {
    fn from(_error: AllocError) -> Unreadable {
        Unreadable::Memory
    }
}

/// How many octets there are up to the line feed of a line: of the input, and of what is written by then.
#[derive(Clone, Copy)]
pub struct LineEnd {
    pub read: usize,
    pub written: usize,
}

/// What the program is given, what it has to write, and how it has to end.
#[derive(Drop)]
pub struct Transcript {
    pub args: Vec<String>,
    pub input: Vec<u8>,
    pub output: Vec<u8>,
    pub line_ends: Vec<LineEnd>,
    pub status: u8,
    pub fault: Vec<u8>,
    /// Whether it is also run with memory refused to each of its lines.
    pub is_refused_memory: bool,
    lacks_last_line_feed: bool,
}

impl Transcript {
    /// Reads a transcript from the lines that follow its name.
    pub fn read(alloc: Global, text: &str) -> Result<Transcript, Unreadable> {
        let mut transcript = Transcript {
            args: Vec::new(alloc),
            input: Vec::new(alloc),
            output: Vec::new(alloc),
            line_ends: Vec::new(alloc),
            status: 0,
            fault: Vec::new(alloc),
            is_refused_memory: false,
            lacks_last_line_feed: false,
        };
        for (i, line) in text.lines().enumerate() {
            if !transcript.read_line(alloc, line)? {
                return Err(Unreadable::Line(i.saturating_add(1)));
            }
        }
        if transcript.lacks_last_line_feed {
            transcript.input.pop();
            transcript.line_ends.pop();
        }
        Ok(transcript)
    }

    /// Reads a line, and answers whether it can be in a transcript.
    fn read_line(&mut self, alloc: Global, line: &str) -> Result<bool, AllocError> {
        if line.is_empty() || line.starts_with("#") {
            return Ok(true);
        }
        if let Some(words) = line.strip_prefix("$ zonectl") {
            return self.read_args(alloc, words);
        }
        if let Some(ending) = line.strip_prefix("! ") {
            return self.read_ending(ending);
        }
        if let Some(input) = line.strip_prefix("%> ") {
            return self.read_marked(alloc, input);
        }
        if line == ">" {
            self.add_input(b"")?;
        } else if let Some(input) = line.strip_prefix("> ") {
            self.add_input(input.as_bytes())?;
        } else {
            self.add_output(line.as_bytes())?;
        }
        Ok(true)
    }

    fn read_args(&mut self, alloc: Global, words: &str) -> Result<bool, AllocError> {
        for word in words.split_ascii_whitespace() {
            let Some(octets) = marks::read(alloc, word)? else {
                return Ok(false);
            };
            let Ok(text) = String::from_utf8(octets) else {
                return Ok(false);
            };
            self.args.push(text)?;
        }
        Ok(true)
    }

    fn read_ending(&mut self, ending: &str) -> Result<bool, AllocError> {
        if let Some(fault) = ending.strip_prefix("standard error: ") {
            self.fault.extend_from_slice(fault.as_bytes())?;
            self.fault.push(b'\n')?;
            return Ok(true);
        }
        if ending == "no last line feed" {
            self.lacks_last_line_feed = true;
            return Ok(true);
        }
        if ending == "memory is refused to each line" {
            self.is_refused_memory = true;
            return Ok(true);
        }
        match ending.strip_prefix("status ") {
            Some("1") => self.status = 1,
            Some("2") => self.status = 2,
            _ => return Ok(false),
        }
        Ok(true)
    }

    fn read_marked(&mut self, alloc: Global, text: &str) -> Result<bool, AllocError> {
        match marks::read(alloc, text)? {
            Some(octets) => {
                self.add_input(octets.as_slice())?;
                Ok(true)
            }
            None => Ok(false),
        }
    }

    /// Adds a line of the input.
    fn add_input(&mut self, line: &[u8]) -> Result<(), AllocError> {
        self.input.extend_from_slice(line)?;
        self.input.push(b'\n')?;
        self.line_ends.push(LineEnd {
            read: self.input.len(),
            written: self.output.len(),
        })?;
        Ok(())
    }

    /// Adds a line of the output, which the last line of the input has to bring.
    fn add_output(&mut self, line: &[u8]) -> Result<(), AllocError> {
        self.output.extend_from_slice(line)?;
        self.output.push(b'\n')?;
        if let Some(end) = self.line_ends.last_mut() {
            end.written = self.output.len();
        }
        Ok(())
    }
}
