//! A reader and a writer in memory that fail when they are told to.

use std::alloc::{AllocError, Global};
use std::io;
use std::io::{Read, Write};

/// How much of its text a feed gives at a read.
#[derive(Clone, Copy)]
pub enum Portion {
    /// At most so many octets.
    Octets(usize),
    /// One line, with its line feed.
    Line,
}

impl Portion {
    /// How many octets of a text it has at most.
    fn length(self, text: &[u8]) -> usize {
        match self {
            Portion::Octets(most) => most,
            Portion::Line => match text.iter().position(|octet| *octet == b'\n') {
                Some(end) => end + 1,
                None => text.len(),
            },
        }
    }
}

/// Gives its text, a portion a read, and then ends or fails. It counts its reads.
#[derive(Drop)]
pub struct Feed<'a> {
    pub text: &'a [u8],
    pub portion: Portion,
    pub fails: bool,
    pub reads: usize,
}

impl Read for Feed<'_> {
    fn read(&mut self, buf: &mut [u8]) -> io::Result<usize> {
        self.reads = self.reads.saturating_add(1);
        if self.fails && self.text.is_empty() {
            return Err(io::Error::from(io::ErrorKind::BrokenPipe));
        }
        let portion = self.portion.length(self.text);
        let count = self.text.len().min(buf.len()).min(portion);
        let (now, later) = self.text.split_at(count);
        buf[..count].copy_from_slice(now);
        self.text = later;
        Ok(count)
    }
}

/// Keeps what is written, and fails the write after `good_writes` ones. What is written after that one is kept too, so that
/// it shows. It counts the writes that don't fail.
#[derive(Drop)]
pub struct Capture {
    pub got: Vec<u8>,
    pub writes: usize,
    pub failed: bool,
    good_writes: usize,
}

impl Capture {
    pub fn new(alloc: Global, good_writes: usize) -> Capture {
        Capture {
            got: Vec::new(alloc),
            writes: 0,
            failed: false,
            good_writes,
        }
    }

    /// Fails no write, and has room for so many octets from the start.
    pub fn with_room(alloc: Global, room: usize) -> Result<Capture, AllocError> {
        let mut capture = Capture::new(alloc, usize::MAX);
        capture.got = Vec::with_capacity(alloc, room)?;
        Ok(capture)
    }
}

impl Write for Capture {
    fn write(&mut self, buf: &[u8]) -> io::Result<usize> {
        if self.writes == self.good_writes && !self.failed {
            self.failed = true;
            return Err(io::Error::from(io::ErrorKind::BrokenPipe));
        }
        self.writes = self.writes.saturating_add(1);
        self.got.extend_from_slice(buf)?;
        Ok(buf.len())
    }

    fn flush(&mut self) -> io::Result<()> {
        Ok(())
    }
}
