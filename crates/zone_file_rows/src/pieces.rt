//! An input that gives its text piece by piece.

use std::io;
use std::io::Read;

/// A text of which a read gives so many octets at most. Each second read is interrupted, and behind the text it ends or fails.
#[derive(Drop)]
pub struct Pieces<'t> {
    pub text: &'t [u8],
    pub length: usize,
    pub fails: bool,
    pub is_next: bool,
}

impl Read for Pieces<'_> {
    fn read(&mut self, buf: &mut [u8]) -> io::Result<usize> {
        self.is_next = !self.is_next;
        if self.is_next {
            return Err(io::Error::from(io::ErrorKind::Interrupted));
        }
        if self.fails && self.text.is_empty() {
            return Err(io::Error::from(io::ErrorKind::BrokenPipe));
        }
        let count = self.text.len().min(buf.len()).min(self.length);
        let (now, later) = self.text.split_at(count);
        buf[..count].copy_from_slice(now);
        self.text = later;
        Ok(count)
    }
}
