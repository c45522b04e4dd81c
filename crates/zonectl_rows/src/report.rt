//! What is reported about each transcript, and of all of them.

use crate::transcript::{Transcript, Unreadable};
use crate::trial::try_all;
use std::alloc::{AllocError, Global};
use std::fmt;

/// How many transcripts there were so far, and the names of those that are to differ still.
#[derive(Drop)]
pub struct Report<'p> {
    pending: &'p str,
    good: usize,
    still_pending: usize,
    wrong: usize,
}

impl<'p> Report<'p> {
    /// A report of no transcript; `pending` has a name, a comment or nothing in each line.
    pub fn new(pending: &'p str) -> Report<'p> {
        Report {
            pending,
            good: 0,
            still_pending: 0,
            wrong: 0,
        }
    }

    /// Runs a transcript, whose name is the first line of its text, and answers the line that tells of it.
    pub fn line(&mut self, alloc: Global, text: &str) -> Result<String, AllocError> {
        let (name, lines) = text.split_once("\n").unwrap_or((text, ""));
        let told = told_of(alloc, lines)?;
        if self.is_pending(name) {
            self.pending_line(alloc, name, told.is_some())
        } else {
            self.due_line(alloc, name, told)
        }
    }

    /// Whether a transcript is to differ still.
    fn is_pending(&self, name: &str) -> bool {
        self.pending.lines().any(|line| line == name)
    }

    /// Counts a transcript that is to differ still, and tells of it.
    fn pending_line(
        &mut self,
        alloc: Global,
        name: &str,
        differs: bool,
    ) -> Result<String, AllocError> {
        if differs {
            self.still_pending = self.still_pending.saturating_add(1);
            return format!(in alloc; "pending {name}");
        }
        self.wrong = self.wrong.saturating_add(1);
        format!(in alloc; "WRONG {name}: it is right, and stands among the pending ones")
    }

    /// Counts a transcript that is to be right, and tells of it.
    fn due_line(
        &mut self,
        alloc: Global,
        name: &str,
        told: Option<String>,
    ) -> Result<String, AllocError> {
        match told {
            None => {
                self.good = self.good.saturating_add(1);
                format!(in alloc; "ok {name}")
            }
            Some(told) => {
                self.wrong = self.wrong.saturating_add(1);
                format!(in alloc; "WRONG {name}: {told}")
            }
        }
    }

    /// How many transcripts are to differ still.
    fn named_pending(&self) -> usize {
        let is_name = |line: &&str| !line.is_empty() && !line.starts_with("#");
        self.pending.lines().filter(is_name).count()
    }
}

impl fmt::Display for Report<'_> {
    fn fmt<W: fmt::Write>(&self, f: &mut fmt::Formatter<W>) -> fmt::Result {
        let Report {
            good,
            still_pending,
            wrong,
            ..
        } = self;
        let named = self.named_pending();
        write!(
            f,
            "{good} right, {still_pending} of {named} pending, {wrong} wrong"
        )
    }
}

/// What differs first in a transcript, if anything does.
fn told_of(alloc: Global, lines: &str) -> Result<Option<String>, AllocError> {
    match Transcript::read(alloc, lines) {
        Ok(transcript) => try_all(alloc, &transcript),
        Err(Unreadable::Line(line)) => {
            Ok(Some(format!(in alloc; "line {line} below its name can't be read")?))
        }
        Err(Unreadable::Memory) => Err(AllocError),
    }
}
