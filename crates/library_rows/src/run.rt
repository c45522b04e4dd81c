//! Runs of a row: as it is, with no memory left, and with ever more.

use crate::state::State;
use alloc_failures::Scarcity;
use library_rows_arguments::{Arguments, read_call};
use library_rows_values::Answer;
use line_text::TextError;
use std::alloc::{AllocError, Global};

/// How many rooms are tried before a call has to succeed.
const ATTEMPTS: usize = 800;

/// How many octets more each room has.
const STEP: usize = 16;

/// Octets: the room in which a call is read.
const READING: usize = 60_000;

/// Octets: the room for an answer, and for the text of all that a call could change.
const WRITING: usize = 1 << 20;

/// What an answer says where memory was refused.
const REFUSED: &str = "error: out of memory";

/// Makes the calls of rows, refuses memory to them, and has the answer to the last one.
#[derive(Drop)]
pub struct Runner {
    pub alloc: Global,
    scarcity: Scarcity,
    answer: Answer,
    before: Answer,
    after: Answer,
}

impl Runner {
    /// Nothing has been answered yet. The texts get their room.
    pub fn new(alloc: Global) -> Result<Runner, AllocError> {
        let answer = Answer::new(alloc, WRITING)?;
        let before = Answer::new(alloc, WRITING)?;
        let after = Answer::new(alloc, WRITING)?;
        Ok(Runner {
            alloc,
            scarcity: Scarcity::new(alloc)?,
            answer,
            before,
            after,
        })
    }

    /// The answer to the last row.
    pub fn answer(&self) -> &str {
        self.answer.text()
    }

    /// Makes the call of a row, and says whether there was room for its answer.
    pub fn run(&mut self, state: &mut State, row: &str) -> Result<(), TextError> {
        self.run_as_told(state, row)?;
        Ok(self.answer.end()?)
    }

    /// Makes the call of a row in the memory that the row gives it.
    fn run_as_told(&mut self, state: &mut State, row: &str) -> Result<(), TextError> {
        if let Some(call) = row.strip_prefix("without memory: ") {
            return self.run_without_memory(state, call);
        }
        match split_refusals(row) {
            Some((least, call)) => self.run_in_ever_more_memory(state, call, least),
            None => self.make(state, row, None),
        }
    }

    /// Makes a call where every growth is refused.
    fn run_without_memory(&mut self, state: &mut State, call: &str) -> Result<(), TextError> {
        self.scarcity.begin(1)?;
        self.scarcity.leave(READING);
        let made = self.make(state, call, Some(0));
        self.scarcity.end();
        made
    }

    /// Makes a call with no room for growths, then with more room each time, until memory is no longer refused to it. This is
    /// the one loop for every call.
    fn run_in_ever_more_memory(
        &mut self,
        state: &mut State,
        call: &str,
        least: usize,
    ) -> Result<(), TextError> {
        self.before.clear();
        state.write(&mut self.before);
        self.scarcity.begin(2 * ATTEMPTS)?;
        let tried = self.try_rooms(state, call);
        self.scarcity.end();
        let refused = tried?;
        if refused < least {
            self.answer.say(" after ");
            self.answer.put(&refused);
            self.answer.say(" refusals");
        }
        Ok(())
    }

    /// Makes a call in ever more room: how often memory was refused to it.
    fn try_rooms(&mut self, state: &mut State, call: &str) -> Result<usize, TextError> {
        for refused in 0..ATTEMPTS {
            self.scarcity.leave(READING);
            self.make(state, call, Some(refused.saturating_mul(STEP)))?;
            if self.answer.text() != REFUSED {
                return Ok(refused);
            }
            if self.changes(state)? {
                self.answer.say(", and something is changed");
                return Ok(refused);
            }
        }
        Err(TextError::BadText)
    }

    /// Whether something isn't as it was before the call.
    fn changes(&mut self, state: &State) -> Result<bool, AllocError> {
        self.after.clear();
        state.write(&mut self.after);
        self.before.end()?;
        self.after.end()?;
        Ok(self.after.text() != self.before.text())
    }

    /// Reads a call, and makes it; in a room, while the process has no more free memory than that.
    fn make(&mut self, state: &mut State, row: &str, room: Option<usize>) -> Result<(), TextError> {
        let mut arguments = Arguments::new(self.alloc);
        let made = self.make_with(state, &mut arguments, row, room);
        drop(arguments);
        made
    }

    fn make_with<'r>(
        &mut self,
        state: &mut State,
        arguments: &mut Arguments<'r>,
        row: &'r str,
        room: Option<usize>,
    ) -> Result<(), TextError> {
        let call = read_call(&state.held, arguments, row)?;
        self.answer.clear();
        if let Some(room) = room {
            self.scarcity.leave(room);
        }
        state.make(&mut self.answer, call, arguments);
        Ok(())
    }
}

/// Splits `after N refusals: CALL`.
fn split_refusals(row: &str) -> Option<(usize, &str)> {
    let (least, call) = row.strip_prefix("after ")?.split_once(" refusals: ")?;
    Some((least.parse::<usize>().ok()?, call))
}
