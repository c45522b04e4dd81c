//! The answer to a question, taken message by message.
ghost use Rattle.std.specs.Prelude.{◌≡◌, [], IfErr, OnErr, OnOk, Ok};
ghost use Rattle.message_reading.specs.Messages.{message_of};
ghost use Rattle.transfer_reading.specs.Answers.{IsFault};
ghost use Rattle.transfer_reading.specs.Outcomes.{said, Says};
ghost use Rattle.transfer_reading.specs.Transfers.{took};
ghost use Rattle.transfer_reading.specs.declared.stage.Stage.TheVariants as stages;

use crate::answers::answers_of;
use crate::asked::Asked;
use crate::fault::{AnswerFault, OutcomeFault};
use crate::outcome::{Outcome, outcome_of};
use crate::stage::{Stage, behind_all};
use std::alloc::Global;
use std::marker::Model;
use zone_proto::Record;

/// The answer to a question, as far as it has come.
#[derive(Drop)]
pub struct Transfer {
    asked: Asked,
    stage: Stage,
    records: Vec<Record>,
}

impl Model for Transfer {
    ghost use Rattle.transfer_reading.specs.Transfers.{Course};

    ghost Value = { Course };

    ghost view = { λ t. record { asked = t.asked; stage = t.stage; records = t.records.items } };
}

impl Transfer {
    /// No message of the answer has come. Takes no memory.
    pub fn new(alloc: Global, asked: Asked) -> Transfer
        ensures { result ≡ record { asked = asked; stage = stages.Before; records = [] } }
    {
        Transfer {
            asked,
            stage: Stage::Before,
            records: Vec::new(alloc),
        }
    }

    /// How far the answer has come.
    pub fn stage(&self) -> Stage
        ensures { result ≡ self.now.stage }
    {
        self.stage
    }

    /// Takes the next message of the answer.
    ///
    /// # Errors
    ///
    /// The first of these, which leaves all as it was: `Malformed`, `NotTheAnswer`, `Code`, `OtherQuestion`, `NotAuthoritative` and `Truncated` for
    /// the message; and for its records in their order `OtherClass`, `Outside`, `NoSoa`, `OtherSerial` and `BehindEnd`. `Memory` may come in
    /// place of any.
    pub fn take(&mut self, alloc: Global, message: &[u8]) -> Result<(), AnswerFault>
        ensures ok { OnOk result (took self.old (message_of message.now) ≡ Ok self.new) }
        ensures err { IfErr result (λ e. IsFault e (took self.old (message_of message.now))) }
        ensures same { OnErr result (self.new ≡ self.old) }
    {
        let is_first = self.stage == Stage::Before;
        let mut answers = match answers_of(alloc, &self.asked, is_first, message) {
            Ok(answers) => answers,
            Err(fault) => return Err(fault),
        };
        let stage = match behind_all(&self.asked, self.stage, answers.as_slice()) {
            Ok(stage) => stage,
            Err(fault) => return Err(fault),
        };
        self.records.append(&mut answers)?;
        self.stage = stage;
        Ok(())
    }

    /// What the answer says, once it has come to its end: the records of the zone, or the serial that the primary has. Those that are held of the
    /// zone, each with its signatures, are only read; differences are applied to a copy of them.
    ///
    /// # Errors
    ///
    /// The first of these: `Incomplete` before the end of the answer; `NotThere` and `AlreadyThere` for the first record of the differences that
    /// doesn't fit what is held. `Memory` may come in place of any.
    pub fn finish(self, alloc: Global, held: &[Record]) -> Result<Outcome, OutcomeFault>
        ensures { Says result (said self held.now) }
    {
        let Transfer {
            asked,
            stage,
            records,
        } = self;
        outcome_of(alloc, &asked.origin, stage, records, held)
    }
}
