//! The answer to a signed question (RFC 8945 sections 5.3.1 and 5.4).
ghost use Rattle.std.specs.Prelude.{◌≡◌, [], if◌then◌else◌, IfErr, IfOk, OnErr, OnOk, Ok, Some, None};
ghost use Rattle.message_reading.specs.Messages.{message_of};
ghost use Rattle.message_tsig.specs.Checkings.{is_complete};
ghost use Rattle.message_tsig.specs.Signing.{of_request};
ghost use Rattle.signed_transfers.specs.SignedTransfers.{took_plain, took_signed, IsFault};
ghost use Rattle.transfer_reading.specs.declared.stage.Stage.TheVariants as stages;

use crate::fault::SignedFault;
use message_tsig::{CheckedResponse, Key, ResponseChecker};
use std::alloc::{AllocError, Global};
use std::marker::Model;
use transfer_reading::{AnswerFault, Asked, Stage, Transfer};

/// The answer to a signed question, as far as it has come.
#[derive(Drop)]
pub struct SignedTransfer {
    transfer: Transfer,
    checker: ResponseChecker,
}

impl Model for SignedTransfer {
    ghost use Rattle.signed_transfers.specs.SignedTransfers.{SignedCourse};

    ghost Value = { SignedCourse };

    ghost view = { λ s. record { course = s.transfer; checking = s.checker } };
}

impl SignedTransfer {
    /// No message of the answer has come. The MAC is that of the question, which `sign_request` of `message_tsig` gives. Refused for want of
    /// memory alone.
    pub fn new(
        alloc: Global,
        asked: Asked,
        request_mac: &[u8],
    ) -> Result<SignedTransfer, AllocError>
        ensures { IfOk result (λ s. s ≡ record {
          course = record { asked = asked; stage = stages.Before; records = [] };
          checking = record { prior = of_request request_mac.now; since = []; count = 0 };
        }) }
    {
        Ok(SignedTransfer {
            transfer: Transfer::new(alloc, asked),
            checker: ResponseChecker::new(alloc, request_mac)?,
        })
    }

    /// How far the answer has come.
    pub fn stage(&self) -> Stage
        ensures { result ≡ self.now.course.stage }
    {
        self.transfer.stage()
    }

    /// Takes the next message of the answer, under the key of the question, at a moment in seconds since 1970. The first message is signed, and
    /// at most 99 in a row are without a TSIG (RFC 8945 section 5.3.1).
    ///
    /// # Errors
    ///
    /// `Refused` and `Wrong` for the TSIG, and `Answer` with the faults of [`Transfer::take`]. What came before is as it was; the answer isn't to
    /// be gone on with.
    pub fn take(
        &mut self,
        alloc: Global,
        key: &Key,
        now: u64,
        message: &[u8],
    ) -> Result<(), SignedFault>
        ensures ok { OnOk result (took_signed key.now now self.old message.now ≡ Ok self.new) }
        ensures err { IfErr result
            (λ e. IsFault e (took_signed key.now now self.old message.now)) }
        ensures same { OnErr result (self.new.course ≡ self.old.course) }
    {
        match self.checker.check(alloc, key, now, message)? {
            CheckedResponse::Signed(_, rest) => self.take_plain(alloc, rest.as_slice()),
            CheckedResponse::Unsigned => self.take_plain(alloc, message),
            CheckedResponse::Refused(tsig) | CheckedResponse::RefusedUnsigned(tsig) => {
                Err(SignedFault::Refused(tsig.error))
            }
            CheckedResponse::Wrong(fault) => Err(SignedFault::Wrong(fault)),
        }
    }

    /// Takes the next message of the answer, without its TSIG.
    fn take_plain(&mut self, alloc: Global, message: &[u8]) -> Result<(), SignedFault>
        ensures ok { OnOk result (took_plain self.old.course (message_of message.now)
            ≡ Ok self.new.course) }
        ensures err { IfErr result
            (λ e. IsFault e (took_plain self.old.course (message_of message.now))) }
        ensures same { OnErr result (self.new.course ≡ self.old.course) }
        ensures checking { self.new.checking ≡ self.old.checking }
    {
        match self.transfer.take(alloc, message) {
            Ok(()) => Ok(()),
            Err(AnswerFault::Memory) => Err(SignedFault::Memory),
            Err(fault) => Err(SignedFault::Answer(fault)),
        }
    }

    /// The answer, if its last message was signed; one that ends otherwise isn't to be relied on.
    pub fn into_transfer(self) -> Option<Transfer>
        ensures { result ≡ (if is_complete self.checking then Some self.course else None) }
    {
        let SignedTransfer { transfer, checker } = self;
        if checker.is_complete() {
            Some(transfer)
        } else {
            None
        }
    }
}
