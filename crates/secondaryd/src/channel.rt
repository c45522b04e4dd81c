//! How a primary is spoken to: the question that went out, and its answer as far as it has come.
ghost use Rattle.std.specs.Prelude.{◌≡◌, IfOk, OnErr, OnOk};
ghost use Rattle.message_reading.specs.Messages.{message_of};
ghost use Rattle.signed_transfers.specs.SignedTransfers.{took_plain, took_signed};
ghost use Rattle.secondaryd.specs.Channels.{behind, channel_of, closed, is_open, opened, sent, whole, IsPlainStep, IsSignedStep, IsStep};

use crate::events::NoMemory;
use message_tsig::{FUDGE, Key, sign_request};
use signed_transfers::{SignedFault, SignedTransfer};
use std::alloc::Global;
use transfer_reading::{AnswerFault, Asked, Stage, Transfer, write_query};

/// How a primary is spoken to, with the answer that is waited for, if one is.
#[derive(Drop)]
pub enum Channel {
    /// Nothing is signed.
    Plain(Option<Transfer>),
    /// Questions are signed with a key, and their answers are checked under it (RFC 8945).
    Signed(Key, Option<SignedTransfer>),
}

/// What a message is that comes.
#[derive(Drop)]
pub enum Step {
    /// None that is waited for.
    Unasked,
    /// One of the answer, which has come so far behind it.
    Reached(Stage),
    /// None of the answer.
    Wrong(SignedFault),
}

impl Channel {
    /// A channel on which no answer is waited for.
    pub fn new(key: Option<Key>) -> Channel
        ensures { result ≡ channel_of key }
    {
        match key {
            None => Channel::Plain(None),
            Some(key) => Channel::Signed(key, None),
        }
    }

    /// Whether an answer is waited for.
    pub fn is_open(&self) -> bool
        ensures { result ≡ is_open self.now }
    {
        match self {
            Channel::Plain(answer) => answer.is_some(),
            Channel::Signed(_, answer) => answer.is_some(),
        }
    }

    /// The octets of a question, at a moment in seconds since 1970; its answer is waited for from then on. Refused for want of memory alone.
    pub fn ask(&mut self, alloc: Global, asked: Asked, now: u64) -> Result<Vec<u8>, NoMemory>
        ensures octets { IfOk result (λ octets. octets.items ≡ sent self.old asked now) }
        ensures opened { OnOk result (self.new ≡ opened self.old asked now) }
        ensures same { OnErr result (self.new ≡ self.old) }
    {
        let query = write_query(alloc, &asked)?;
        match self {
            Channel::Plain(answer) => {
                *answer = Some(Transfer::new(alloc, asked));
                Ok(query)
            }
            Channel::Signed(key, answer) => {
                let signed = sign_request(alloc, key, now, FUDGE, query.as_slice())?;
                let transfer = SignedTransfer::new(alloc, asked, signed.mac.as_slice())?;
                *answer = Some(transfer);
                Ok(signed.message)
            }
        }
    }

    /// Takes the next message, at a moment in seconds since 1970. Behind one that is none of the answer this isn't to be waited for any more.
    #[tactic(auto, using(crate::proofs::ChannelFacts::plain_step, crate::proofs::ChannelFacts::signed_step))]
    pub fn take(&mut self, alloc: Global, message: &[u8], now: u64) -> Step
        ensures step { IsStep result self.old (behind self.old now message.now) self.new }
        ensures closed { closed self.new ≡ closed self.old }
    {
        match self {
            Channel::Plain(answer) => match answer {
                Some(transfer) => take_plain(alloc, transfer, message),
                None => Step::Unasked,
            },
            Channel::Signed(key, answer) => match answer {
                Some(transfer) => take_signed(alloc, key, transfer, message, now),
                None => Step::Unasked,
            },
        }
    }

    /// The answer, which isn't waited for any more. None where none was, and where its question is signed and its last message isn't.
    pub fn close(&mut self) -> Option<Transfer>
        ensures whole { result ≡ whole self.old }
        ensures closed { self.new ≡ closed self.old }
    {
        match self {
            Channel::Plain(answer) => answer.take(),
            Channel::Signed(_, answer) => answer.take()?.into_transfer(),
        }
    }
}

/// Takes the next message of the answer to a question that isn't signed.
fn take_plain(alloc: Global, transfer: &mut Transfer, message: &[u8]) -> Step
    ensures { IsPlainStep result (took_plain transfer.old (message_of message.now)) transfer.new }
{
    match transfer.take(alloc, message) {
        Ok(()) => Step::Reached(transfer.stage()),
        Err(AnswerFault::Memory) => Step::Wrong(SignedFault::Memory),
        Err(fault) => Step::Wrong(SignedFault::Answer(fault)),
    }
}

/// Takes the next message of the answer to a signed question.
fn take_signed(
    alloc: Global,
    key: &Key,
    transfer: &mut SignedTransfer,
    message: &[u8],
    now: u64,
) -> Step
    ensures { IsSignedStep result (took_signed key.now now transfer.old message.now) transfer.new }
{
    match transfer.take(alloc, key, now, message) {
        Ok(()) => Step::Reached(transfer.stage()),
        Err(fault) => Step::Wrong(fault),
    }
}
