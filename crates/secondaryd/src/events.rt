//! What comes of what happened.

use signed_transfers::SignedFault;
use std::alloc::AllocError;
use transferred_zones::TakeFault;
use zone_proto::ProtoError;
use zone_secondary::Poll;

/// No memory was found.
#[derive(Clone, Copy, PartialEq, Eq, Debug)]
pub struct NoMemory;

impl From<AllocError> for NoMemory {
    fn from(_: AllocError) -> NoMemory {
        NoMemory
    }
}

impl From<ProtoError> for NoMemory {
    fn from(_: ProtoError) -> NoMemory {
        NoMemory
    }
}

/// What comes of a message.
#[derive(Drop)]
pub enum Progress {
    /// Nothing was asked.
    Unasked,
    /// More of the answer is to come.
    More,
    /// The zone was taken.
    Taken,
    /// The primary has the version of this serial, which says that of the one that is held.
    Serial(u32, Poll),
    /// The message isn't taken as one of the answer.
    Wrong(SignedFault),
    /// The question is signed, and the last message of its answer isn't.
    Unsigned,
    /// Nothing is taken of the answer.
    NotTaken(TakeFault),
}
