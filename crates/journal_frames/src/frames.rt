//! The frames of a journal.
ghost use Rattle.std.specs.Prelude.{◌≡◌, ◌+◌, ◌*◌, ◌^◌, ◌<◌, ◌≤◌, ◌++◌, length, take, option_map, OnOk, OnErr};
ghost use Rattle.journal_frames.specs.Frames.{checksum, frame_at, framed, message_of, number_octets};
ghost use Rattle.journal_frames.specs.Journals.{whole};

use sha2::{Digest, Sha256};
use std::alloc::AllocError;

/// How many octets a checksum has.
const CHECKSUM: usize = 32;

/// How many octets stand before a message: its length and its checksum.
const HEAD: usize = 4 + CHECKSUM;

/// The message of the frame that octets begin with, and what stands behind that frame; none where they begin with no whole frame: the
/// octets end before it does, or its checksum isn't that of its message.
pub fn next_frame(octets: &[u8]) -> Option<(&[u8], &[u8])>
    ensures { option_map (λ x. (x.0.now, x.1.now)) result ≡ frame_at octets.now }
{
    match octets {
        [a, b, c, d, behind @ ..] => {
            let count = usize::from(*a) * 0x100_0000
                + usize::from(*b) * 0x1_0000
                + usize::from(*c) * 0x100
                + usize::from(*d);
            message_of(count, behind)
        }
        _ => None,
    }
}

/// The message of so many octets behind its checksum, and what stands behind it.
fn message_of(count: usize, octets: &[u8]) -> Option<(&[u8], &[u8])>
    ensures { option_map (λ x. (x.0.now, x.1.now)) result ≡ message_of count octets.now }
{
    if octets.len() < CHECKSUM || octets.len() - CHECKSUM < count {
        return None;
    }
    let (sum, behind) = octets.split_at(CHECKSUM);
    let (message, behind) = behind.split_at(count);
    let computed = checksum(message);
    if sum == computed.as_slice() {
        Some((message, behind))
    } else {
        None
    }
}

/// The checksum of a message: its digest by SHA-256 (FIPS 180-4).
#[tactic(auto, unfolding(crate::specs::Frames::checksum))]
fn checksum(message: &[u8]) -> [u8; CHECKSUM]
    ensures { result ≡ checksum message.now }
{
    Sha256::digest(message)
}

/// How many octets the whole frames of a journal take. What stands behind them was written in part or wrongly: it is to be cut off
/// before the next frame is put there.
pub fn whole_length(octets: &[u8]) -> usize
    ensures front { take result octets.now ≡ whole octets.now }
    ensures inside { result ≤ length octets.now }
{
    let mut rest = octets;
    let mut at = 0usize;
    'frames: loop {
        match next_frame(rest) {
            None => return at,
            Some((message, behind)) => {
                at = at + HEAD + message.len();
                rest = behind;
            }
        }
    }
}

/// Puts the frame of a message, of fewer than 2^32 octets, behind a journal. Refused for want of memory alone, which leaves the journal
/// as it was.
pub fn push_frame(journal: &mut Vec<u8>, message: &[u8]) -> Result<(), AllocError>
    requires { length message.now < 2 ^ 32 }
    ensures ok { OnOk result (journal.new.items ≡ journal.old.items ++ framed message.now) }
    ensures same { OnErr result (journal.new.items ≡ journal.old.items) }
{
    let before = journal.len();
    let pushed = push_parts(journal, message);
    if pushed.is_err() {
        journal.truncate(before);
    }
    pushed
}

fn push_parts(journal: &mut Vec<u8>, message: &[u8]) -> Result<(), AllocError>
    requires { length message.now < 2 ^ 32 }
    ensures ok { OnOk result (journal.new.items ≡ journal.old.items ++ framed message.now) }
    ensures front { OnErr result
        (take (length journal.old.items) journal.new.items ≡ journal.old.items) }
{
    let count = message.len();
    let digest = checksum(message);
    journal.extend_from_slice(&[
        (count / 0x100_0000) as u8,
        (count / 0x1_0000 % 256) as u8,
        (count / 0x100 % 256) as u8,
        (count % 256) as u8,
    ])?;
    journal.extend_from_slice(&digest)?;
    journal.extend_from_slice(message)
}
