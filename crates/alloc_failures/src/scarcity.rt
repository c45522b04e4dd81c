// Memory that is held back from the rest of the process.
use std::alloc::{AllocError, Global};

/// The first block that is asked for, in octets: more than any process has.
const LARGEST: usize = 1 << 46;

/// Octets: blocks of this size and above are kept until the value is dropped.
const LARGE: usize = 1 << 26;

/// Octets: what is left for the rest of the process between an end and the next begin, at least.
const BETWEEN: usize = 1 << 27;

/// How many blocks of a kind can be held at most.
const BLOCKS: usize = 100_000;

/// How many rooms can be left at most from a begin to its end.
const PIECES: usize = 4_096;

/// Octets: larger than any room that is left, and below the size from which the C library maps a block by itself.
const PIECE: usize = 65_536;

/// Octets: the C library keeps free blocks below this size in lists by their size.
const SMALL: usize = 1_100;

/// Octets: the sizes of the C library's blocks are multiples of this.
const GRAIN: usize = 16;

/// Holds the memory of the process, from `begin` to `end` all of it. The large blocks stay held after that, since it takes long
/// to take them.
#[derive(Drop)]
pub struct Scarcity {
    large: Vec<Vec<u8>>,
    others: Vec<Vec<u8>>,
    pieces: Vec<Vec<u8>>,
}

impl Scarcity {
    /// Holds nothing yet. The lists of what is held get their room.
    pub fn new(alloc: Global) -> Result<Scarcity, AllocError> {
        let large = Vec::with_capacity(alloc, BLOCKS)?;
        let others = Vec::with_capacity(alloc, BLOCKS)?;
        Ok(Scarcity {
            large,
            others,
            pieces: Vec::with_capacity(alloc, PIECES)?,
        })
    }

    /// Takes all memory. `rooms` is how often `leave` can then be called with a room above 0, 4,096 at most. Answers an error
    /// if there is no memory for the rooms, or some is left after all.
    pub fn begin(&mut self, rooms: usize) -> Result<(), AllocError> {
        let alloc = *self.large.allocator();
        for _ in 0..rooms {
            let piece = Vec::with_capacity(alloc, PIECE)?;
            if !hold(&mut self.pieces, piece) {
                return Err(AllocError);
            }
        }
        if self.large.is_empty() {
            let between: Vec<u8> = Vec::with_capacity(alloc, BETWEEN)?;
            take_halving(&mut self.large, LARGEST, LARGE);
            drop(between);
        }
        self.take(LARGE);
        if take_one(&mut self.others, 8) {
            return Err(AllocError);
        }
        Ok(())
    }

    /// Gives back all but the large blocks, until the next `begin`.
    pub fn end(&mut self) {
        self.others.clear();
        self.pieces.clear();
    }

    /// Takes what is free, and then gives back `room` octets in one piece; at 0 every growth is refused. False if the
    /// calls that `begin` was told of are used up, or the room is 64 KiB or more.
    pub fn leave(&mut self, room: usize) -> bool {
        self.take(PIECE);
        if room == 0 {
            return true;
        }
        let Some(piece) = self.pieces.pop() else {
            return false;
        };
        if room >= PIECE {
            return false;
        }
        drop(piece);
        take_one(&mut self.others, PIECE - room)
    }

    /// Makes a call with no room, then with `step` octets more each time, until it gives something: that it gives
    /// nothing says that memory was refused to it. Answers how often that was, and what it gave in the end; nothing if
    /// it gave nothing in all the rooms that `begin` was told of.
    pub fn until_given<T: Drop, F: FnMut() -> Option<T>>(
        &mut self,
        step: usize,
        mut call: F,
    ) -> Option<(usize, T)>
        requires { F.IsAlwaysCallable call }
    {
        for refused in 0..self.pieces.len() {
            if !self.leave(refused.saturating_mul(step)) {
                return None;
            }
            if let Some(given) = call() {
                return Some((refused, given));
            }
        }
        None
    }

    /// Takes what is free in blocks of at most this size.
    fn take(&mut self, largest: usize) {
        take_halving(&mut self.others, largest, SMALL);
        take_small(&mut self.others);
    }
}

/// Takes blocks of halving sizes, down to the first that isn't above the least.
fn take_halving(held: &mut Vec<Vec<u8>>, largest: usize, least: usize) {
    let mut size = largest;
    for _ in 0..BLOCKS {
        if !take_one(held, size) {
            if size <= least {
                break;
            }
            size /= 2;
        }
    }
}

/// Takes blocks of each small size.
fn take_small(held: &mut Vec<Vec<u8>>) {
    let mut size = SMALL;
    for _ in 0..BLOCKS {
        if !take_one(held, size) {
            if size <= GRAIN {
                break;
            }
            size -= GRAIN;
        }
    }
}

/// Takes one block of this size, and answers whether there was one and the list had room for it.
fn take_one(held: &mut Vec<Vec<u8>>, size: usize) -> bool {
    let alloc = *held.allocator();
    match Vec::with_capacity(alloc, size) {
        Ok(block) => hold(held, block),
        Err(_) => false,
    }
}

/// Keeps a block, if the list has room for it.
fn hold(held: &mut Vec<Vec<u8>>, block: Vec<u8>) -> bool {
    if held.len() < held.capacity() {
        return held.push(block).is_ok();
    }
    false
}
