//! What the octets of a name stand in: the value itself where they are few, else a piece of memory.
ghost use Rattle.std.specs.Prelude.{◌≡◌, ◌↔◌, ℕ, List, [], ◌∷◌, ◌++◌, ◌+◌, ◌<◌, ◌≤◌, length, take, map, set, IsTrue};
ghost use Rattle.std.specs.Char.{to_ascii_lowercase};

use crate::letter_case::lower_octets;
use std::alloc::Global;
use std::marker::Model;

/// How many octets are in the value itself.
pub(crate) const INLINE_OCTETS: usize = 30;

/// What the octets of a name stand in. No call takes memory.
pub(crate) trait Storage: Drop {
    ghost octets_in: { Self → List ℕ };

    /// The octets.
    fn octets(&self) -> &[u8]
        ensures { result.now ≡ octets_in self.now };

    /// Keeps so many octets at the front at most.
    fn truncate(&mut self, len: usize)
        ensures { octets_in self.new ≡ take len (octets_in self.old) };

    /// Writes over an octet.
    fn write(&mut self, at: usize, octet: u8)
        requires { at < length (octets_in self.old) }
        ensures { octets_in self.new ≡ set (octets_in self.old) at octet };

    /// Puts the letters into lower case.
    fn lower(&mut self)
        ensures { octets_in self.new ≡ map to_ascii_lowercase (octets_in self.old) };

    /// The allocator that the octets were made with.
    fn alloc(&self) -> Global;
}

/// Up to 30 octets, in the value itself, which has 31: so a form of names in which they stand has 32 with its tag.
#[derive(Debug, Drop)]
pub(crate) struct Short {
    length: u8,
    octets: [u8; INLINE_OCTETS],
    alloc: Global,
}

impl Model for Short {
    ghost use Rattle.std.specs.Prelude.{ℕ, List, ◌≤◌, take};

    ghost Value = { List ℕ };

    ghost view = { λ s. take s.length s.octets };

    ghost invariant = { λ s. s.length ≤ 30 };
}

impl Short {
    /// No octet.
    pub(crate) fn new(alloc: Global) -> Short
        ensures { result ≡ [] }
    {
        Short::first(alloc, [0; INLINE_OCTETS], 0)
    }

    /// So many octets at the start of these.
    pub(crate) fn first(alloc: Global, octets: [u8; INLINE_OCTETS], count: usize) -> Short
        requires { count ≤ 30 }
        ensures { result ≡ take count octets }
    {
        Short {
            length: count as u8,
            octets,
            alloc,
        }
    }

    /// Whether there is room for so many more.
    pub(crate) fn has_room(&self, count: usize) -> bool
        ensures { IsTrue result ↔ (length self.now + count ≤ 30) }
    {
        count <= INLINE_OCTETS - usize::from(self.length)
    }

    /// Appends octets, for which there is room.
    pub(crate) fn append(&mut self, octets: &[u8])
        requires { length self.old + length octets.now ≤ 30 }
        ensures { self.new ≡ self.old ++ octets.now }
    {
        let start = usize::from(self.length);
        let end = start + octets.len();
        self.octets[start..end].copy_from_slice(octets);
        self.length = end as u8;
    }

    /// Appends an octet, for which there is room.
    pub(crate) fn push(&mut self, octet: u8)
        requires { length self.old < 30 }
        ensures { self.new ≡ self.old ++ octet ∷ [] }
    {
        self.octets[usize::from(self.length)] = octet;
        self.length += 1;
    }

    /// A copy.
    pub(crate) fn clone(&self) -> Short
        ensures { result ≡ self.now }
    {
        Short {
            length: self.length,
            octets: self.octets,
            alloc: self.alloc,
        }
    }
}

impl Storage for Short {
    ghost octets_in = { λ s. s };

    fn octets(&self) -> &[u8] {
        &self.octets[..usize::from(self.length)]
    }

    fn truncate(&mut self, len: usize) {
        if len < usize::from(self.length) {
            self.length = len as u8;
        }
    }

    fn write(&mut self, at: usize, octet: u8) {
        self.octets[at] = octet;
    }

    fn lower(&mut self) {
        lower_octets(&mut self.octets[..usize::from(self.length)]);
    }

    fn alloc(&self) -> Global {
        self.alloc
    }
}

/// Any number of octets, in a piece of memory.
impl Storage for Vec<u8> {
    ghost octets_in = { λ v. v.items };

    fn octets(&self) -> &[u8] {
        self
    }

    fn truncate(&mut self, len: usize) {
        Vec::truncate(self, len);
    }

    fn write(&mut self, at: usize, octet: u8) {
        self[at] = octet;
    }

    fn lower(&mut self) {
        lower_octets(self.as_mut_slice());
    }

    fn alloc(&self) -> Global {
        *self.allocator()
    }
}
