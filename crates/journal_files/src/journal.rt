//! A journal in a file.
ghost use Rattle.std.specs.Prelude.{◌≡◌, ◌≤◌, true, false, Err, IfOk, OnErr, OnOk};
ghost use Rattle.std.specs.Io.KnownBytes.{Appends, Keeps};
ghost use Rattle.journal_files.specs.Files.{BeginsAs, HasLength, IsCutAt};

use crate::file::JournalFile;
use std::io;
use std::io::ErrorKind;

/// A journal in a file.
#[derive(Drop)]
pub struct Journal<F: JournalFile> {
    /// The file.
    pub file: F,
    /// How many octets its frames take.
    pub length: u64,
    /// Whether it takes frames: no more, once what a failed write left couldn't be taken back.
    pub is_open: bool,
}

/// Why a frame isn't taken.
#[derive(Clone, Copy, PartialEq, Eq, Debug)]
pub enum AppendFault {
    /// It couldn't be written, for this cause.
    Unwritten(ErrorKind),
    /// The journal takes no more frames.
    Closed,
}

impl<F: JournalFile> Journal<F> {
    /// The journal of a file that has so many octets, the first of which, so many as `intact`, are whole frames; the others are cut off.
    ///
    /// # Errors
    /// Why they couldn't be cut off.
    #[tactic(auto, using(crate::proofs::Kept::uncut, crate::proofs::Kept::length_cut))]
    pub fn begin(file: F, length: u64, intact: u64) -> io::Result<Journal<F>>
        requires inside { intact ≤ length }
        ensures length { IfOk result (λ journal. journal.length ≡ intact) }
        ensures open { IfOk result (λ journal. journal.is_open ≡ true) }
        ensures cut { IfOk result (λ journal. HasLength (F.octets file) length →
            IsCutAt intact (F.octets file) (F.octets journal.file)) }
        ensures kept { IfOk result (λ journal. HasLength (F.octets file) length →
            HasLength (F.octets journal.file) intact) }
    {
        let mut file = file;
        if intact < length {
            file.cut(intact)?;
        }
        Ok(Journal {
            file,
            length: intact,
            is_open: true,
        })
    }

    /// Puts a frame behind the others. Where that fails, the journal is as it was, or takes no more frames: its own are there still.
    ///
    /// # Errors
    /// `Unwritten` with the cause, and `Closed` where it takes none.
    #[tactic(auto, using(crate::proofs::Kept::taken_back, crate::proofs::Kept::stands, crate::proofs::Kept::same, crate::proofs::Kept::length_grown, crate::proofs::Kept::length_back))]
    pub fn append(&mut self, frame: &[u8]) -> Result<(), AppendFault>
        ensures taken { OnOk result
            (Appends (F.octets self.old.file) (F.octets self.new.file) frame.now) }
        ensures open { OnOk result (self.new.is_open ≡ true) }
        ensures taken_back { OnErr result (HasLength (F.octets self.old.file) self.old.length →
            self.new.is_open ≡ true →
            Keeps (F.octets self.old.file) (F.octets self.new.file)) }
        ensures stands { OnErr result (HasLength (F.octets self.old.file) self.old.length →
            BeginsAs self.old.length (F.octets self.old.file) (F.octets self.new.file)) }
        ensures length { HasLength (F.octets self.old.file) self.old.length →
            self.new.is_open ≡ true → HasLength (F.octets self.new.file) self.new.length }
        ensures closed { self.old.is_open ≡ false →
            (result ≡ Err AppendFault.Closed) × (self.new ≡ self.old) }
    {
        if !self.is_open {
            return Err(AppendFault::Closed);
        }
        let Some(length) = self.length.checked_add(frame.len() as u64) else {
            return Err(AppendFault::Unwritten(ErrorKind::FileTooLarge));
        };
        match self.file.put(frame) {
            Ok(()) => {
                self.length = length;
                Ok(())
            }
            Err(error) => {
                self.take_back();
                Err(AppendFault::Unwritten(error.kind()))
            }
        }
    }

    /// Takes back what a failed write left behind the frames; where that fails, it takes no more frames.
    #[tactic(auto, using(crate::proofs::Kept::cut_begins))]
    fn take_back(&mut self)
        ensures back { self.new.is_open ≡ true →
            IsCutAt self.old.length (F.octets self.old.file) (F.octets self.new.file) }
        ensures stands { BeginsAs self.old.length
            (F.octets self.old.file) (F.octets self.new.file) }
        ensures length { self.new.length ≡ self.old.length }
    {
        match self.file.cut(self.length) {
            Ok(()) => self.is_open = true,
            Err(_) => self.is_open = false,
        }
    }
}
