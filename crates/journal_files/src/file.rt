//! The file of a journal.
ghost use Rattle.std.specs.Prelude.{ℕ, List, None, OnErr, OnOk, Option};
ghost use Rattle.std.specs.Io.KnownBytes.{Appends};
ghost use Rattle.journal_files.specs.Files.{BeginsAs, Grows, IsCutAt};

use std::io;

/// The file of a journal.
pub trait JournalFile: Drop {
    // The octets that it has, where they are known.
    ghost octets: { Self → Option (List ℕ) } = { λ _. None };

    /// Puts a frame behind the octets of the file, so that it outlasts whatever happens from then on. Where that fails, some of the frame may be there.
    fn put(&mut self, frame: &[u8]) -> io::Result<()>
        ensures put { OnOk result (Appends (octets self.old) (octets self.new) frame.now) }
        ensures begun { OnErr result (Grows (octets self.old) (octets self.new)) };

    /// Cuts the file off behind so many octets, which lasts as well. Where that fails, some of what is behind them may be there.
    fn cut(&mut self, length: u64) -> io::Result<()>
        ensures cut { OnOk result (IsCutAt length (octets self.old) (octets self.new)) }
        ensures begun { OnErr result (BeginsAs length (octets self.old) (octets self.new)) };
}
