//! Where the journals of zones are kept.
ghost use Rattle.std.specs.Prelude.{List, None, Option};
ghost use Rattle.updating_frames.specs.Journals.{Entry, Takes};

use zone_proto::LowerName;

/// Where the journals of zones are kept, as in files.
pub trait Journals {
    // What they have taken, in order, where that is known.
    ghost entries: { Self → Option (List Entry) } = { λ _. None };

    /// Puts a frame behind the journal of the zone of an origin, so that it outlasts whatever happens from now on. Tells whether it did; if not, the
    /// journal is as it was, or nothing is put behind it any more.
    fn append(&mut self, origin: &LowerName, frame: &[u8]) -> bool
        ensures { Takes (entries self.old) (entries self.new) result
            (record { origin = origin.now; frame = frame.now }) };
}
