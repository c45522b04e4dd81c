//! Who answers messages.
ghost use Rattle.std.specs.Prelude.{ℕ, List, OnErr, OnOk};
ghost use Rattle.zone_server.specs.Frames.{framed_of, Framed};
ghost use Rattle.served_frames.specs.Serving.{Writes};
ghost use Rattle.served_frames.specs.Stopping.{Stops};

use std::io::Write;
use zone_server::{Frame, Stop};

/// Who answers messages, in the order in which they come.
pub trait Answerer {
    // What is written to a message, and what the answerer is then.
    ghost answers: { Self → Framed → List ℕ → Self → Type 0 };

    // The same where it stops: a front of it is written.
    ghost begins: { Self → Framed → List ℕ → Self → Type 0 };

    /// Writes the answer to a message, if there is one. Where it stops, a front of what it began to write may be there.
    fn answer<W: Write>(&mut self, frame: Frame<'_>, output: &mut W) -> Result<(), Stop>
        ensures answered { OnOk result (Writes
            (λ text. answers self.old (framed_of frame.entry) text self.new)
            (W.contents output.old) (W.contents output.new)) }
        ensures stopped { OnErr result (Stops
            (λ text. begins self.old (framed_of frame.entry) text self.new)
            (W.contents output.old) (W.contents output.new)) };
}
