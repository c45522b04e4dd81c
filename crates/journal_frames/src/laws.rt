//! Laws of the definitions of this crate. Each is an empty function whose contract is the law, so a program has no need to call one.
ghost use Rattle.journal_frames.specs.Journals.{FramesAreMessages, FramesStand, CutsAreFronts, TornFramesEnd, ReplaysWereThere};

/// The messages of a journal are those that were put there, in their order, and are read first whatever stands behind them. A journal that
/// is cut off behind any octet has the first messages, and no other. A frame whose message was written in part or wrongly ends the
/// messages, unless both messages have one checksum.
#[tactic(auto, using(crate::proofs::Cuts::frames_are_messages, crate::proofs::Cuts::frames_stand, crate::proofs::Cuts::cuts_are_fronts, crate::proofs::Cuts::torn_frames_end))]
pub fn journals_read_back()
    ensures messages { FramesAreMessages }
    ensures behind { FramesStand }
    ensures cut { CutsAreFronts }
    ensures torn { TornFramesEnd }
{}

/// What a journal that was cut off anywhere replays to, over what was there at first, was there at some moment: at first, or once
/// some message was taken.
#[tactic(auto, using(crate::proofs::Cuts::replays_were_there))]
pub fn cut_journals_replay_to_what_was<Z>()
    ensures { ReplaysWereThere Z }
{}
