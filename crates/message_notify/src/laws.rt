//! Laws of the definitions that the calls of this crate are proved to meet. Each is an empty function whose contract is the law, for
//! every value, so a program has no need to call one.
ghost use Rattle.message_notify.specs.NotifyLaws.{ReadsBack};

/// What is written as a NOTIFY for the zone of an origin is read as one for it, with the same identifier and without a hint.
#[tactic(auto, using(crate::proofs::NotifyBack::reads_back))]
pub fn notifies_read_back()
    ensures { ReadsBack }
{}
