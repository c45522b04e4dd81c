//! Laws of the definitions that the calls of this crate are proved to meet. Each is an empty function whose contract is the law, for
//! every value, so a program has no need to call one.
ghost use Rattle.journal_calls.specs.Laws.{PlansAreTold};

/// Whoever begins an update is told whether there is one to commit: exactly then there are octets for the journal of the zone, which make it the
/// journal of one version more, and the rules of the zone permit the owner of the key by which the message was signed each change.
pub fn plans_are_told()
    ensures { PlansAreTold }
{}
