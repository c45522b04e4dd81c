//! Laws of plans that are held. Each is an empty function whose contract is the law, so a program has no need to call one.
ghost use Rattle.held_plans.specs.HoldingLaws.{FinishedPlansAreSecured};

/// The zone of a plan, once what is handed out is answered, whoever answers and with whatever octets, is the zone secured with the
/// denials that were asked for by the signers that answer so.
pub fn finished_plans_are_secured()
    ensures { FinishedPlansAreSecured }
{}
