//! Laws of the definitions of this crate. Each is an empty function whose contract is the law, so a program has no need to call one.
ghost use Rattle.condensed_answers.specs.Arrivals.{CondensedStepsArrive};

use condensed_steps::laws::condensed_steps_lead;
use difference_messages::laws::messages_are_taken;
use incremental_laws::laws::{steps_are_taken, steps_make_the_newest};
use kept_steps::laws::kept_steps_lead;
use step_answers::laws::steps_arrive;

/// A secondary that asks for what changed since the serial of one of the versions is sent the messages of the steps from there on, condensed into one where
/// they are two or more. It takes them, up to the last; and if it holds this version, it has the newest one then: under each key the records and
/// signatures that answers show, with their TTLs.
pub fn condensed_steps_arrive()
    ensures { CondensedStepsArrive }
{
    kept_steps_lead();
    condensed_steps_lead();
    messages_are_taken();
    steps_are_taken();
    steps_make_the_newest();
    steps_arrive();
}
