//! Laws of the definitions of this crate. Each is an empty function whose contract is the law, so a program has no need to call one.
ghost use Rattle.step_answers.specs.NotedLaws.{NotedStepsLead};
ghost use Rattle.step_answers.specs.Arrivals.{StepsArrive};

use difference_messages::laws::messages_are_taken;
use incremental_laws::laws::{steps_are_taken, steps_make_the_newest};
use kept_steps::laws::kept_steps_lead;

/// If the steps that are kept lead from version to version, to the newest, they still do behind the one that is noted next.
pub fn noted_steps_lead()
    ensures { NotedStepsLead }
{
    kept_steps_lead();
}

/// A secondary that asks for what changed since the serial of one of the versions is sent the messages of the steps from there on. It takes
/// them, up to the last; and if it holds this version, it has the newest one then: under each key the records and signatures that answers
/// show, with their TTLs.
pub fn steps_arrive()
    ensures { StepsArrive }
{
    kept_steps_lead();
    messages_are_taken();
    steps_are_taken();
    steps_make_the_newest();
}
