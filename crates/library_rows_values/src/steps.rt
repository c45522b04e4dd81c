//! Makes the steps of a chain of handlers, and hands on what they have by each call that gives it up.

use crate::answers::take_section;
use crate::texts::write_sections;
use crate::write::Answer;
use library_rows_arguments::Arguments;
use zone_handler::{AuthLookup, LookupControlFlow, LookupError, LookupOptions};

/// Makes a step of the current set or of an error: what it is, and what it gives up.
pub fn make_step(out: &mut Answer, arguments: &mut Arguments<'_>) {
    let answer = AuthLookup::from(take_section(arguments, LookupOptions::default()));
    match arguments.text {
        "break-answer" => write_answer(out, LookupControlFlow::Break(Ok(answer))),
        "answer" => write_answer(out, LookupControlFlow::Continue(Ok(answer))),
        word => {
            drop(answer);
            make_other_step(out, word);
        }
    }
}

fn make_other_step(out: &mut Answer, word: &str) {
    match word {
        "break-error" => write_error(out, LookupControlFlow::Break(Err(LookupError::Memory))),
        "error" => write_error(
            out,
            LookupControlFlow::Continue(Err(LookupError::NameExists)),
        ),
        _ => write_skip(out, LookupControlFlow::Skip),
    }
}

/// Writes how a step is printed, and what it is.
fn write_case(out: &mut Answer, step: &LookupControlFlow<AuthLookup>) {
    out.put(step);
    out.say(", continue: ");
    out.hold(step.is_continue());
    out.say(", break: ");
    out.hold(step.is_break());
    out.say(", ");
}

/// Writes a step that has an answer, and the answer.
fn write_answer(out: &mut Answer, step: LookupControlFlow<AuthLookup>) {
    write_case(out, &step);
    let kept = step.map_err(|error| error.is_nx_domain());
    match kept.map(|answer| answer).map_result() {
        Some(Ok(answer)) => hand_on(out, answer),
        _ => out.say("no answer"),
    }
}

fn hand_on(out: &mut Answer, answer: AuthLookup) {
    let step: LookupControlFlow<AuthLookup> = LookupControlFlow::Break(Ok(answer));
    let step: LookupControlFlow<AuthLookup> = LookupControlFlow::Continue(Ok(step.unwrap()));
    let answer = step.expect("an answer");
    let step: LookupControlFlow<AuthLookup> = LookupControlFlow::Continue(Ok(answer));
    write_given(out, step.unwrap_or_default());
}

/// Writes an answer that is handed over.
fn write_given(out: &mut Answer, answer: AuthLookup) {
    write_sections(out, &answer);
    drop(answer);
}

/// Writes a step that has an error, and the error, and what stands in place of an answer.
fn write_error(out: &mut Answer, step: LookupControlFlow<AuthLookup>) {
    write_case(out, &step);
    match step.map(|answer| answer.is_empty()).map_result() {
        Some(Err(error)) => hand_error_on(out, error),
        _ => out.say("no error"),
    }
}

fn hand_error_on(out: &mut Answer, error: LookupError) {
    let step: LookupControlFlow<AuthLookup> = LookupControlFlow::Break(Err(error));
    let step: LookupControlFlow<AuthLookup> = LookupControlFlow::Continue(Err(step.unwrap_err()));
    let error = step.expect_err("an error");
    out.put_error(&error);
    map_error(out, error);
}

fn map_error(out: &mut Answer, error: LookupError) {
    let step: LookupControlFlow<AuthLookup> = LookupControlFlow::Continue(Err(error));
    let mapped = step.map_err(|error| error.is_nx_domain());
    out.say(", denies: ");
    out.hold(matches!(mapped, LookupControlFlow::Continue(Err(true))));
    out.say(", default: ");
    write_given(out, mapped.unwrap_or_default());
}

/// Whether a step has a result. That is of any type, so that a proof has nothing to take apart.
fn is_there<T: Drop>(given: Option<T>) -> bool {
    given.is_some()
}

/// Writes a step that skips, which has nothing to give up.
fn write_skip(out: &mut Answer, step: LookupControlFlow<AuthLookup>) {
    write_case(out, &step);
    out.say("gives: ");
    out.hold(is_there(step.map_result()));
}
