//! Calls that are made with little memory.

use crate::scarcity::Scarcity;
use std::alloc::{AllocError, Global};
use std::fmt::Display;

/// How many rooms are tried before a call has to give something.
const ATTEMPTS: usize = 1_000;

/// How many octets more each room has.
const STEP: usize = 16;

/// Makes a call with no memory left, and then with a little more each time, until it gives something: how often memory was refused to it
/// before, and what it gave. Gives none where it gave nothing in any room; fails only for lack of memory before the first.
pub fn until_given<T: Drop, F: FnMut() -> Option<T>>(
    alloc: Global,
    call: F,
) -> Result<Option<(usize, T)>, AllocError>
    requires { F.IsAlwaysCallable call }
{
    let mut scarce = Scarcity::new(alloc)?;
    scarce.begin(ATTEMPTS)?;
    let given = scarce.until_given(STEP, call);
    scarce.end();
    Ok(given)
}

/// The answer to a row whose call is made so: whether memory was refused to it, and what it gave then.
pub fn scarce_answer<T: Display + Drop, F: FnMut() -> Option<T>>(
    alloc: Global,
    call: F,
) -> Result<String, AllocError>
    requires { F.IsAlwaysCallable call }
{
    match until_given(alloc, call)? {
        None => format!(in alloc; "refused"),
        Some((0, _)) => format!(in alloc; "never refused"),
        Some((_, given)) => format!(in alloc; "refused, then {given}"),
    }
}
