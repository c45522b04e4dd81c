//! Warnings, and how many things aren't told.

use std::fmt::Display;
use std::io::Write;

/// Tells how many things of a kind aren't told, if there are any.
pub fn tell_more<E: Write>(fault: &mut E, file: &str, count: u64, things: &str) {
    if count > 0 {
        let _ = write!(
            fault,
            "{file}: and {count} more {things}, which --all tells\n"
        );
    }
}

/// What is reported as a warning.
#[derive(Drop)]
pub struct Warning<'t, T: Display>(pub &'t T);

impl<T: Display> std::fmt::Display for Warning<'_, T> {
    fn fmt<W: std::fmt::Write>(&self, f: &mut std::fmt::Formatter<W>) -> std::fmt::Result {
        write!(f, "warning: {}", self.0)
    }
}
