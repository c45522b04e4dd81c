//! What differs between what a run of the program had to do and what it did.

use std::fmt;

/// What a run has to write to standard output and standard error, and the status that it has to end with; or what it did.
#[derive(Drop)]
pub struct Ending<'e> {
    pub output: &'e [u8],
    pub fault: &'e [u8],
    pub status: u8,
}

/// What differs first.
#[derive(Drop)]
pub enum Difference<'w, 'c> {
    /// This line of the output, counted from 1; it is empty if there is none.
    Output {
        line: usize,
        wanted: &'w [u8],
        came: &'c [u8],
    },
    Fault {
        wanted: &'w [u8],
        came: &'c [u8],
    },
    Status {
        wanted: u8,
        came: u8,
    },
}

impl fmt::Display for Difference<'_, '_> {
    fn fmt<W: fmt::Write>(&self, f: &mut fmt::Formatter<W>) -> fmt::Result {
        match self {
            Difference::Output { line, wanted, came } => {
                write!(f, "line {line} of the output was to be ")?;
                write!(f, "\"{}\" and was \"{}\"", Shown(wanted), Shown(came))
            }
            Difference::Fault { wanted, came } => {
                write!(f, "standard error was to be ")?;
                write!(f, "\"{}\" and was \"{}\"", Shown(wanted), Shown(came))
            }
            Difference::Status { wanted, came } => {
                write!(f, "the status was to be {wanted} and was {came}")
            }
        }
    }
}

/// Octets of a text, those that aren't printable ASCII in hex.
#[derive(Drop)]
struct Shown<'o>(&'o [u8]);

impl fmt::Display for Shown<'_> {
    fn fmt<W: fmt::Write>(&self, f: &mut fmt::Formatter<W>) -> fmt::Result {
        for octet in self.0 {
            if (32..127).contains(octet) {
                write!(f, "{}", *octet as char)?;
            } else {
                write!(f, "%{{{octet:02x}}}")?;
            }
        }
        Ok(())
    }
}

/// Compares how a run had to end with how it did.
pub fn first_difference<'w, 'c>(
    wanted: &Ending<'w>,
    came: &Ending<'c>,
) -> Option<Difference<'w, 'c>> {
    if wanted.output != came.output {
        return output_difference(wanted.output, came.output);
    }
    if wanted.fault != came.fault {
        return Some(Difference::Fault {
            wanted: wanted.fault,
            came: came.fault,
        });
    }
    if wanted.status != came.status {
        return Some(Difference::Status {
            wanted: wanted.status,
            came: came.status,
        });
    }
    None
}

/// The first line that differs.
fn output_difference<'w, 'c>(wanted: &'w [u8], came: &'c [u8]) -> Option<Difference<'w, 'c>> {
    let mut wanted_lines = wanted.split(|octet| *octet == b'\n');
    let mut came_lines = came.split(|octet| *octet == b'\n');
    for line in 1..usize::MAX {
        let (wanted, came) = match (wanted_lines.next(), came_lines.next()) {
            (None, None) => break,
            (wanted, came) => (wanted.unwrap_or(&[]), came.unwrap_or(&[])),
        };
        if wanted != came {
            return Some(Difference::Output { line, wanted, came });
        }
    }
    None
}
