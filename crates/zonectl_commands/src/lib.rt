//! The command language of `zonectl`: the lines of its input, which command a line is, and how lines are answered one after the
//! other by whatever carries out the commands. It needs no zone.
//!
//! A line is a list of octets, and what it says depends on its words alone, which `line_text` reads.
#![tactic(auto)]

mod command;
pub mod laws;
mod lines;
mod serving;

pub use command::{Command, SHA_1};
pub use lines::{Line, Lines};
pub use serving::{Session, Stop, serve};
