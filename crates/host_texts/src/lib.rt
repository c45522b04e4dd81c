//! What programs share that read zone files: the words of their command lines, the texts of files, the records of a zone file and of those that it
//! includes, and the lines that tell what is wrong.
#![tactic(auto)]

mod command_line;
mod reading;
mod reporting;
mod texts;

pub use command_line::arguments;
pub use reading::{read_faultless, read_file};
pub use reporting::{refuse, refuse_at, refuse_unread, tell, tell_at, tell_faults, tell_unread};
pub use texts::HostTexts;
