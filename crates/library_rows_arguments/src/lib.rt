//! What is passed to the calls of rows: it is read from their text according to the form of the call, into lists, one for each
//! kind of value. `src/forms.rt` lists the calls.
#![tactic(auto)]

mod arguments;
mod calls;
mod fault;
mod forms;
mod held;
mod manner;
mod read_arguments;
mod read_made;
mod read_octets;
mod read_records;
mod read_zones;
mod row_hash;

pub use arguments::{Arguments, Sets};
pub use calls::Calls;
pub use forms::Form;
pub use held::Held;
pub use manner::Manner;
pub use read_arguments::read_call;
pub use read_zones::read_zone_type;
pub use row_hash::RowHash;
