//! Record sets by their keys, in the order of the keys: in a map while sets come and go, and in one list, with hints of where the
//! sets of a name begin, once they mostly stay.
#![tactic(auto)]

mod fences;
mod frozen_sets;
mod hints;
mod places;
mod rows;
mod set_map;
mod set_range;
mod set_values;
mod thawing;

pub use frozen_sets::FrozenSets;
pub use set_map::SetMap;
pub use set_range::SetRange;
pub use set_values::SetValues;
