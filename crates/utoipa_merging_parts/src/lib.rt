//! What documents are merged by: lists that are joined ([`lists`]), maps that take the entries that they lack ([`maps`]), and several
//! maps at once, where a refused call gives them up or takes back what was put ([`filling`]).
#![tactic(auto)]

pub mod filling;
pub mod lists;
pub mod maps;

pub use filling::{Filling, filled, taken_back};
pub use lists::{join_lists, make_room, take_entries};
pub use maps::fill_missing;
