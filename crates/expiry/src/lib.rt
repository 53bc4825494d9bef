//! The deadlines of the keys, in order.
#![tactic(auto)]

mod block;
mod blocks;
mod index;
mod laws;

pub use block::Block;
pub use index::{Deadline, DeadlineIndex};
pub use laws::{law_one_index, law_removal_takes_one, law_setting_adds_one};
