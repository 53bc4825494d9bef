//! A storm: the schedule of a number, played on a world, and five lines about it.
#![tactic(auto)]

mod play;
mod tally;

pub use play::{Unplayed, Watch, play_storm};
