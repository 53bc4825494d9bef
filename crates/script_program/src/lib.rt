//! A script out of a source, played over a link of the net, with what is written of it.
#![tactic(auto)]

mod read;
mod run;

pub use read::{MOST_LINES, ScriptRead, read_script};
pub use run::{ScriptEnd, ScriptSession, WrittenScript, play_and_write};
