//! A script: threads that ask one client over its links, and what their lines came to.
#![tactic(auto)]

mod answer;
mod callers;
mod laws;
mod reports;
mod session;

pub use answer::Answer;
pub use callers::Answers;
pub use laws::{law_lines_are_answered, law_sound_sessions_are_answered};
pub use reports::{SessionEnd, report};
pub use session::{Played, PumpedLink, play_script};
