//! The words of the command line: what they ask for, and what is wrong with those that are refused.
#![tactic(auto)]

mod commands;
mod diagnosis;
mod options;
mod settings;
#[cfg(test)]
mod tests;
mod wrong_words;

pub use commands::read_words;
pub use diagnosis::find_wrong;
pub use settings::{
    Asked, Caching, Connection, LimitSettings, ScriptSettings, ServeSettings, StormSettings, Text,
};
pub use wrong_words::{FORMS, Wanted, WrongWords};
