//! The commands: their words, their answers and their effects.
#![tactic(auto)]

mod client_words;
mod command;
mod connection_words;
mod control;
mod hash_words;
mod integer;
mod key_words;
mod laws;
mod lists;
mod names;
mod printed;
mod query;
mod read;
mod read_keys;
mod refused;
mod set_options;
mod string_words;
mod tracking_words;
mod word_counts;
mod written;

pub use command::{
    Command, Done, FlushMode, SaveMode, SetLife, SetWhen, Signalled, TrackOptions, WordFault,
};
pub use control::is_control;
pub use integer::read_integer;
pub use laws::{law_replies_are_of_keys_read, law_signals_are_written};
pub use printed::put_printed;
pub use query::Query;
pub use read::read_command;
pub use read_keys::keys_read;
pub use refused::fault_text;
pub use written::{Written, keys_written, written_by};
