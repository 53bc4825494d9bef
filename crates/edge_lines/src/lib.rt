//! Lines read from a source, and bytes written whole to a sink.
#![tactic(auto)]

mod lines;

pub use lines::{LineRead, SinkFailed, read_line, write_all};
