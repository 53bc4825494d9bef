//! A server of connections at a port of the net, the report of each, and what is written of it.
#![tactic(auto)]

mod notices;
mod output;
mod report;
mod run;
#[cfg(test)]
mod tests;

pub use output::{WrittenRun, serve_and_write};
pub use run::{ServeEnd, ServeRun, serve};
