//! The server's state under the turn lock, and one connection's turns there.
#![tactic(auto)]

mod batch;
mod logged;
mod posted;
mod turns;

pub use batch::{Batch, BatchEnd, run_all};
pub use logged::{Answer, Opened, SharedBook, open, open_told};
pub use posted::{Ids, Posted};
pub use turns::{MOST, Ran, Refusal, admit, close, run, take, tick};
