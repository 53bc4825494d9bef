//! Every data command by one call, with the index of deadlines in step.
#![tactic(auto)]

mod aside;
mod content;
mod database;
mod due;
mod keeping;
mod kept;
mod laws;
mod moving;
mod prior;
mod run;
mod run_due;
mod step;
mod take_due;
mod touched;
mod waiting;

pub use database::{Database, Expired, Turned, Undo};
pub use due::{drop_due, due_keys, expire_due};
pub use laws::{law_nothing_is_in_step, law_one_index_is_in_step, law_rows_move_what_they_write};
pub use run::{has_row, run_data};
