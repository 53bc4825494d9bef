//! Connections over links, each served in a thread, over one book under the turn lock.
#![tactic(auto)]

mod connection;
mod deliver;
mod gate;
mod quit;
mod report;
mod serve;
mod session;

pub use gate::{Gate, OpenGate};
pub use report::{Ended, Report};
pub use serve::{PIECE, serve_link};
pub use session::{Finished, Session, Unadmitted};
