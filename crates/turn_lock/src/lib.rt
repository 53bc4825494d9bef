//! A lock that serves its callers in turn. The turns that any threads take under it are one legal
//! history.
#![tactic(auto)]

mod batch;
mod lock;
mod logged;
mod own;
mod rule;
mod steps;

pub use lock::{Closed, NoMemory, Patience, Seat, TurnLock, Unplayed, Worn};
pub use logged::{Logged, Refusing};
pub use own::play;
pub use rule::{ALL_PARTS, LAST_TICKET};
