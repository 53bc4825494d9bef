//! A client's link and its callers, each in a thread, over one client under the turn lock.
#![tactic(auto)]

mod callers;
mod deliver;
mod hear;
mod link_pump;
mod pump_end;
mod waiters;

pub use callers::{Fetched, ask_through, send_through};
pub use link_pump::pump;
pub use pump_end::PumpEnd;
pub use waiters::Waiters;
