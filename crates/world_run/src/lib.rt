//! A schedule played on a server, its links and its clients.
#![tactic(auto)]

mod asks;
mod laws;
mod link_end;
mod living;
mod member;
mod moves;
mod playing;
mod points;
mod refusal_numbers;
mod world;

pub use laws::{law_one_history, law_refusals_change_nothing};
pub use server_links::WorldFault;
pub use world::World;
