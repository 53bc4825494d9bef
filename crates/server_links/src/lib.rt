//! A server and the links to it: what moves over them, and the history that it makes.
#![tactic(auto)]

mod client_end;
mod direction;
mod drop_lines;
mod fault;
mod laws;
mod link;
mod name_list;
mod notes;
mod server;
mod server_end;
mod server_links;

pub use fault::WorldFault;
pub use laws::{law_one_history, law_refusals_change_nothing};
pub use link::LinkMove;
pub use server_links::ServerLinks;
