//! Where an invalidation for a connection goes, and what is sent there.
#![tactic(auto)]

mod messages;
mod routes;
mod routing;

pub use messages::{invalidation, notice};
pub use routes::Route;
pub use routing::{is_broken, route};
