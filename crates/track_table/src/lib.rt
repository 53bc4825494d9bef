//! Which connections the server owes a message for which keys, and which of these keys is oldest.
#![tactic(auto)]

mod aside;
mod holdings;
mod laws;
mod marks;
mod rows;
mod table;

pub use aside::Aside;
pub use laws::law_holders_grow;
pub use table::{Held, TrackTable};
