//! Workers that serve the connections of one acceptor over one book, each a thread with many.
#![tactic(auto)]

mod all_reports;
mod bells;
mod crew;
mod desk;
mod dispatcher;
mod guest;
mod guests;
mod hints;
mod laws;
mod reports;
mod serve;
mod totals;
mod work;

pub use laws::law_totals_add_up;
pub use reports::{Kept, Reports};
pub use serve::{Served, serve_all};
pub use totals::{EndTotal, Totals};
