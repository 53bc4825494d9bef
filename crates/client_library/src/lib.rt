//! A cached client without links of its own: its program hands in what the server sent, and sends
//! on what comes out.
#![tactic(auto)]

mod foreign;
mod guarded;
mod handle;
mod library;
mod measure;
mod options;
mod refused;
mod request;
mod turns;
mod unknown;

pub use foreign::ForeignClient;
pub use guarded::GuardedClient;
pub use handle::{Handle, count, status};
pub use library::LibraryClient;
pub use measure::HeldSize;
pub use options::{ClientOptions, OptionFault, option_status, tracking};
pub use refused::refuses;
pub use request::read_words;
