//! The client's end: its log, and the cache that the log allows.
#![tactic(auto)]

mod cache;
mod client;
mod counted_log;
mod entry;
mod handshake;
mod held_keys;
pub mod laws;
mod lead;
mod log;
mod notices;
mod outgoing;
mod pending;
mod side;
mod slot;
mod slots;

pub use client::ClientState;
pub use entry::{CacheEntry, PendingReply};
pub use handshake::HandshakeStep;
pub use lead::CachingWord;
pub use log::{Caching, ClientCall, ClientMode, ClientRefusal, ClientReply, LogEntry, Shape, Wire};
pub use notices::Notice;
pub use side::SideLink;
