//! The server's state, one turn at a time.
#![tactic(auto)]

mod bits;
mod book;
mod connection;
mod connection_plan;
mod connections;
mod deed;
mod ends;
mod hello;
mod log;
mod messages;
mod plan;
mod roster;
mod stores;
mod subscription;
mod tracking_info;

pub use book::Book;
pub use serial_model::{
    BookCall, BookRefusal, BookReply, Effect, Entry, EntryKind, Limits, Post, Posted,
};
