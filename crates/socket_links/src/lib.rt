//! Links over sockets and the net that has them. Another thread can end a link's wait for bytes,
//! or one thread waits for many links together.
#![tactic(auto)]

mod acceptor;
mod bell;
mod link;
mod lookout;
mod net;
#[cfg(test)]
mod tests;
mod unblocked;
mod watch;
mod watched;

pub use acceptor::SocketAcceptor;
pub use bell::{Bell, Wakeable};
pub use link::SocketLink;
pub use lookout::{Lookout, LookoutBell, Sign};
pub use net::SocketNet;
pub use watched::{Watched, Watching};
