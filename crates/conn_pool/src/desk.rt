//! What all workers of a call share.
ghost use Rattle.std.specs.Prelude.{◌≡◌};

use super::bells::Bells;
use super::dispatcher::{Dispatcher, Opening};
use edge_links::Acceptor;
use shared_book::SharedBook;
use std::alloc::Global;
use std::sync::Mutex;
use std::sync::ledger::Ledger;
use turn_lock::TurnLock;

/// What each worker works with.
#[derive(Drop)]
pub struct Desk<'a, L: Opening, E: Ledger, A: Acceptor, C, G, R> {
    pub rt: &'a R,
    pub alloc: Global,
    pub dispatcher: &'a Mutex<Dispatcher<L, E, A>>,
    pub lock: &'a TurnLock<SharedBook>,
    pub clock: &'a C,
    pub gate: &'a G,
    pub bells: &'a Bells,
    ghost own: { lock.now ≡ L.lock },
}
