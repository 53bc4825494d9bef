//! Which workers are called to connections that the turns of others sent something to.
use conn_worker::{Ended, Gate};
use resp_value::Words;
use shared_book::{Ids, Posted};
use socket_links::LookoutBell;
use std::alloc::Global;
use std::sync::atomic::{AtomicBool, AtomicU64, Ordering};
use std::sync::{Arc, Mutex, Wait};

/// How a worker is called by others.
#[derive(Drop)]
struct Line {
    /// A bit for the connections whose ids leave one rest by 64.
    bits: AtomicU64,
    is_asleep: AtomicBool,
    bell: LookoutBell,
}

/// A worker's line, which it shares with those who call it.
#[derive(Drop)]
pub struct Calling {
    line: Arc<Line, Global>,
}

/// The connections of a worker that were sent something. A bit stands for all whose ids leave the
/// same rest by 64.
#[derive(Clone, Copy, Debug, Drop)]
pub struct Called {
    bits: u64,
}

impl Called {
    /// No connection.
    pub const NONE: Called = Called { bits: 0 };

    pub fn is_empty(self) -> bool {
        self.bits == 0
    }

    pub fn has(self, id: u64) -> bool {
        self.bits & (1 << (id % 64)) != 0
    }
}

impl Calling {
    fn new(alloc: Global, bell: LookoutBell) -> Option<Calling> {
        let line = Line {
            bits: AtomicU64::new(0),
            is_asleep: AtomicBool::new(false),
            bell,
        };
        match Arc::new(alloc, line) {
            Ok(line) => Some(Calling { line }),
            Err(_) => None,
        }
    }

    fn share(&self) -> Option<Calling> {
        match Arc::try_clone(&self.line) {
            Ok(line) => Some(Calling { line }),
            Err(_) => None,
        }
    }

    // Wakes the worker where it waits.
    fn call(&self, bits: u64) {
        self.line.bits.fetch_or(bits, Ordering::SeqCst);
        if self.line.is_asleep.swap(false, Ordering::SeqCst) {
            self.line.bell.ring();
        }
    }

    /// Those who were called since this was last asked.
    pub fn take(&self) -> Called {
        Called {
            bits: self.line.bits.swap(0, Ordering::SeqCst),
        }
    }

    /// The worker is about to wait, and a call rings its bell from now on. Whether it may wait: it
    /// was not called before.
    pub fn may_sleep(&self) -> bool {
        self.line.is_asleep.store(true, Ordering::SeqCst);
        self.line.bits.load(Ordering::SeqCst) == 0
    }

    /// The worker waits no longer. Whether it was called.
    pub fn wake_up(&self) -> bool {
        self.line.is_asleep.store(false, Ordering::SeqCst);
        self.line.bits.load(Ordering::SeqCst) != 0
    }
}

/// The lines of all workers.
#[derive(Drop)]
pub struct Bells {
    posted: Posted,
    lines: Mutex<Vec<Calling>>,
}

impl Bells {
    pub fn new(alloc: Global, posted: Posted) -> Bells {
        Bells {
            posted,
            lines: Mutex::new(Vec::new(alloc)),
        }
    }

    /// A line for one more worker, whose wait this bell ends. Without memory there is none.
    pub fn line<R: Wait>(&self, rt: &R, alloc: Global, bell: LookoutBell) -> Option<Calling> {
        let calling = Calling::new(alloc, bell)?;
        let shared = calling.share()?;
        match self.lines.lock(rt).push(shared) {
            Ok(()) => Some(calling),
            Err(_) => None,
        }
    }

    /// Calls all workers to those to whom something was sent since this was last called.
    pub fn ring<R: Wait>(&self, rt: &R) {
        let ids = self.posted.take();
        if ids.is_empty() {
            return;
        }
        let bits = bits_of(ids);
        for calling in self.lines.lock(rt).iter() {
            calling.call(bits);
        }
    }
}

fn bits_of(ids: Ids) -> u64 {
    let mut bits = 0;
    for rest in 0..64 {
        if ids.has(rest) {
            bits |= 1 << rest;
        }
    }
    bits
}

/// The gate of one connection's round, which rings for those whom its turns concern.
#[derive(Drop)]
pub struct Ringing<'a, G, R> {
    rt: &'a R,
    gate: &'a G,
    bells: &'a Bells,
    asks: AtomicBool,
}

impl<'a, G, R> Ringing<'a, G, R> {
    pub fn new(rt: &'a R, gate: &'a G, bells: &'a Bells) -> Self {
        Ringing {
            rt,
            gate,
            bells,
            asks: AtomicBool::new(false),
        }
    }

    /// Whether the connection may be sent something unasked from now on.
    pub fn asks_for_more(&self) -> bool {
        self.asks.load(Ordering::SeqCst)
    }
}

impl<'a, G: Gate, R: Wait> Gate for Ringing<'a, G, R> {
    fn before(&self, id: u64, words: &Words) {
        if asks_for_more(words) {
            self.asks.store(true, Ordering::SeqCst);
        }
        self.gate.before(id, words);
    }

    fn after(&self, id: u64, requests: u64) {
        self.bells.ring(self.rt);
        self.gate.after(id, requests);
    }

    fn ended(&self, id: u64, ended: Ended) {
        self.bells.ring(self.rt);
        self.gate.ended(id, ended);
    }
}

// Whether a connection may be sent something unasked from then on: only one on RESP3 is, or one
// that subscribed.
fn asks_for_more(words: &Words) -> bool {
    match words.as_slice() {
        [name, ..] => {
            let name = name.as_slice();
            name.eq_ignore_ascii_case(b"hello") || name.eq_ignore_ascii_case(b"subscribe")
        }
        [] => false,
    }
}
