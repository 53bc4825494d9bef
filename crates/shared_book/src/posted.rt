//! Whose queues turns put something into, for whoever wakes those that wait.
use resp_value::NoMemory;
use server_book::{Book, BookCall};
use std::alloc::Global;
use std::sync::Arc;
use std::sync::atomic::{AtomicU64, Ordering};

/// The connections that turns of others sent something to, or ended, since they were last asked
/// for. No answer rests on it.
#[derive(Drop)]
pub struct Posted {
    bits: Arc<AtomicU64, Global>,
}

/// Some connections. One stands for all whose ids leave the same rest by 64.
#[derive(Clone, Copy, Debug, Drop, PartialEq, Eq)]
pub struct Ids {
    bits: u64,
}

impl Ids {
    pub fn is_empty(self) -> bool {
        self.bits == 0
    }

    pub fn has(self, id: u64) -> bool {
        self.bits & bit_of(id) != 0
    }
}

fn bit_of(id: u64) -> u64 {
    1 << (id % 64)
}

impl Posted {
    pub(crate) fn new(alloc: Global) -> Result<Posted, NoMemory> {
        match Arc::new(alloc, AtomicU64::new(0)) {
            Ok(bits) => Ok(Posted { bits }),
            Err(_) => Err(NoMemory),
        }
    }

    /// The same, for another owner.
    pub(crate) fn share(&self) -> Result<Posted, NoMemory> {
        match Arc::try_clone(&self.bits) {
            Ok(bits) => Ok(Posted { bits }),
            Err(_) => Err(NoMemory),
        }
    }

    /// The last turn, a call of this connection, sent what it did.
    pub(crate) fn mark(&self, caller: u64, book: &Book) {
        let mut bits = 0;
        for post in book.last_posts() {
            if post.id != caller {
                bits |= bit_of(post.id);
            }
        }
        for id in book.last_drops() {
            bits |= bit_of(*id);
        }
        if bits != 0 {
            self.bits.fetch_or(bits, Ordering::SeqCst);
        }
    }

    /// The connections since this was last called.
    pub fn take(&self) -> Ids {
        // Most turns send nothing to others, and a load leaves the word with all threads.
        if self.bits.load(Ordering::SeqCst) == 0 {
            return Ids { bits: 0 };
        }
        Ids {
            bits: self.bits.swap(0, Ordering::SeqCst),
        }
    }
}

/// Whose call it is, 0 where it is no connection's.
pub(crate) fn caller_of(call: &BookCall) -> u64 {
    match call {
        BookCall::Run { id, .. } | BookCall::Take { id, .. } | BookCall::Close { id } => *id,
        BookCall::Admit | BookCall::Tick { .. } => 0,
    }
}
