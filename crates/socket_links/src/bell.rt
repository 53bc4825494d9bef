//! What ends the wait of a link for bytes.
use edge_links::{EndedLink, MemoryLink, NoMemory, TcpLink};
use mio::Waker;
use std::alloc::Global;
use std::sync::atomic::{AtomicBool, Ordering};
use std::sync::{Arc, OnceLock};

#[derive(Drop)]
struct Hung {
    is_heeded: AtomicBool,
    waker: OnceLock<Waker>,
}

/// Ends the wait of a link for bytes: its read then answers that nothing came. Any thread may
/// ring it, at any time.
#[derive(Drop)]
pub struct Bell {
    hung: Arc<Hung, Global>,
}

impl Bell {
    pub(crate) fn new(alloc: Global) -> Result<Bell, NoMemory> {
        let hung = Hung {
            is_heeded: AtomicBool::new(false),
            waker: OnceLock::new(),
        };
        match Arc::new(alloc, hung) {
            Ok(hung) => Ok(Bell { hung }),
            Err(_) => Err(NoMemory),
        }
    }

    /// The same bell.
    pub fn share(&self) -> Result<Bell, NoMemory> {
        match Arc::try_clone(&self.hung) {
            Ok(hung) => Ok(Bell { hung }),
            Err(_) => Err(NoMemory),
        }
    }

    /// From its next read on the link heeds it, which then brings nothing once. A read takes one
    /// call of the system before, and two from then on.
    pub fn be_heeded(&self) {
        self.hung.is_heeded.store(true, Ordering::SeqCst);
    }

    pub fn is_heeded(&self) -> bool {
        self.hung.is_heeded.load(Ordering::SeqCst)
    }

    pub(crate) fn ring_by(&self, waker: Waker) {
        let _ = self.hung.waker.try_set(waker);
    }

    /// Ends the wait that is under way, or else the next. Where the system refuses that, the link
    /// waits on.
    pub fn ring(&self) {
        if let Some(waker) = self.hung.waker.get() {
            let _ = waker.wake();
        }
    }
}

/// A link that may have a bell.
pub trait Wakeable {
    /// The bell of this link. Where it has none, its reads wait as long as they do.
    fn bell(&self) -> Option<Bell> {
        None
    }
}

impl Wakeable for TcpLink {}

impl Wakeable for MemoryLink {}

impl Wakeable for EndedLink {}
