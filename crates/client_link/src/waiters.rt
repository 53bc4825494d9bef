//! Who waits at a client: its callers for what its links bring, its pumps for what goes out.
use shared_cache::Wire;
use socket_links::Bell;
use std::sync::Wait;
use std::sync::atomic::{AtomicU64, Ordering};

/// Callers sleep here until a link has brought something, or has ended; a pump sleeps in the read
/// of its link, which the link's bell ends. None of it has a part in the answers.
#[derive(Drop)]
pub struct Waiters {
    rings: AtomicU64,
    main: Option<Bell>,
    side: Option<Bell>,
}

impl Waiters {
    /// With the bells of the links that have one.
    pub fn new(main: Option<Bell>, side: Option<Bell>) -> Waiters {
        Waiters {
            rings: AtomicU64::new(0),
            main,
            side,
        }
    }

    /// How often the callers were woken; behind the last number comes 0.
    pub fn rings(&self) -> u64 {
        self.rings.load(Ordering::SeqCst)
    }

    /// That link has brought something, or has ended: wakes the callers. What Side brings may let
    /// Main go on, or end it.
    pub fn heard(&self, wire: Wire) {
        self.rings.fetch_add(1, Ordering::SeqCst);
        self.rings.wake_all();
        match wire {
            Wire::Main => {}
            Wire::Side => self.wake(Wire::Main),
        }
    }

    /// Something was queued for that link, or it was ended: wakes its pump.
    pub fn wake(&self, wire: Wire) {
        let bell = match wire {
            Wire::Main => &self.main,
            Wire::Side => &self.side,
        };
        if let Some(bell) = bell {
            bell.ring();
        }
    }

    /// Sleeps until the callers are woken, where they have not been since it was so often. It may
    /// return before.
    pub fn sleep<R: Wait>(&self, rt: &R, rings: u64) {
        if self.rings() == rings {
            self.rings.park(rt, (rings % (1 << 32)) as u32);
        }
    }
}
