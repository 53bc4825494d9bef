//! What a worker knows by hints: which of its connections are served next, and whom it waits for.
//! No answer rests on it.
use super::bells::{Called, Calling};
use socket_links::{Lookout, Sign, Watched};
use std::alloc::Global;
use std::mem;

/// How long a worker waits at most, in milliseconds, and how often it looks after what no sign
/// tells of.
const PAUSE: u64 = 50;

/// How long it waits at most while a link that it serves no longer has bytes left, or behind a
/// SHUTDOWN.
const SHORT_PAUSE: u64 = 5;

/// Where no connection is.
const NOWHERE: usize = usize::MAX - 2;

/// A connection that may be sent something unasked.
#[derive(Drop)]
struct Hung {
    id: u64,
    place: usize,
}

/// Places are those of the worker's connections. One that is gone may still be among them.
#[derive(Drop)]
pub struct Hints<K> {
    alloc: Global,
    lookout: Option<Lookout>,
    calling: Option<Calling>,
    /// Those that are gone through now, and those that are served in the next round.
    places: Vec<usize>,
    takes_all: bool,
    next: Vec<usize>,
    /// Those whose bytes wait to be written.
    behind: Vec<usize>,
    hung: Vec<Hung>,
    /// Links that are served no longer and have bytes left.
    lingering: Vec<K>,
    /// Somebody may be accepted.
    may_come: bool,
    /// All are served in the next round.
    looks_at_all: bool,
    has_stopped: bool,
    /// The last wait learned of nothing.
    was_quiet: bool,
    looked_at: u64,
}

impl<K> Hints<K> {
    /// With the worker's lookout and its line, where it has them.
    pub fn new(alloc: Global, lookout: Option<Lookout>, calling: Option<Calling>) -> Self {
        Hints {
            alloc,
            lookout,
            calling,
            places: Vec::new(alloc),
            takes_all: false,
            next: Vec::new(alloc),
            behind: Vec::new(alloc),
            hung: Vec::new(alloc),
            lingering: Vec::new(alloc),
            may_come: true,
            looks_at_all: false,
            has_stopped: false,
            was_quiet: true,
            looked_at: 0,
        }
    }

    pub fn lookout(&self) -> Option<&Lookout> {
        self.lookout.as_ref()
    }

    /// Whether the worker takes one more link, which is its only one where it has no lookout.
    pub fn lets_in(&self, is_empty: bool) -> bool {
        self.may_come && (is_empty || self.lookout.is_some())
    }

    /// Nobody is there to be accepted. Whether no lookout tells once somebody is.
    pub fn finds_nobody(&mut self) -> bool {
        let is_blind = self.lookout.is_none();
        self.may_come = is_blind;
        is_blind
    }

    /// Somebody may be there of whom no sign tells, or not.
    pub fn look_for_more(&mut self, may_come: bool) {
        self.may_come = self.may_come || may_come;
    }

    /// The place is served in the next round.
    pub fn call(&mut self, place: usize) {
        if self.next.push(place).is_err() {
            self.looks_at_all = true;
        }
    }

    /// Bytes of the place wait to be written. Without memory it is to be told again, in the next
    /// round. Whether it is not.
    pub fn note(&mut self, place: usize) -> bool {
        let has_noted = self.behind.push(place).is_ok();
        self.looks_at_all = self.looks_at_all || !has_noted;
        has_noted
    }

    /// The connection may be sent something unasked. Without memory it is to be told again, in the
    /// next round. Whether it is not.
    pub fn hang(&mut self, id: u64, place: usize) -> bool {
        let has_hung = self.hung.push(Hung { id, place }).is_ok();
        self.looks_at_all = self.looks_at_all || !has_hung;
        has_hung
    }

    pub fn take_down(&mut self, place: usize) {
        if let Some(at) = self.hung.iter().position(|it| it.place == place) {
            self.hung.swap_remove(at);
        }
    }

    /// A SHUTDOWN ran, and all are served until they have ended.
    pub fn stop(&mut self) {
        self.has_stopped = true;
    }

    /// Goes through those that are served in this round, or through all places, which are so many,
    /// where all are. How many.
    pub fn begin_round(&mut self, all: usize) -> usize {
        self.places.clear();
        self.takes_all = mem::replace(&mut self.looks_at_all, false) || self.has_stopped;
        if self.takes_all {
            return all;
        }
        mem::swap(&mut self.places, &mut self.next);
        self.places.len()
    }

    /// Goes through those whose bytes wait to be written. How many.
    pub fn begin_flush(&mut self) -> usize {
        self.places.clear();
        self.takes_all = false;
        mem::swap(&mut self.places, &mut self.behind);
        self.places.len()
    }

    /// Goes through those that were sent something since this was last called. How many.
    pub fn begin_calls(&mut self) -> usize {
        self.places.clear();
        self.takes_all = false;
        let called = match &self.calling {
            Some(calling) => calling.take(),
            None => Called::NONE,
        };
        if called.is_empty() {
            return 0;
        }
        for hung in self.hung.iter() {
            if called.has(hung.id) && self.places.push(hung.place).is_err() {
                self.looks_at_all = true;
            }
        }
        self.places.len()
    }

    /// The place at this number of those that are gone through.
    pub fn place(&self, number: usize) -> usize {
        if self.takes_all {
            return number;
        }
        match self.places.get(number) {
            Some(place) => *place,
            None => NOWHERE,
        }
    }

    /// How many signs the last wait brought.
    pub fn signs(&self) -> usize {
        match &self.lookout {
            Some(lookout) => lookout.signs().len(),
            None => 0,
        }
    }

    pub fn sign(&self, number: usize) -> Option<Sign> {
        let lookout = self.lookout.as_ref()?;
        lookout.signs().get(number).copied()
    }

    /// Whether it is time to look after what no sign tells of, at this moment in milliseconds.
    pub fn is_time(&mut self, now: u64) -> bool {
        let is_time = self.was_quiet
            || self.lookout.is_none()
            || now < self.looked_at
            || now - self.looked_at >= PAUSE;
        if is_time {
            self.looked_at = now;
        }
        is_time
    }

    /// Waits until somebody is there, a connection is ready, the worker is called, or it is time
    /// to look. Without a lookout it doesn't wait.
    pub fn wait(&mut self, has_left: bool) {
        let most = self.pause(has_left);
        let Some(lookout) = &mut self.lookout else {
            return;
        };
        lookout.wait(most);
        let was_called = match &self.calling {
            Some(calling) => calling.wake_up(),
            None => false,
        };
        self.may_come = self.may_come || lookout.has_caller();
        self.was_quiet = most > 0
            && !was_called
            && lookout.signs().is_empty()
            && !lookout.has_caller();
    }

    fn pause(&self, has_left: bool) -> u64 {
        let is_busy = self.looks_at_all || !self.next.is_empty() || (self.may_come && !has_left);
        if is_busy {
            return 0;
        }
        if let Some(calling) = &self.calling {
            if !calling.may_sleep() {
                return 0;
            }
        }
        if self.has_stopped || !self.lingering.is_empty() {
            SHORT_PAUSE
        } else {
            PAUSE
        }
    }
}

impl<K: Watched + Drop> Hints<K> {
    /// Keeps the link until its bytes are written, where some are left.
    pub fn linger(&mut self, mut link: K) {
        if !link.is_behind() {
            return;
        }
        if let Some(lookout) = &self.lookout {
            // Its place may be another's from now on.
            link.watch(lookout, NOWHERE);
        }
        // Without memory they are lost.
        let _ = self.lingering.push(link);
    }

    pub fn has_lingering(&self) -> bool {
        !self.lingering.is_empty()
    }

    /// Writes what the links have left that are served no longer, as far as it is taken at once.
    pub fn flush(&mut self, now: u64) {
        if self.lingering.is_empty() {
            return;
        }
        let links = mem::replace(&mut self.lingering, Vec::new(self.alloc));
        for mut link in links {
            link.flush(now);
            if link.is_behind() {
                let _ = self.lingering.push(link);
            }
        }
    }
}
