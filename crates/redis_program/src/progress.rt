//! How far a storm is, for a person who waits for it.
use edge_links::Clock;
use std::io::IsTerminal;
use storm_run::Watch;

/// Prints on standard error, and knows whether a person reads that.
pub trait Terminal: Eprint {
    fn is_watched(&self) -> bool;
}

impl Terminal for HostRuntime {
    fn is_watched(&self) -> bool {
        self.stderr().is_terminal()
    }
}

/// How many events are played between two looks at the clock.
const EVENTS_A_LOOK: u64 = 256;

/// Says once a second how many events of a storm were played, where a person reads it. What can't
/// be written is left out.
#[derive(Drop)]
pub struct Progress<'a, R, C> {
    rt: &'a R,
    clock: &'a C,
    /// When the next line is due, in milliseconds. There is none where nobody reads it.
    due: Option<u64>,
}

impl<'a, R: Terminal, C: Clock> Progress<'a, R, C> {
    pub fn new(rt: &'a R, clock: &'a C) -> Self {
        let due = rt.is_watched().then(|| clock.now_ms().saturating_add(1000));
        Progress { rt, clock, due }
    }
}

impl<'a, R: Terminal, C: Clock> Watch for Progress<'a, R, C> {
    fn played(&mut self, events: u64) {
        let Some(due) = self.due else {
            return;
        };
        if events % EVENTS_A_LOOK != 0 {
            return;
        }
        let now = self.clock.now_ms();
        if now >= due {
            self.due = Some(now.saturating_add(1000));
            let _ = eprintln!(self.rt; "zeovalki: {events} events played");
        }
    }
}
