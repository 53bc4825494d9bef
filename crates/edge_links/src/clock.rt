//! A clock that gives the moment, the system's or one that is fixed.
ghost use Rattle.std.specs.Prelude.{◌≡◌, ℕ, IfSome};
ghost use Rattle.std.specs.declared.option.Option.{Option};
ghost use Rattle.std.specs.declared.option.Option.TheVariants.{None, Some};

use std::time;

/// The milliseconds since 1970 began.
pub trait Clock {
    /// The moment, where it is known.
    ghost moment: { Self → Option ℕ };

    fn now_ms(&self) -> u64
        ensures { IfSome (moment self.now) (λ m. result ≡ m) };
}

/// A clock that always gives the same moment.
#[derive(Clone, Copy, Debug, Drop)]
pub struct FixedClock {
    pub ms: u64,
}

impl Clock for FixedClock {
    ghost moment = { λ c. Some c.ms };

    fn now_ms(&self) -> u64 {
        self.ms
    }
}

/// The system's clock, whose moment no contract knows. One that cannot be read gives 0.
#[derive(Drop)]
pub struct SystemClock<R> {
    rt: R,
}

impl<R: time::Clock> SystemClock<R> {
    pub fn new(rt: R) -> Self {
        SystemClock { rt }
    }
}

impl<R: time::Clock> Clock for SystemClock<R> {
    ghost moment = { λ _. None };

    fn now_ms(&self) -> u64 {
        match self.rt.since_1970() {
            Ok(time) => u64::try_from(time.as_millis()).unwrap_or(u64::MAX),
            Err(_) => 0,
        }
    }
}
