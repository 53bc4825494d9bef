//! The counts of an object at the edge: faults, idle answers and ends.
ghost use Rattle.std.specs.Prelude.{◌≡◌};
ghost use Rattle.edge_links.specs.Counts.{FaultCounted, IdleCounted, EndCounted, nought};

/// How often an object failed, had nothing yet, and was at its end.
///
/// A count never falls, and one at `u64::MAX` stays there.
#[derive(Clone, Copy, Debug, PartialEq, Eq)]
pub struct Counts {
    pub faults: u64,
    pub idles: u64,
    pub ends: u64,
}

impl Counts {
    /// All at 0.
    pub fn new() -> Self
        ensures { result ≡ nought }
    {
        Counts {
            faults: 0,
            idles: 0,
            ends: 0,
        }
    }

    pub fn fault(&mut self)
        ensures { FaultCounted self.old self.new }
    {
        self.faults = self.faults.saturating_add(1);
    }

    pub fn idle(&mut self)
        ensures { IdleCounted self.old self.new }
    {
        self.idles = self.idles.saturating_add(1);
    }

    pub fn end(&mut self)
        ensures { EndCounted self.old self.new }
    {
        self.ends = self.ends.saturating_add(1);
    }
}
