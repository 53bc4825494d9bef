//! Which calls a turn takes, and which limits a server can have.
ghost use Rattle.std.specs.Prelude.{IsTrue, ◌↔◌};
ghost use Rattle.serial_model.specs.Steps.{AreValid, IsCallable};

use super::history::{BookCall, Limits};

impl BookCall {
    /// Whether a turn takes the call, which is where a `Take` asks for at least one byte. It is for
    /// callers whose numbers come from outside.
    pub fn is_callable(&self) -> bool
        ensures { IsTrue result ↔ IsCallable self.now }
    {
        match self {
            BookCall::Take { max, .. } => *max > 0,
            _ => true,
        }
    }
}

impl Limits {
    /// Whether a server can have these limits, which is where each is at least 1.
    pub fn are_valid(&self) -> bool
        ensures { IsTrue result ↔ AreValid self.now }
    {
        self.table_max > 0 && self.out_max > 0 && self.history_max > 0
    }
}
