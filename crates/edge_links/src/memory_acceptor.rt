//! An acceptor in memory, which plays its steps in order.
ghost use Rattle.std.specs.Prelude.{◌≡◌};
ghost use Rattle.std.specs.declared.option.Option.TheVariants.{Some};
ghost use Rattle.edge_links.specs.Counts.{nought};
ghost use Rattle.edge_links.specs.MemoryLinks.{step_links};

use super::counts::Counts;
use super::links::{Accepted, Acceptor, Link};
use super::memory_link::MemoryLink;
use std::collections::VecDeque;

/// What an accept of an acceptor in memory comes to.
#[derive(Debug, Drop)]
pub enum AcceptStep {
    /// The link comes, with its counts at 0.
    Came(MemoryLink),
    Idle,
    Fail,
}

/// Plays its steps and is then closed.
#[derive(Debug, Drop)]
pub struct MemoryAcceptor {
    steps: VecDeque<AcceptStep>,
    counts: Counts,
}

impl MemoryAcceptor {
    pub fn new(steps: Vec<AcceptStep>) -> Self
        ensures links { step_links result.steps.items ≡ step_links steps.items }
        ensures counts { ⟦<MemoryAcceptor as Acceptor>⟧.counts result ≡ nought }
    {
        MemoryAcceptor {
            steps: VecDeque::from(steps),
            counts: Counts::new(),
        }
    }

    pub(crate) fn begin_anew(&mut self)
        ensures same { self.new.steps ≡ self.old.steps }
        ensures counts { self.new.counts ≡ nought }
    {
        self.counts = Counts::new();
    }
}

impl Acceptor for MemoryAcceptor {
    type Link = MemoryLink;

    ghost left = { λ a. Some (step_links a.steps.items) };

    ghost counts = { λ a. a.counts };

    fn accept(&mut self) -> Accepted<MemoryLink> {
        match self.steps.pop_front() {
            Some(AcceptStep::Came(mut link)) => {
                link.begin_anew();
                Accepted::Came(link)
            }
            Some(AcceptStep::Idle) => {
                self.counts.idle();
                Accepted::Idle
            }
            Some(AcceptStep::Fail) => {
                self.counts.fault();
                Accepted::Failed
            }
            None => {
                self.counts.end();
                Accepted::Closed
            }
        }
    }
}
