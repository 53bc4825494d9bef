//! The reports of the connections that came and went.
ghost use Rattle.std.specs.Prelude.{◌≡◌, ◌++◌, ◌∷◌, [], ◌<◌, length, is_ok, OnOk};
ghost use Rattle.std.specs.Prelude.{if◌then◌else◌};
ghost use Rattle.std.specs.List.Sorted.{IsPermutation};
ghost use Rattle.conn_pool.specs.Orders.{AreInOrder};
ghost use Rattle.conn_pool.specs.Reported.{IsKept, keeps_each};

use super::all_reports::AllReports;
use super::totals::Totals;
use conn_worker::Report;
use resp_value::NoMemory;
use std::alloc::Global;
use std::marker::Model;

/// What is in memory of reports.
#[derive(Drop)]
pub enum Kept {
    Each(Vec<Report>),
    /// No memory is taken for a report.
    Totals(Totals),
}

/// Reports. Contracts see the list of them all, whatever is kept of it.
#[derive(Drop)]
pub struct Reports {
    kept: Kept,
    all: AllReports,
}

impl Model for Reports {
    ghost use Rattle.conn_pool.specs.Reported.{IsKept, Reported, keeps_each, room_in};

    ghost Value = { Reported };

    ghost view = { λ r. record {
      items = r.all;
      each = keeps_each r.kept;
      room = room_in r.kept;
    } };

    ghost invariant = { λ r. IsKept r.kept r.all };
}

impl Reports {
    /// No reports yet, each of which will be kept, or their totals alone.
    #[tactic(auto, using(crate::proofs::Adding::kept))]
    pub fn new(alloc: Global, each: bool) -> Self
        ensures items { result.items ≡ [] }
        ensures each { result.each ≡ each }
    {
        let kept = if each {
            Kept::Each(Vec::new(alloc))
        } else {
            Kept::Totals(Totals::new())
        };
        Reports {
            kept,
            all: AllReports::none(),
        }
    }

    /// No reports yet, kept as these are.
    pub fn new_alike(&self, alloc: Global) -> Self
        ensures items { result.items ≡ [] }
        ensures each { result.each ≡ self.now.each }
    {
        Reports::new(alloc, matches!(self.kept, Kept::Each(_)))
    }

    /// Makes room for one more.
    pub fn reserve(&mut self) -> Result<(), NoMemory>
        ensures items { self.new.items ≡ self.old.items }
        ensures each { self.new.each ≡ self.old.each }
        ensures ok { OnOk result (0 < self.new.room) }
    {
        match &mut self.kept {
            Kept::Each(reports) => Ok(reports.reserve(1)?),
            Kept::Totals(_) => Ok(()),
        }
    }

    /// Adds a report. It takes no memory.
    #[tactic(auto, using(crate::proofs::Adding::kept))]
    pub fn push(&mut self, report: Report)
        requires { 0 < self.old.room }
        ensures items { self.new.items ≡ self.old.items ++ report ∷ [] }
        ensures each { self.new.each ≡ self.old.each }
    {
        self.all.record(&report);
        match &mut self.kept {
            Kept::Each(reports) => reports.push_reserved(report),
            Kept::Totals(totals) => totals.add(&report),
        }
    }

    /// Adds the reports of another, which are kept alike.
    #[tactic(auto, using(crate::proofs::Adding::kept))]
    pub fn append(&mut self, other: Reports) -> Result<(), NoMemory>
        requires { other.each ≡ self.old.each }
        ensures items { self.new.items ≡ (if is_ok result then self.old.items ++ other.items
            else self.old.items) }
        ensures each { self.new.each ≡ self.old.each }
    {
        let Reports { kept, all } = other;
        match (&mut self.kept, kept) {
            (Kept::Each(mine), Kept::Each(mut theirs)) => mine.append(&mut theirs)?,
            (Kept::Totals(mine), Kept::Totals(theirs)) => mine.merge(&theirs),
            _ => unreachable!(),
        }
        self.all.append(&all);
        Ok(())
    }

    /// The same reports in order of their ids.
    #[tactic(auto, using(crate::proofs::Adding::kept))]
    pub fn in_order(self) -> Self
        ensures same { IsPermutation self.items result.items }
        ensures length { length result.items ≡ length self.items }
        ensures order { AreInOrder result.items }
        ensures each { result.each ≡ self.each }
    {
        let Reports { kept, all } = self;
        match kept {
            Kept::Each(reports) => {
                let sorted = sorted(reports);
                let all = AllReports::of(&sorted);
                Reports {
                    kept: Kept::Each(sorted),
                    all,
                }
            }
            Kept::Totals(totals) => Reports {
                kept: Kept::Totals(totals),
                all: all.in_order(),
            },
        }
    }

    /// What is in memory of them.
    pub fn kept(&self) -> &Kept
        ensures kept { IsKept result.now self.now.items }
        ensures each { keeps_each result.now ≡ self.now.each }
    {
        &self.kept
    }
}

// The reports in order of their ids.
fn sorted(mut reports: Vec<Report>) -> Vec<Report>
    ensures same { IsPermutation reports.items result.items }
    ensures length { length result.items ≡ length reports.items }
    ensures order { AreInOrder result.items }
{
    reports.sort_unstable_by_key(|report| report.id);
    reports
}
