//! The list of all reports. Only proofs read it.
ghost use Rattle.std.specs.Prelude.{◌≡◌, ◌++◌, ◌∷◌, [], List, length};
ghost use Rattle.std.specs.List.Sorted.{IsPermutation};
ghost use Rattle.conn_worker.specs.declared.report.Report.{Report};
ghost use Rattle.conn_pool.specs.Orders.{AreInOrder};

use conn_worker::Report;
use std::marker::{Brand, Model};

/// A list that the proof of a call picks.
trait Picking {
    ghost picked: { List Report };
}

impl Picking for Brand {
    ghost picked = { [] };
}

/// All reports. It takes no bytes. Contracts see the list of them.
#[derive(Drop)]
pub struct AllReports {
    // A private field, so that the type is made in this file alone.
    seal: (),
    ghost reports: { List Report },
}

impl Model for AllReports {
    ghost use Rattle.std.specs.Prelude.{List};
    ghost use Rattle.std.specs.Borrow.{ftrue};
    ghost use Rattle.conn_worker.specs.declared.report.Report.{Report};

    ghost Value = { List Report };

    ghost view = { λ a. a.reports };

    ghost also_owns = { λ _. ftrue };
}

// It owns nothing.
unsafe impl Send for AllReports {}

unsafe impl Sync for AllReports {}

// The list that the proof of a call picks, of what is handed in. It does nothing at run time.
fn picked<X, Y, P: Picking>(x: &X, y: &Y) -> AllReports
    ensures { result ≡ P.picked }
{
    let _ = x;
    let _ = y;
    AllReports { seal: () }
}

impl AllReports {
    /// No reports.
    pub fn none() -> AllReports
        ensures { result ≡ [] }
    {
        picked::<(), (), Brand>(&(), &())
    }

    /// The list of these.
    pub fn of(reports: &Vec<Report>) -> AllReports
        ensures { result ≡ reports.now.items }
    {
        picked::<Vec<Report>, (), Brand>(reports, &())
    }

    /// Adds a report.
    pub fn record(&mut self, report: &Report)
        ensures { self.new ≡ self.old ++ report.now ∷ [] }
    {
        *self = picked::<AllReports, Report, Brand>(self, report);
    }

    /// Adds the reports of another.
    pub fn append(&mut self, other: &AllReports)
        ensures { self.new ≡ self.old ++ other.now }
    {
        *self = picked::<AllReports, AllReports, Brand>(self, other);
    }

    /// The same reports in order of their ids.
    pub fn in_order(self) -> AllReports
        ensures same { IsPermutation self result }
        ensures length { length result ≡ length self }
        ensures order { AreInOrder result }
    {
        picked::<AllReports, (), Brand>(&self, &())
    }
}
