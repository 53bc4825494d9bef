//! The lines of reports, and of their totals.
ghost use Rattle.std.specs.Prelude.{◌≡◌, ◌++◌, ℕ, List, IfOk, OnOk, OnErr, string_bytes};
ghost use Rattle.resp_value.specs.Lists.{IsPrefix};
ghost use Rattle.conn_worker.specs.declared.report.Report.{Report};
ghost use Rattle.conn_pool.specs.declared.totals.EndTotal.{EndTotal};
ghost use Rattle.serve_run.specs.Reports.{IsBegun, lines_of, report_line, report_text};
ghost use Rattle.serve_run.specs.Reports.{tally_line, total_line, total_text};

use conn_pool::{EndTotal, Kept, Reports};
use conn_worker::Report;
use resp_value::NoMemory;
use std::alloc::Global;

fn report_line(alloc: Global, report: &Report) -> Result<String, NoMemory>
    ensures { IfOk result (λ s. string_bytes s ≡ report_line report.now) }
{
    let id = report.id;
    let ended = report.ended.number();
    let requests = report.requests;
    Ok(format!(in alloc; "connection {id} ended {ended} requests {requests}\n")?)
}

fn put_report(alloc: Global, report: &Report, text: &mut Vec<u8>) -> Result<(), NoMemory>
    ensures ok { OnOk result (text.new.items ≡ text.old.items ++ report_line report.now) }
    ensures err { OnErr result (text.new.items ≡ text.old.items) }
{
    let line = report_line(alloc, report)?;
    text.extend_from_slice(line.as_bytes())?;
    Ok(())
}

// Appends a line for each report, in their order. Where memory runs out, those of the first of
// them may have been appended.
#[tactic(auto, unfolding(crate::specs::Reports::report_text))]
fn put_reports(alloc: Global, reports: &[Report], text: &mut Vec<u8>) -> Result<(), NoMemory>
    ensures ok { OnOk result (text.new.items ≡ text.old.items ++ report_text reports.now) }
    ensures err { OnErr result
        ((first : List Report) × IsPrefix first reports.now
        × (text.new.items ≡ text.old.items ++ report_text first)) }
{
    for report in reports {
        put_report(alloc, report, text)?;
    }
    Ok(())
}

fn tally_line(alloc: Global, end: u8, total: EndTotal) -> Result<String, NoMemory>
    ensures { IfOk result (λ s. string_bytes s ≡ tally_line (end, total)) }
{
    let connections = total.connections;
    let requests = total.requests;
    Ok(format!(in alloc; "ended {end} connections {connections} requests {requests}\n")?)
}

// Nothing where none ended so.
fn put_total(alloc: Global, total: &(u8, EndTotal), text: &mut Vec<u8>) -> Result<(), NoMemory>
    ensures ok { OnOk result (text.new.items ≡ text.old.items ++ total_line total.now) }
    ensures err { OnErr result (text.new.items ≡ text.old.items) }
{
    let (end, total) = *total;
    if total.connections == 0 {
        return Ok(());
    }
    let line = tally_line(alloc, end, total)?;
    text.extend_from_slice(line.as_bytes())?;
    Ok(())
}

// Appends a line for each way in which a connection ended, as `put_reports` does.
#[tactic(auto, unfolding(crate::specs::Reports::total_text))]
fn put_totals(alloc: Global, totals: &[(u8, EndTotal)], text: &mut Vec<u8>) -> Result<(), NoMemory>
    ensures ok { OnOk result (text.new.items ≡ text.old.items ++ total_text totals.now) }
    ensures err { OnErr result
        ((first : List (ℕ × EndTotal)) × IsPrefix first totals.now
        × (text.new.items ≡ text.old.items ++ total_text first)) }
{
    for total in totals {
        put_total(alloc, total, text)?;
    }
    Ok(())
}

/// Appends a line for each report, where each was kept, and else one for each way in which some
/// ended. Where memory runs out, the first of them may have been appended.
pub fn put_lines(alloc: Global, reports: &Reports, text: &mut Vec<u8>) -> Result<(), NoMemory>
    ensures ok { OnOk result (text.new.items
        ≡ text.old.items ++ lines_of reports.now.each reports.now.items) }
    ensures err { OnErr result
        (IsBegun reports.now.each reports.now.items text.old.items text.new.items) }
{
    match reports.kept() {
        Kept::Each(reports) => put_reports(alloc, reports.as_slice(), text),
        Kept::Totals(totals) => put_totals(alloc, &totals.by_end(), text),
    }
}
