ghost use Rattle.std.specs.Prelude.{◌≡◌, ◌≤◌, IfOk, Some};
ghost use Rattle.cv_core_records.specs.declared.read.ReportOutcome.TheVariants as outcome;
ghost use Rattle.cv_request.specs.Limits.{IsWithinLimits};
ghost use Rattle.cv_core_machine.specs.Answer.{Heads, Page, Report, answer_to, report_of};
ghost use Rattle.cv_core_machine.specs.Scans.{StatesEveryLayer, trees_of};
ghost use Rattle.cv_hub.specs.Events.{state_of};
ghost use Rattle.cv_serve_lanes.specs.code.RequestOrigin.{answered_read, read_by, requested_by};

use crate::request::{Query, RequestOrigin};
use cv_base::{Digest, Finding, NoMemory};
use cv_core::ReportRefusal;
use cv_core_records::{Answer, PageOutcome, ReadEntry, ReportOutcome};
use cv_desk::Desk;
use cv_hub::{Identity, View};
use cv_notice::PageError;
use cv_overlay::ImageFault;
use cv_serve_dealing::{copy_findings, copy_rows};
use std::alloc::Global;

/// The entry of a read with this answer, or that memory ran out.
pub fn read_entry<D: Desk, L: Identity>(
    view: &View<D, L>,
    origin: RequestOrigin,
    answer: Result<Answer, NoMemory>,
) -> ReadEntry
    ensures { result ≡ answered_read origin view.now.list answer }
{
    ReadEntry {
        front: view.front(),
        lane: origin.lane,
        line: origin.line,
        answer: answer.unwrap_or(Answer::NoMemory),
    }
}

/// The answer to a read, in the state that is viewed.
pub fn look_up<D: Desk, L: Identity>(
    alloc: Global,
    view: &View<D, L>,
    query: &Query,
) -> Result<Answer, NoMemory>
    requires within { IsWithinLimits (requested_by query.now) }
    ensures { StatesEveryLayer D.tree → IfOk result (λ found. found ≡ answer_to (trees_of D.tree) (state_of (trees_of D.tree) L.limits view.now.list) (read_by query.now)) }
{
    match *query {
        Query::Report(image) => report(alloc, view, image),
        Query::Page { number, size, page } => page_of(alloc, view, number, size, page),
        Query::List => list(alloc, view),
    }
}

fn report<D: Desk, L: Identity>(
    alloc: Global,
    view: &View<D, L>,
    image: Digest,
) -> Result<Answer, NoMemory>
    ensures { StatesEveryLayer D.tree → IfOk result (λ found. found ≡ answer_to (trees_of D.tree) (state_of (trees_of D.tree) L.limits view.now.list) (Report image)) }
{
    let outcome = report_outcome(alloc, view, &image)?;
    Ok(Answer::Report { image, outcome })
}

/// The report of an image, copied.
fn report_outcome<D: Desk, L: Identity>(
    alloc: Global,
    view: &View<D, L>,
    image: &Digest,
) -> Result<ReportOutcome, NoMemory>
    ensures { StatesEveryLayer D.tree → IfOk result (λ outcome. outcome ≡ report_of (trees_of D.tree) (state_of (trees_of D.tree) L.limits view.now.list) image.now) }
{
    match view.report(image) {
        Ok(report) => good(alloc, report.generation, report.findings.as_slice()),
        Err(ReportRefusal::NotRegistered) => Ok(ReportOutcome::NotRegistered),
        Err(ReportRefusal::Pending(ref layer)) => Ok(ReportOutcome::Pending(*layer)),
        Err(ReportRefusal::BadImage(fault)) => bad(fault),
    }
}

fn good(alloc: Global, generation: u64, findings: &[Finding]) -> Result<ReportOutcome, NoMemory>
    ensures { IfOk result (λ found. found ≡ outcome.Good generation findings.now) }
{
    let findings = copy_findings(alloc, findings)?;
    Ok(ReportOutcome::Good {
        generation,
        findings,
    })
}

fn bad(fault: &ImageFault) -> Result<ReportOutcome, NoMemory>
    ensures { IfOk result (λ found. found ≡ outcome.BadImage fault.now) }
{
    Ok(ReportOutcome::BadImage(fault.clone()?))
}

fn page_of<D: Desk, L: Identity>(
    alloc: Global,
    view: &View<D, L>,
    number: u64,
    size: u32,
    page: u64,
) -> Result<Answer, NoMemory>
    requires size { 1 ≤ size }
    requires page { 1 ≤ page }
    ensures { StatesEveryLayer D.tree → IfOk result (λ found. found ≡ answer_to (trees_of D.tree) (state_of (trees_of D.tree) L.limits view.now.list) (Page number size page)) }
{
    let outcome = match view.page(number, u64::from(size), page) {
        Ok(found) => PageOutcome::Rows {
            pages: found.pages,
            rows: copy_rows(alloc, found.rows)?,
        },
        Err(PageError::NoNotification) => PageOutcome::NoNotification,
        Err(PageError::NoPage { pages }) => PageOutcome::NoPage { pages },
    };
    Ok(Answer::Page {
        number,
        size,
        page,
        outcome,
    })
}

fn list<D: Desk, L: Identity>(alloc: Global, view: &View<D, L>) -> Result<Answer, NoMemory>
    ensures { StatesEveryLayer D.tree → IfOk result (λ found. found ≡ answer_to (trees_of D.tree) (state_of (trees_of D.tree) L.limits view.now.list) Heads) }
{
    Ok(Answer::List(view.list(alloc)?))
}
