// A step once its row is solved: the whole page is tested (26, 20, 21), then the report is altered and its page delivered. Nothing is tested after the first change.
#![tactic(auto)]

ghost use Rattle.std.specs.Prelude.{◌≡◌, List, [], ◌∷◌, map, ℕ, ◌+◌, ◌-◌, ◌≤◌, ◌<◌, length, take};
ghost use Rattle.cost.specs.Cost.{Cost};
ghost use Rattle.cost.specs.Value.{value};
ghost use Rattle.layout.specs.Report.{whole_cost};
ghost use Rattle.report.specs.Report.{insert_at, remove_at};
ghost use Rattle.report.specs.Memory.{cost_at, page_length, span_count, sum_of};
ghost use Rattle.report_rows.specs.Costs.{CostTold};
ghost use Rattle.report_settle.specs.Verdicts.{Judged, VerdictRoom, Removable, refusal_of, head_with, needs_with, page_of};
ghost use Rattle.report_settle.specs.Settled.{Settling, InsertionSettled, Removing, RemovalSettled, Inserting, Settled};

use cost::{ConsumerCost, Reason};
use render::page::{Page, Refusal, Rendered};
use report_edit::{RowPage, take_in, take_out};
use report_gate::Head;
use report_page::deliver;
use report_rows::{between, cost_after, entry_at, starts};
use solve_workspace::{Bounds, Needs};
use stats::SolveStats;

// A step's answer, and the report's head after it.
#[derive(Clone, Copy)]
pub struct Step {
    pub answer: Rendered,
    pub head: Head,
}

// The whole page: its cost, its bytes, its spans.
#[derive(Clone, Copy)]
pub struct Whole {
    pub cost: ConsumerCost,
    pub bytes: usize,
    pub spans: usize,
}

// Why the whole page does not pass: the number of its refusal, and the size that is needed there, else 0.
#[derive(Clone, Copy)]
pub struct Lack {
    pub number: u32,
    pub needed: u64,
}

// ---- the whole page is tested

fn judge(
    b: Bounds,
    cost: Result<ConsumerCost, Reason>,
    bytes: usize,
    spans: usize,
) -> Result<Whole, Lack>
    ensures { (c : Cost) → CostTold c cost → Judged c b.output b.spans bytes spans result }
{
    match cost {
        Err(_) => Err(Lack {
            number: 26,
            needed: 0,
        }),
        Ok(_) if (b.output as usize) < bytes => Err(Lack {
            number: 20,
            needed: bytes as u64,
        }),
        Ok(_) if (b.spans as usize) < spans => Err(Lack {
            number: 21,
            needed: spans as u64,
        }),
        Ok(cost) => Ok(Whole { cost, bytes, spans }),
    }
}

// The cost of the whole page with one row more.
fn cost_with(
    newline_cost: u32,
    rows: usize,
    table: &[[u64; 8]],
    cost: ConsumerCost,
) -> Result<ConsumerCost, Reason>
    requires { (rows ≤ 1024) × (rows ≤ length table.now) }
    ensures { (place : ℕ) → place ≤ rows → CostTold (whole_cost newline_cost (insert_at place (value cost ∷ []) (map cost_at (take rows table.now)))) result }
{
    let start = between(newline_cost, rows + 1).checked_add(cost)?;
    cost_after(table, rows, rows, start)
}

// The cost of the whole page with one row less.
fn cost_without(
    newline_cost: u32,
    rows: usize,
    place: usize,
    table: &[[u64; 8]],
) -> Result<ConsumerCost, Reason>
    requires { (rows ≤ 1024) × (rows ≤ length table.now) × (place < rows) }
    ensures { CostTold (whole_cost newline_cost (remove_at place 1 (map cost_at (take rows table.now)))) result }
{
    cost_after(table, rows, place, between(newline_cost, rows - 1))
}

fn insertion_verdict(b: Bounds, h: Head, page: RowPage, table: &[[u64; 8]]) -> Result<Whole, Lack>
    requires { VerdictRoom h page table.now }
    ensures { (place : ℕ) → place ≤ h.rows → Judged (whole_cost h.newline_cost (insert_at place (value page.cost ∷ []) (map cost_at (take h.rows table.now)))) b.output b.spans (sum_of page_length (take h.rows table.now) + page.length + h.rows) (sum_of span_count (take h.rows table.now) + page.spans) result }
{
    let count = h.rows as usize;
    let used = starts(table, count);
    let cost = cost_with(h.newline_cost, count, table, page.cost);
    let bytes = used.pages + page.length + count;
    let spans = used.marks + page.spans;
    judge(b, cost, bytes, spans)
}

fn removal_verdict(b: Bounds, h: Head, place: usize, table: &[[u64; 8]]) -> Result<Whole, Lack>
    requires { Removable h place table.now }
    ensures { Judged (whole_cost h.newline_cost (remove_at place 1 (map cost_at (take h.rows table.now)))) b.output b.spans (sum_of page_length (remove_at place 1 (take h.rows table.now)) + (h.rows - 1 - 1)) (sum_of span_count (remove_at place 1 (take h.rows table.now))) result }
{
    let count = h.rows as usize;
    let used = starts(table, count);
    let gone = entry_at(table, place);
    let cost = cost_without(h.newline_cost, count, place, table);
    let bytes = used.pages - gone.page + (count - 1).saturating_sub(1);
    let spans = used.marks - gone.spans;
    judge(b, cost, bytes, spans)
}

// ---- answers

pub fn refused_step(number: u32, needed: u64, stats: SolveStats, h: Head) -> Step
    ensures { result ≡ refusal_of number needed stats h }
{
    Step {
        answer: Err(Refusal {
            number,
            needed,
            stats,
        }),
        head: h,
    }
}

fn with_rows(h: Head, rows: u32) -> Head
    ensures { result ≡ head_with h rows }
{
    Head { rows, ..h }
}

// The row's needs, but of output and spans the whole page's.
fn whole_needs(needs: Needs, bytes: usize, spans: usize) -> Needs
    ensures { result ≡ needs_with needs bytes spans }
{
    Needs {
        output: solve_workspace::narrow(bytes as u64),
        spans: solve_workspace::narrow(spans as u64),
        ..needs
    }
}

fn page_step(w: Whole, stats: SolveStats, needs: Needs, h: Head, rows: u32) -> Step
    ensures { result ≡ page_of w stats needs h rows }
{
    Step {
        answer: Ok(Page {
            cost: w.cost,
            length: w.bytes,
            spans: w.spans,
            stats,
            needs: whole_needs(needs, w.bytes, w.spans),
        }),
        head: with_rows(h, rows),
    }
}

// ---- the report is altered

// A row that is solved comes in, if the whole page passes.
fn settle_page(
    place: usize,
    b: Bounds,
    h: Head,
    page: RowPage,
    stats: SolveStats,
    needs: Needs,
    file: &[u8],
    row: &[u8],
    row_spans: &[[u64; 4]],
    table: &mut [[u64; 8]],
    files: &mut [u8],
    pages: &mut [u8],
    marks: &mut [[u32; 4]],
    output: &mut [u8],
    spans: &mut [[u64; 4]],
) -> Step
    requires { Inserting place b h page stats file.now row.now row_spans.now table.old files.old pages.old marks.old output.old spans.old }
    ensures { InsertionSettled place b h page stats needs file.now row.now row_spans.now table.old table.new files.old files.new pages.old pages.new marks.old marks.new output.old output.new spans.old spans.new result }
{
    match insertion_verdict(b, h, page, table) {
        Err(lack) => refused_step(lack.number, lack.needed, stats, h),
        Ok(whole) => {
            let count = h.rows as usize;
            take_in(
                place, count, page, h.rule, file, row, row_spans, table, files, pages, marks,
            );
            deliver(count + 1, table, pages, marks, output, spans);
            page_step(whole, stats, needs, h, h.rows + 1)
        }
    }
}

// The row at a place goes, if the whole page then passes.
pub fn settle_removal(
    place: usize,
    b: Bounds,
    h: Head,
    table: &mut [[u64; 8]],
    files: &mut [u8],
    pages: &mut [u8],
    marks: &mut [[u32; 4]],
    output: &mut [u8],
    spans: &mut [[u64; 4]],
) -> Step
    requires { Removing place b h table.old files.old pages.old marks.old output.old spans.old }
    ensures { RemovalSettled place b h table.old table.new files.old files.new pages.old pages.new marks.old marks.new output.old output.new spans.old spans.new result }
{
    match removal_verdict(b, h, place, table) {
        Err(lack) => refused_step(lack.number, lack.needed, SolveStats::ZERO, h),
        Ok(whole) => {
            let count = h.rows as usize;
            let none = Needs {
                stack: 0,
                memo: 0,
                kept: 0,
                frontier: 0,
                plans: 0,
                visit: 0,
                depth: 0,
                output: 0,
                spans: 0,
            };
            take_out(place, count, table, files, pages, marks);
            deliver(count - 1, table, pages, marks, output, spans);
            page_step(whole, SolveStats::ZERO, none, h, h.rows - 1)
        }
    }
}

// What becomes of an insertion once the single call on its file has answered.
pub fn settle(
    place: usize,
    b: Bounds,
    h: Head,
    a: Rendered,
    file: &[u8],
    row: &[u8],
    row_spans: &[[u64; 4]],
    table: &mut [[u64; 8]],
    files: &mut [u8],
    pages: &mut [u8],
    marks: &mut [[u32; 4]],
    output: &mut [u8],
    spans: &mut [[u64; 4]],
) -> Step
    requires { Settling place b h a file.now row.now row_spans.now table.old files.old pages.old marks.old output.old spans.old }
    ensures { Settled place b h a file.now row.now row_spans.now table.old table.new files.old files.new pages.old pages.new marks.old marks.new output.old output.new spans.old spans.new result }
{
    match a {
        Err(refusal) => refused_step(refusal.number, refusal.needed, refusal.stats, h),
        Ok(page) => {
            let own = RowPage {
                cost: page.cost,
                length: page.length,
                spans: page.spans,
            };
            settle_page(
                place, b, h, own, page.stats, page.needs, file, row, row_spans, table, files,
                pages, marks, output, spans,
            )
        }
    }
}
