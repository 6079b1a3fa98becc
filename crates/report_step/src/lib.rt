// The steps of a live report for a desk (document 02, changes 2 and 8). Neither asks anything of its caller: memory that holds no report, or is lent too short, is refused by 1.
#![tactic(auto)]

ghost use Rattle.std.specs.Prelude.{◌≡◌, ◌≤◌, length};
ghost use Rattle.stats.specs.Counts.{none_counted};
ghost use Rattle.render.specs.Call.{lengths};
ghost use Rattle.report.specs.Report.{insert as inserting, remove as removing};
ghost use Rattle.desks.specs.Desks.{remaining, charged};
ghost use Rattle.desks.specs.Lent.{work_in};
ghost use Rattle.report_gate.specs.Gates.{InsertionLent, RemovalLent};
ghost use Rattle.report_settle.specs.Verdicts.{refusal_of};
ghost use Rattle.report_settle.specs.Settled.{stores};
ghost use Rattle.report_step.specs.Stepping.{with_desks, Stepping};

use desks::{Desks, allowed, charged, work_of};
use render::call::render_core;
use render::order::Lengths;
use render::page::Rendered;
use report_gate::{Head, Stores, insert_gate, options_of, remove_gate};
use report_rows::sum_rows;
use report_settle::{Step, refused_step, settle, settle_removal};
use solve_workspace::Bounds;
use stats::SolveStats;

// A step's answer, the report's head and the desks after it.
#[derive(Clone, Copy)]
pub struct DeskStep {
    pub answer: Rendered,
    pub head: Head,
    pub desks: Desks,
}

fn with_desks(s: Step, d: Desks) -> DeskStep
    ensures { result ≡ with_desks s d }
{
    DeskStep {
        answer: s.answer,
        head: s.head,
        desks: d,
    }
}

// A step with its work charged.
fn charged_step(s: Step, desk: u32, d: Desks) -> DeskStep
    requires { work_in s.answer ≤ remaining d desk }
    ensures { result ≡ with_desks s (charged d desk (work_in s.answer)) }
{
    with_desks(s, charged(d, desk, work_of(s.answer)))
}

// A step that the gate refuses.
fn shut_step(number: u32, h: Head, d: Desks) -> DeskStep
    ensures { result ≡ with_desks (refusal_of number 0 none_counted h) d }
{
    with_desks(refused_step(number, 0, SolveStats::ZERO, h), d)
}

// A file comes in at a place: the single call on it, into row output and row spans; then the whole page. table, files, pages and marks are the report's own memory; output and spans take the
// whole page; all else that is lent by `&mut` is tables and working memory, which may hold anything before and after.
pub fn insert(
    desk: u32,
    desks: Desks,
    place: usize,
    file: &[u8],
    b: Bounds,
    h: Head,
    table: &mut [[u64; 8]],
    files: &mut [u8],
    pages: &mut [u8],
    marks: &mut [[u32; 4]],
    output: &mut [u8],
    spans: &mut [[u64; 4]],
    nodes: &mut [[u32; 8]],
    edges: &mut [u32],
    choices: &mut [u32],
    texts: &mut [[u32; 3]],
    bytes: &mut [u8],
    tasks: &mut [[u32; 9]],
    results: &mut [[u32; 2]],
    pending: &mut [[u64; 7]],
    index: &mut [u64],
    entries: &mut [[u64; 6]],
    kept: &mut [[u64; 6]],
    frontier: &mut [u64],
    plans: &mut [[u32; 3]],
    visit: &mut [usize],
    depth: &mut [usize],
    row_output: &mut [u8],
    row_spans: &mut [[u64; 4]],
) -> DeskStep
    ensures { Stepping (inserting place file.now) (InsertionLent h b (length file.now) table.old (stores files.old pages.old marks.old output.old spans.old) (lengths nodes.old edges.old choices.old texts.old bytes.old tasks.old results.old pending.old index.old entries.old kept.old frontier.old plans.old visit.old depth.old row_output.old row_spans.old)) desk desks b h table.old table.new files.old files.new pages.old pages.new marks.old marks.new output.old output.new spans.old spans.new result }
{
    let l = Lengths {
        nodes: nodes.len(),
        edges: edges.len(),
        choices: choices.len(),
        texts: texts.len(),
        bytes: bytes.len(),
        tasks: tasks.len(),
        results: results.len(),
        pending: pending.len(),
        index: index.len(),
        entries: entries.len(),
        kept: kept.len(),
        frontier: frontier.len(),
        plans: plans.len(),
        visit: visit.len(),
        depth: depth.len(),
        output: row_output.len(),
        spans: row_spans.len(),
    };
    let k = Stores {
        files: files.len(),
        pages: pages.len(),
        marks: marks.len(),
        output: output.len(),
        spans: spans.len(),
    };
    let s = sum_rows(h.rows as usize, table, k.files, k.pages, k.marks);
    let gate = insert_gate(desk, place, file.len(), h, b, s, k, l);
    if gate != 0 {
        return shut_step(gate, h, desks);
    }
    let o = options_of(h);
    let c = allowed(desks, desk, b);
    let a = render_core(
        file, o, c, nodes, edges, choices, texts, bytes, tasks, results, pending, index, entries,
        kept, frontier, plans, visit, depth, row_output, row_spans,
    );
    let t = settle(
        place, c, h, a, file, row_output, row_spans, table, files, pages, marks, output, spans,
    );
    charged_step(t, desk, desks)
}

// The row at a place goes. Nothing is solved, so no working memory is lent, and no work is charged.
pub fn remove(
    desk: u32,
    desks: Desks,
    place: usize,
    b: Bounds,
    h: Head,
    table: &mut [[u64; 8]],
    files: &mut [u8],
    pages: &mut [u8],
    marks: &mut [[u32; 4]],
    output: &mut [u8],
    spans: &mut [[u64; 4]],
) -> DeskStep
    ensures { Stepping (removing place) (RemovalLent h b table.old (stores files.old pages.old marks.old output.old spans.old)) desk desks b h table.old table.new files.old files.new pages.old pages.new marks.old marks.new output.old output.new spans.old spans.new result }
{
    let k = Stores {
        files: files.len(),
        pages: pages.len(),
        marks: marks.len(),
        output: output.len(),
        spans: spans.len(),
    };
    let s = sum_rows(h.rows as usize, table, k.files, k.pages, k.marks);
    let gate = remove_gate(desk, place, h, b, s, k);
    if gate != 0 {
        return shut_step(gate, h, desks);
    }
    let t = settle_removal(place, b, h, table, files, pages, marks, output, spans);
    with_desks(t, desks)
}
