// The public call in document 01's forms, for a desk (document 02, change 8): the caller lends the shared record and the list of span records, in which the materializer's second pass opens and closes.
#![tactic(auto)]

ghost use Rattle.std.specs.Prelude.{◌≡◌, ◌≤◌};
ghost use Rattle.render.specs.Call.{lengths};
ghost use Rattle.desks.specs.Desks.{remaining};
ghost use Rattle.desks.specs.Lent.{settled};
ghost use Rattle.printer.specs.Printed.{Printed};
ghost use Rattle.printer.specs.Delivered.{outcome, counts_first, start_of, start_words, Rooted, Deliverable, Delivered};

use cost::ConsumerCost;
use desk_call::plan_for;
use desks::{SharedRecord, settled};
use materialize::{Capacity, Chosen, Walk, begin_walk};
use plan::PlanId;
use records::write_records;
use render::page::{Drafted, capacity_of};
use solve_workspace::{Bounds, Needs, RenderOptions};
use spans::AnnotationSpan;
use stats::SolveStats;

// A page that stands in the caller's memory, with the sizes that just suffice for it. Its counts, as those of a refusal, stand in the lent record.
#[derive(Clone, Copy)]
pub struct PrintedPage {
    pub cost: ConsumerCost,
    pub length: usize,
    pub spans: usize,
    pub needs: Needs,
}

// Why there is no page. Where a size is too small, `needed` is the size that is needed there; else it is 0.
#[derive(Clone, Copy)]
pub struct Unprinted {
    pub number: u32,
    pub needed: u64,
}

// What a call answers.
pub type Outcome = Result<PrintedPage, Unprinted>;

// What the second pass begins with.
#[derive(Clone, Copy)]
struct Start {
    capacity: Capacity,
    chosen: Chosen,
    walk: Walk,
}

// The counts before the second pass; a refusal has all of its own.
fn counts_of(a: Drafted) -> SolveStats
    ensures { result ≡ counts_first a }
{
    match a {
        Ok(d) => d.stats,
        Err(e) => e.stats,
    }
}

fn outcome_of(a: Drafted) -> Outcome
    ensures { result ≡ outcome a }
{
    match a {
        Ok(d) => Ok(PrintedPage {
            cost: d.cost,
            length: d.length,
            spans: d.spans,
            needs: d.needs,
        }),
        Err(e) => Err(Unprinted {
            number: e.number,
            needed: e.needed,
        }),
    }
}

// A page's plan is the one item of the visit stack; for a refusal there is none, so that the second pass does nothing.
fn begin_page(a: Drafted, b: Bounds, visit: &mut [usize]) -> Start
    requires { Rooted a visit.old }
    ensures { (result ≡ start_of b a) × (visit.new ≡ start_words a visit.old) }
{
    let capacity = capacity_of(b);
    match a {
        Ok(d) => Start {
            capacity,
            chosen: Chosen {
                root: d.root,
                plans: d.plans,
                texts: d.texts,
                bytes: d.bytes,
            },
            walk: begin_walk(visit, d.root),
        },
        Err(_) => Start {
            capacity,
            chosen: Chosen {
                root: PlanId(0),
                plans: 0,
                texts: 0,
                bytes: 0,
            },
            walk: Walk {
                top: 0,
                depth: 0,
                at: 0,
                spans: 0,
                visits: 0,
            },
        },
    }
}

// What the call answers; its counts go into the record, and its work is charged.
fn settle(desk: u32, a: Drafted, stats: SolveStats, shared: &mut SharedRecord) -> Outcome
    requires { stats.work_items ≤ remaining shared.old.desks desk }
    ensures { (result ≡ outcome a) × (shared.new ≡ settled shared.old desk stats) }
{
    *shared = settled(*shared, desk, stats);
    outcome_of(a)
}

// The second half of a call: what was chosen and measured is written, in what the caller lends.
fn finish(
    desk: u32,
    a: Drafted,
    b: Bounds,
    texts: &[[u32; 3]],
    bytes: &[u8],
    plans: &[[u32; 3]],
    visit: &mut [usize],
    depth: &mut [usize],
    output: &mut [u8],
    shared: &mut SharedRecord,
    spans: &mut [AnnotationSpan],
) -> Outcome
    requires { Deliverable desk shared.old b a plans.now texts.now bytes.now visit.old depth.old output.old spans.old }
    ensures { Delivered desk shared.old a plans.now texts.now bytes.now output.old output.new spans.old spans.new shared.new result }
{
    let mut stats = counts_of(a);
    let s = begin_page(a, b, visit);
    write_records(
        s.capacity, s.chosen, s.walk, plans, texts, bytes, visit, depth, output, &mut stats, spans,
    );
    settle(desk, a, stats, shared)
}

// A file's page, or why there is none, for a desk. A page goes to the front of `output`, its spans to the front of `spans`; the counts go into the record, and the work to the desk's count, on a refusal too. All else that is lent by `&mut` is working memory.
pub fn render(
    desk: u32,
    file: &[u8],
    options: RenderOptions,
    b: Bounds,
    nodes: &mut [[u32; 8]],
    edges: &mut [u32],
    choices: &mut [u32],
    texts: &mut [[u32; 3]],
    bytes: &mut [u8],
    tasks: &mut [[u32; 9]],
    results: &mut [[u32; 2]],
    pending: &mut [[u64; 7]],
    index: &mut [u64],
    entries: &mut [[u64; 6]],
    kept: &mut [[u64; 6]],
    frontier: &mut [u64],
    plans: &mut [[u32; 3]],
    visit: &mut [usize],
    depth: &mut [usize],
    output: &mut [u8],
    shared: &mut SharedRecord,
    spans: &mut [AnnotationSpan],
) -> Outcome
    ensures { Printed desk shared.old file.now options b (lengths nodes.old edges.old choices.old texts.old bytes.old tasks.old results.old pending.old index.old entries.old kept.old frontier.old plans.old visit.old depth.old output.old spans.old) output.old output.new spans.old spans.new shared.new result }
{
    let a = plan_for(
        desk,
        shared.desks,
        file,
        options,
        b,
        nodes,
        edges,
        choices,
        texts,
        bytes,
        tasks,
        results,
        pending,
        index,
        entries,
        kept,
        frontier,
        plans,
        visit,
        depth.len(),
        output.len(),
        spans.len(),
    );
    finish(
        desk, a, b, texts, bytes, plans, visit, depth, output, shared, spans,
    )
}
