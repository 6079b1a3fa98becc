// The answer of a call, and the page of the plan that the solver has chosen: first it is measured, then written.
ghost use Rattle.std.specs.Prelude.{◌≡◌, ◌≤◌, length};
ghost use Rattle.stats.specs.Counts.{none_counted};
ghost use Rattle.machine.specs.Events.{number};
ghost use Rattle.materialize.specs.Texts.{layout, InBytes};
ghost use Rattle.materialize.specs.Answer.{why_of, Small, Lent};
ghost use Rattle.materialize.specs.Writes.{Written};
ghost use Rattle.solve.specs.Outcome.{Arranged};
ghost use Rattle.render.specs.Rendered.{refusal_with, with_counts};
ghost use Rattle.render.specs.Drafts.{capacity, chosen, page_of, Drawn, Half, refusal, page_needs, drafted, Paged};

use cost::ConsumerCost;
use materialize::{Capacity, Exhausted, Measured, measure, write};
use plan::PlanId;
use solve::{SolvedCore, SolverNeeds};
use solve_workspace::{Bounds, Needs, Why};
use stats::SolveStats;

// A page that stands in the memory lent for it, with the sizes that just suffice for it.
#[derive(Clone, Copy)]
pub struct Page {
    pub cost: ConsumerCost,
    pub length: usize,
    pub spans: usize,
    pub stats: SolveStats,
    pub needs: Needs,
}

// Why there is no page. Where a size is too small, `needed` is the size that is needed there; else it is 0.
#[derive(Clone, Copy)]
pub struct Refusal {
    pub number: u32,
    pub needed: u64,
    pub stats: SolveStats,
}

impl Refusal {
    // A refusal before the solver begins: nothing is counted yet, and no size is too small.
    pub fn uncounted(number: u32) -> Refusal
        ensures { result ≡ refusal_with number 0 none_counted }
    {
        Refusal {
            number,
            needed: 0,
            stats: SolveStats::ZERO,
        }
    }
}

// What a call answers.
pub type Rendered = Result<Page, Refusal>;

// A page that is chosen and measured, but not written. Its counts are the solver's, without the visits. Its layout is the plan `root` of the first `plans` plan records,
// over the first `texts` rows of texts and the first `bytes` of their bytes.
#[derive(Clone, Copy)]
pub struct Draft {
    pub cost: ConsumerCost,
    pub length: usize,
    pub spans: usize,
    pub visits: u64,
    pub stats: SolveStats,
    pub needs: Needs,
    pub root: PlanId,
    pub plans: usize,
    pub texts: usize,
    pub bytes: usize,
}

// What a call comes to before anything is written.
pub type Drafted = Result<Draft, Refusal>;

// The solver's counts, with the visits. There are no fit checks.
fn with_visits(stats: SolveStats, visits: u64) -> SolveStats
    ensures { result ≡ with_counts stats visits }
{
    SolveStats {
        visits,
        fit_checks: 0,
        ..stats
    }
}

// Document 01's number of what the materializer lacks. It stays a number, as the definition `number` has it.
fn page_number(e: Exhausted) -> u32
    ensures { result ≡ number (why_of e) }
{
    match e {
        Exhausted::Visit => 18,
        Exhausted::Depth => 19,
        Exhausted::Output => 20,
        Exhausted::Spans => 21,
        Exhausted::Visits => 22,
    }
}

pub fn solver_refused(why: Why, needed: u64, stats: SolveStats) -> Drafted
    ensures { result ≡ refusal why needed stats }
{
    Err(Refusal {
        number: solve_workspace::solver_number(why),
        needed,
        stats: with_visits(stats, stats.visits),
    })
}

pub fn capacity_of(b: Bounds) -> Capacity
    ensures { (result ≡ capacity b) × Small result }
{
    Capacity {
        visit: b.visit as usize,
        depth: b.depth as usize,
        output: b.output as usize,
        spans: b.spans as usize,
        visit_limit: b.visit_limit,
    }
}

// What was needed of every kind. Each has its place in 32 bits, since as much was lent.
fn page_needs(core: SolverNeeds, length: usize, spans: usize, visit: usize, depth: usize) -> Needs
    ensures { result ≡ page_needs core length spans visit depth }
{
    Needs {
        stack: core.stack,
        memo: core.memo,
        kept: core.kept,
        frontier: core.frontier,
        plans: core.plans,
        visit: solve_workspace::narrow(visit as u64),
        depth: solve_workspace::narrow(depth as u64),
        output: solve_workspace::narrow(length as u64),
        spans: solve_workspace::narrow(spans as u64),
    }
}

fn draft_of(core: SolvedCore, texts: usize, bytes: usize, m: Measured) -> Drafted
    ensures { result ≡ drafted core texts bytes m }
{
    match m {
        Ok(page) => Ok(Draft {
            cost: core.cost,
            length: page.bytes,
            spans: page.spans,
            visits: page.visits,
            stats: with_visits(core.stats, 0),
            needs: page_needs(core.needs, page.bytes, page.spans, page.visit, page.depth),
            root: core.root,
            plans: core.plans,
            texts,
            bytes,
        }),
        Err(passed) => Err(Refusal {
            number: page_number(passed.what),
            needed: passed.needed as u64,
            stats: with_visits(core.stats, passed.visits),
        }),
    }
}

// The chosen plan is measured: its page, or the first size or limit that it passes.
pub fn measure_page(
    b: Bounds,
    core: SolvedCore,
    plans: &[[u32; 3]],
    texts: &[[u32; 3]],
    bytes: &[u8],
    visit: &mut [usize],
) -> Drafted
    requires { (b.visit ≤ length visit.old) × Arranged (length texts.now) core plans.now × InBytes texts.now bytes.now × (core.stats.visits ≡ 0) }
    ensures { Half (Paged b core (layout plans.now core.plans texts.now bytes.now core.root.0)) b plans.now texts.now bytes.now result }
{
    let m = measure(
        capacity_of(b),
        &plans[..core.plans],
        texts,
        visit,
        core.root,
    );
    draft_of(core, texts.len(), bytes.len(), m)
}

// A page that is measured is written: its bytes to the front of `output`, its spans to the front of `spans`.
pub fn write_page(
    b: Bounds,
    d: Draft,
    plans: &[[u32; 3]],
    texts: &[[u32; 3]],
    bytes: &[u8],
    visit: &mut [usize],
    depth: &mut [usize],
    output: &mut [u8],
    spans: &mut [[u64; 4]],
) -> Rendered
    requires { Drawn b d plans.now texts.now bytes.now × Lent (capacity b) visit.old depth.old output.old spans.old }
    ensures { (result ≡ page_of d) × Written (chosen d plans.now texts.now bytes.now) output.old output.new spans.old spans.new }
{
    write(
        capacity_of(b),
        &plans[..d.plans],
        &texts[..d.texts],
        &bytes[..d.bytes],
        visit,
        depth,
        output,
        spans,
        d.root,
    );
    Ok(Page {
        cost: d.cost,
        length: d.length,
        spans: d.spans,
        stats: with_visits(d.stats, d.visits),
        needs: d.needs,
    })
}
