// Refusal 1: what a call is lent is held to its sizes before anything is read.
ghost use Rattle.file_checks.specs.Told.{Told};
ghost use Rattle.render.specs.Order.{OptionsRight, StacksLent, MemoLent, StoresLent, SolverLent, PageLent, InOrder};

use prepare::read::tables_lent;
use solve_workspace::{Bounds, RenderOptions};

// How many rows or words each lent slice has.
#[derive(Clone, Copy)]
pub struct Lengths {
    pub nodes: usize,
    pub edges: usize,
    pub choices: usize,
    pub texts: usize,
    pub bytes: usize,
    pub tasks: usize,
    pub results: usize,
    pub pending: usize,
    pub index: usize,
    pub entries: usize,
    pub kept: usize,
    pub frontier: usize,
    pub plans: usize,
    pub visit: usize,
    pub depth: usize,
    pub output: usize,
    pub spans: usize,
}

// Whether the settings are right.
pub fn options_right(o: RenderOptions) -> bool
    ensures { Told (OptionsRight o) result }
{
    0 < o.width && o.policy <= 1 && 1 <= o.rule && o.rule <= 2
}

fn stacks_lent(b: Bounds, l: Lengths) -> bool
    ensures { Told (StacksLent b l) result }
{
    let size = b.stack as usize;
    size <= l.tasks && size <= l.results && size <= l.pending
}

fn memo_lent(b: Bounds, l: Lengths) -> bool
    ensures { Told (MemoLent b l) result }
{
    b.memo as usize <= l.entries && memo::memo_slots_for(b.memo) <= l.index
}

fn stores_lent(b: Bounds, l: Lengths) -> bool
    ensures { Told (StoresLent b l) result }
{
    b.kept as usize <= l.kept
        && b.frontier as usize * 14 <= l.frontier
        && b.plans as usize <= l.plans
}

fn page_lent(b: Bounds, l: Lengths) -> bool
    ensures { Told (PageLent b l) result }
{
    b.visit as usize <= l.visit
        && b.depth as usize <= l.depth
        && b.output as usize <= l.output
        && b.spans as usize <= l.spans
}

fn solver_lent(b: Bounds, l: Lengths) -> bool
    ensures { Told (SolverLent b l) result }
{
    stacks_lent(b, l) && memo_lent(b, l) && stores_lent(b, l)
}

// Whether there is nothing of refusal 1.
pub fn in_order(o: RenderOptions, b: Bounds, l: Lengths) -> bool
    ensures { Told (InOrder o b l) result }
{
    options_right(o)
        && tables_lent(l.nodes, l.edges, l.choices, l.texts, l.bytes)
        && solver_lent(b, l)
        && page_lent(b, l)
}
