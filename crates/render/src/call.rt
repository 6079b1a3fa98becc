// A call in document 01's order: 1, the file, the solver, the materializer's first pass, and then its second.
ghost use Rattle.std.specs.Prelude.{List, ℕ, ◌≤◌, length};
ghost use Rattle.file_checks.specs.Judged.{tables};
ghost use Rattle.machine_input.specs.Reading.{prepared};
ghost use Rattle.solve_workspace.specs.declared.RenderOptions.{RenderOptions as Options};
ghost use Rattle.solve_workspace.specs.Reading.{rules};
ghost use Rattle.solve_execute.specs.Turn.{Room};
ghost use Rattle.solve.specs.Accepted.{MemoRoom};
ghost use Rattle.render.specs.declared.order.Lengths.{Lengths as Sizes};
ghost use Rattle.render.specs.Order.{TablesLent, InOrder};
ghost use Rattle.render.specs.Drafts.{Half, Writable};
ghost use Rattle.render.specs.Call.{Rendering, Drafting, Readied, Laid, Holding, MemoHolding, tables_held, lengths, lengths_with};

use crate::order::{Lengths, in_order};
use crate::page::{Drafted, Refusal, Rendered, measure_page, solver_refused, write_page};
use file_form::fill::Counts;
use file_tables::{NodeId, TextId};
use prepare::read::read_lent;
use solve::solve;
use solve_workspace::{Bounds, RenderOptions};
use stats::SolveStats;

// The solver, then the first pass, on the tables of an accepted file.
fn lay_out(
    options: RenderOptions,
    b: Bounds,
    nodes: &[[u32; 8]],
    edges: &[u32],
    choices: &[u32],
    texts: &[[u32; 3]],
    bytes: &[u8],
    root: NodeId,
    space: TextId,
    tasks: &mut [[u32; 9]],
    results: &mut [[u32; 2]],
    pending: &mut [[u64; 7]],
    index: &mut [u64],
    entries: &mut [[u64; 6]],
    kept: &mut [[u64; 6]],
    frontier: &mut [u64],
    plans: &mut [[u32; 3]],
    visit: &mut [usize],
) -> Drafted
    requires { Room b tasks.old results.old pending.old frontier.old kept.old plans.old × MemoRoom b index.old entries.old × Readied (tables nodes.now edges.now choices.now texts.now bytes.now 0 root.0 space.0) × (b.visit ≤ length visit.old) }
    ensures { Half (Laid b (rules options) (prepared (tables nodes.now edges.now choices.now texts.now bytes.now 0 root.0 space.0))) b plans.new texts.now bytes.now result }
{
    let solution = solve(
        options, b, nodes, edges, choices, texts, root, space, tasks, results, pending, index,
        entries, frontier, kept, plans,
    );
    match solution {
        Err(u) => solver_refused(u.halt.why, u.halt.needed, u.stats),
        Ok(core) => measure_page(b, core, plans, texts, bytes, visit),
    }
}

// The same on tables that are lent longer than their counts, and a memo's index that is lent longer than its size takes.
fn lay_out_held(
    options: RenderOptions,
    b: Bounds,
    n: Counts,
    nodes: &[[u32; 8]],
    edges: &[u32],
    choices: &[u32],
    texts: &[[u32; 3]],
    bytes: &[u8],
    tasks: &mut [[u32; 9]],
    results: &mut [[u32; 2]],
    pending: &mut [[u64; 7]],
    index: &mut [u64],
    entries: &mut [[u64; 6]],
    kept: &mut [[u64; 6]],
    frontier: &mut [u64],
    plans: &mut [[u32; 3]],
    visit: &mut [usize],
) -> Drafted
    requires { Room b tasks.old results.old pending.old frontier.old kept.old plans.old × MemoHolding b index.old entries.old × Holding n nodes.now edges.now choices.now texts.now bytes.now × (b.visit ≤ length visit.old) }
    ensures { Half (Laid b (rules options) (prepared (tables_held n nodes.now edges.now choices.now texts.now bytes.now))) b plans.new texts.now bytes.now result }
{
    let slots = memo::memo_slots_for(b.memo);
    lay_out(
        options,
        b,
        &nodes[..n.nodes as usize],
        &edges[..n.edges as usize],
        &choices[..n.choices as usize],
        &texts[..n.texts as usize],
        &bytes[..n.bytes as usize],
        n.root,
        n.space,
        tasks,
        results,
        pending,
        &mut index[..slots],
        entries,
        kept,
        frontier,
        plans,
        visit,
    )
}

// The file, and then its tables, in memory that is lent as 1 asks.
fn render_lent(
    file: &[u8],
    options: RenderOptions,
    b: Bounds,
    nodes: &mut [[u32; 8]],
    edges: &mut [u32],
    choices: &mut [u32],
    texts: &mut [[u32; 3]],
    bytes: &mut [u8],
    tasks: &mut [[u32; 9]],
    results: &mut [[u32; 2]],
    pending: &mut [[u64; 7]],
    index: &mut [u64],
    entries: &mut [[u64; 6]],
    kept: &mut [[u64; 6]],
    frontier: &mut [u64],
    plans: &mut [[u32; 3]],
    visit: &mut [usize],
) -> Drafted
    requires { TablesLent (length nodes.old) (length edges.old) (length choices.old) (length texts.old) (length bytes.old) × Room b tasks.old results.old pending.old frontier.old kept.old plans.old × MemoHolding b index.old entries.old × (b.visit ≤ length visit.old) }
    ensures { (l : Sizes) → InOrder options b l → Half (Rendering file.now options b l) b plans.new texts.new bytes.new result }
{
    match read_lent(file, nodes, edges, choices, texts, bytes) {
        Err(refusal) => Err(Refusal::uncounted(refusal.number())),
        Ok(n) => lay_out_held(
            options, b, n, nodes, edges, choices, texts, bytes, tasks, results, pending, index,
            entries, kept, frontier, plans, visit,
        ),
    }
}

// The first half of a call: all but the writing. Of depth, output and spans it takes how many words, bytes and records there are.
pub fn render_plan(
    file: &[u8],
    options: RenderOptions,
    b: Bounds,
    nodes: &mut [[u32; 8]],
    edges: &mut [u32],
    choices: &mut [u32],
    texts: &mut [[u32; 3]],
    bytes: &mut [u8],
    tasks: &mut [[u32; 9]],
    results: &mut [[u32; 2]],
    pending: &mut [[u64; 7]],
    index: &mut [u64],
    entries: &mut [[u64; 6]],
    kept: &mut [[u64; 6]],
    frontier: &mut [u64],
    plans: &mut [[u32; 3]],
    visit: &mut [usize],
    depth: usize,
    output: usize,
    spans: usize,
) -> Drafted
    ensures { Drafting file.now options b (lengths_with nodes.old edges.old choices.old texts.old bytes.old tasks.old results.old pending.old index.old entries.old kept.old frontier.old plans.old visit.old depth output spans) plans.new texts.new bytes.new result }
{
    let l = Lengths {
        nodes: nodes.len(),
        edges: edges.len(),
        choices: choices.len(),
        texts: texts.len(),
        bytes: bytes.len(),
        tasks: tasks.len(),
        results: results.len(),
        pending: pending.len(),
        index: index.len(),
        entries: entries.len(),
        kept: kept.len(),
        frontier: frontier.len(),
        plans: plans.len(),
        visit: visit.len(),
        depth,
        output,
        spans,
    };
    if !in_order(options, b, l) {
        return Err(Refusal::uncounted(1));
    }
    render_lent(
        file, options, b, nodes, edges, choices, texts, bytes, tasks, results, pending, index,
        entries, kept, frontier, plans, visit,
    )
}

// The second half: a page that is measured is written. A refusal alters nothing.
fn write_drafted(
    b: Bounds,
    r: Drafted,
    plans: &[[u32; 3]],
    texts: &[[u32; 3]],
    bytes: &[u8],
    visit: &mut [usize],
    depth: &mut [usize],
    output: &mut [u8],
    spans: &mut [[u64; 4]],
) -> Rendered
    requires { Writable b plans.now texts.now bytes.now visit.old depth.old output.old spans.old r }
    ensures { (file : List ℕ) (o : Options) (l : Sizes) → Half (Rendering file o b l) b plans.now texts.now bytes.now r → Rendering file o b l output.old output.new spans.old spans.new result }
{
    let d = r?;
    write_page(b, d, plans, texts, bytes, visit, depth, output, spans)
}

// A file's page, or why there is none. A page goes to the front of `output`, its spans to the front of `spans`. All else that is lent by `&mut` is
// tables and working memory, which may hold anything before and after.
// Not inlined: a caller whose own arrays these are would clear some of them twice.
#[inline(never)]
pub fn render_core(
    file: &[u8],
    options: RenderOptions,
    b: Bounds,
    nodes: &mut [[u32; 8]],
    edges: &mut [u32],
    choices: &mut [u32],
    texts: &mut [[u32; 3]],
    bytes: &mut [u8],
    tasks: &mut [[u32; 9]],
    results: &mut [[u32; 2]],
    pending: &mut [[u64; 7]],
    index: &mut [u64],
    entries: &mut [[u64; 6]],
    kept: &mut [[u64; 6]],
    frontier: &mut [u64],
    plans: &mut [[u32; 3]],
    visit: &mut [usize],
    depth: &mut [usize],
    output: &mut [u8],
    spans: &mut [[u64; 4]],
) -> Rendered
    ensures { Rendering file.now options b (lengths nodes.old edges.old choices.old texts.old bytes.old tasks.old results.old pending.old index.old entries.old kept.old frontier.old plans.old visit.old depth.old output.old spans.old) output.old output.new spans.old spans.new result }
{
    let r = render_plan(
        file,
        options,
        b,
        nodes,
        edges,
        choices,
        texts,
        bytes,
        tasks,
        results,
        pending,
        index,
        entries,
        kept,
        frontier,
        plans,
        visit,
        depth.len(),
        output.len(),
        spans.len(),
    );
    write_drafted(b, r, plans, texts, bytes, visit, depth, output, spans)
}
