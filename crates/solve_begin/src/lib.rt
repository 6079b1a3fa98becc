// The task Eval (laidout's begin_node): what the memo has of the node, or else its first step, with the work counted and tested.
#![tactic(auto)]

ghost use Rattle.std.specs.Prelude.{List, ℕ, ◌≤◌, ◌<◌, ◌^◌, length, Some, None};
ghost use Rattle.layout.specs.Rules.{Rules};
ghost use Rattle.frontier.specs.Candidates.{carried};
ghost use Rattle.machine.specs.Model.{Prepared};
ghost use Rattle.machine.specs.Solver.{complete_singleton, begin_node, begin_known};
ghost use Rattle.solve_workspace.specs.Meets.{Meets, counts, Sound};
ghost use Rattle.solve_workspace.specs.Frames.{Memory, MemoryAt, SameMemo};
ghost use Rattle.solve_workspace.specs.Turns.{reached};
ghost use Rattle.solve_workspace.specs.Reading.{tables, prepared, rules};
ghost use Rattle.solve_workspace.specs.Rows.{Row, abs, survivor};
ghost use Rattle.solve_node.specs.Begun.{leaf_begun};
ghost use Rattle.solve_builder.specs.Building.{Slots};

use file_tables::NodeId;
use frontier::ScratchCandidate;
use memo::{CandidateRange, MemoKey};
use solve_node::{Leaf, PreparedNode};
use solve_workspace::{Bounds, Halt, Registers, RenderOptions};

fn complete_singleton(
    b: Bounds,
    g: &mut Registers,
    frontier: &mut [u64],
    kept: &mut [[u64; 6]],
    plans: &mut [[u32; 3]],
    index: &mut [u64],
    entries: &mut [[u64; 6]],
    results: &mut [[u32; 2]],
    key: MemoKey,
    c: ScratchCandidate,
) -> Result<(), Halt>
    requires { Slots b frontier.old × ((b.kept ≤ length kept.old) × ((b.plans ≤ length plans.old) × (Memory b g.old.memo index.old entries.old × ((b.stack ≤ length results.old) × Sound b g.old)))) }
    ensures meets { (R : Rules) (P : Prepared) (ts ps : List Row) → Meets b (counts g.old) (complete_singleton R P key (survivor (carried c)) (abs g.old ts results.old ps entries.old kept.old frontier.old plans.old)) (reached result g.new) (λ s. abs s ts results.new ps entries.new kept.new frontier.new plans.new) }
    ensures memory { MemoryAt b index.new entries.new (reached result g.new) }
{
    solve_builder::singleton(b, g, frontier, kept, plans, c)?;
    let start = g.start;
    let len = g.len;
    solve_workspace::complete_node(b, g, index, entries, results, key, start, len)
}

fn begin_leaf(
    options: RenderOptions,
    b: Bounds,
    g: &mut Registers,
    frontier: &mut [u64],
    kept: &mut [[u64; 6]],
    plans: &mut [[u32; 3]],
    index: &mut [u64],
    entries: &mut [[u64; 6]],
    results: &mut [[u32; 2]],
    key: MemoKey,
    leaf: Leaf,
) -> Result<(), Halt>
    requires { Slots b frontier.old × ((b.kept ≤ length kept.old) × ((b.plans ≤ length plans.old) × (Memory b g.old.memo index.old entries.old × ((b.stack ≤ length results.old) × Sound b g.old)))) }
    ensures meets { (P : Prepared) (ts ps : List Row) → Meets b (counts g.old) (leaf_begun (rules options) P leaf key (abs g.old ts results.old ps entries.old kept.old frontier.old plans.old)) (reached result g.new) (λ s. abs s ts results.new ps entries.new kept.new frontier.new plans.new) }
    ensures memory { MemoryAt b index.new entries.new (reached result g.new) }
{
    let c = solve_node::leaf_candidate(options, key, leaf)?;
    complete_singleton(b, g, frontier, kept, plans, index, entries, results, key, c)
}

// The range that the memo has for the node.
fn begin_hit(
    b: Bounds,
    g: &mut Registers,
    results: &mut [[u32; 2]],
    range: CandidateRange,
) -> Result<(), Halt>
    requires { (b.stack ≤ length results.old) × ((range.start < 2 ^ 32) × ((range.len < 2 ^ 32) × Sound b g.old)) }
    ensures meets { (R : Rules) (P : Prepared) (key : MemoKey) (ts ps es ks : List Row) (fs : List ℕ) (ns : List Row) → Meets b (counts g.old) (begin_known R P (Some range) key (abs g.old ts results.old ps es ks fs ns)) (reached result g.new) (λ s. abs s ts results.new ps es ks fs ns) }
    ensures same { SameMemo g.old (reached result g.new) }
{
    solve_workspace::work_hit(b, g)?;
    solve_workspace::push_exact_result(b, g, results, range.start as u32, range.len as u32)
}

// A node that is not in the memo.
fn begin_miss(
    options: RenderOptions,
    b: Bounds,
    g: &mut Registers,
    nodes: &[[u32; 8]],
    edges: &[u32],
    choices: &[u32],
    texts: &[[u32; 3]],
    tasks: &mut [[u32; 9]],
    results: &mut [[u32; 2]],
    index: &mut [u64],
    entries: &mut [[u64; 6]],
    frontier: &mut [u64],
    kept: &mut [[u64; 6]],
    plans: &mut [[u32; 3]],
    key: MemoKey,
) -> Result<(), Halt>
    requires { (b.stack ≤ length tasks.old) × (Slots b frontier.old × ((b.kept ≤ length kept.old) × ((b.plans ≤ length plans.old) × (Memory b g.old.memo index.old entries.old × ((b.stack ≤ length results.old) × Sound b g.old))))) }
    ensures meets { (bytes : List ℕ) (annotations root space : ℕ) (ps : List Row) → Meets b (counts g.old) (begin_known (rules options) (prepared (tables nodes.now edges.now choices.now texts.now bytes annotations root space)) None key (abs g.old tasks.old results.old ps entries.old kept.old frontier.old plans.old)) (reached result g.new) (λ s. abs s tasks.new results.new ps entries.new kept.new frontier.new plans.new) }
    ensures memory { MemoryAt b index.new entries.new (reached result g.new) }
{
    solve_workspace::work_miss(b, g)?;
    match solve_node::prepared_node(nodes, edges, texts, NodeId(key.node)) {
        PreparedNode::Leaf(leaf) => begin_leaf(
            options, b, g, frontier, kept, plans, index, entries, results, key, leaf,
        ),
        PreparedNode::Inner(inner) => solve_node::begin_inner(
            options, b, g, tasks, choices, key, inner,
        ),
    }
}

pub fn begin_node(
    options: RenderOptions,
    b: Bounds,
    g: &mut Registers,
    nodes: &[[u32; 8]],
    edges: &[u32],
    choices: &[u32],
    texts: &[[u32; 3]],
    tasks: &mut [[u32; 9]],
    results: &mut [[u32; 2]],
    index: &mut [u64],
    entries: &mut [[u64; 6]],
    frontier: &mut [u64],
    kept: &mut [[u64; 6]],
    plans: &mut [[u32; 3]],
    key: MemoKey,
) -> Result<(), Halt>
    requires { (b.stack ≤ length tasks.old) × (Slots b frontier.old × ((b.kept ≤ length kept.old) × ((b.plans ≤ length plans.old) × (Memory b g.old.memo index.old entries.old × ((b.stack ≤ length results.old) × Sound b g.old))))) }
    ensures meets { (bytes : List ℕ) (annotations root space : ℕ) (ps : List Row) → Meets b (counts g.old) (begin_node (rules options) (prepared (tables nodes.now edges.now choices.now texts.now bytes annotations root space)) key (abs g.old tasks.old results.old ps entries.old kept.old frontier.old plans.old)) (reached result g.new) (λ s. abs s tasks.new results.new ps entries.new kept.new frontier.new plans.new) }
    ensures memory { MemoryAt b index.new entries.new (reached result g.new) }
{
    match memo::memo_get(index, entries, g.memo, key) {
        Some(range) => begin_hit(b, g, results, range),
        None => begin_miss(
            options, b, g, nodes, edges, choices, texts, tasks, results, index, entries, frontier,
            kept, plans, key,
        ),
    }
}
