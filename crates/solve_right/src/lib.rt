// The right part of a sequence (laidout's CompleteSequenceRight): a left candidate is followed by the candidates that the child has at its column.
#![tactic(auto)]

ghost use Rattle.std.specs.Prelude.{◌≡◌, false, List, [], ℕ, ◌+◌, ◌≤◌, ◌<◌, ◌^◌, ltb, length, get_or};
ghost use Rattle.layout.specs.Rules.{Rules};
ghost use Rattle.machine.specs.Model.{Prepared, range, children};
ghost use Rattle.machine.specs.Solver.{next_left, complete_sequence_right};
ghost use Rattle.solve_workspace.specs.Meets.{Meets, counts, Sound};
ghost use Rattle.solve_workspace.specs.Frames.{SameMemo};
ghost use Rattle.solve_workspace.specs.Turns.{reached};
ghost use Rattle.solve_workspace.specs.Reading.{tables, prepared, node_of_row};
ghost use Rattle.solve_workspace.specs.Rows.{Row, abs};
ghost use Rattle.solve_builder.specs.Building.{Slots};

use file_tables::NodeId;
use memo::MemoKey;
use solve_workspace::{Bounds, ExactTask, Halt, Registers};

// Child `index` of a sequence. It is there; past the end the answer is the definition's.
fn child_number(nodes: &[[u32; 8]], edges: &[u32], node: NodeId, index: u32) -> NodeId
    ensures { get_or (children (node_of_row edges.now (get_or nodes.now node.0 []))) index 0 ≡ result.0 }
{
    solve_node::sequence_child(nodes, edges, node, index).unwrap_or(NodeId(0))
}

// All left candidates have their right parts: what is pending becomes the frontier of the children so far.
fn last_left(
    b: Bounds,
    g: &mut Registers,
    tasks: &mut [[u32; 9]],
    results: &mut [[u32; 2]],
    frontier: &mut [u64],
    kept: &mut [[u64; 6]],
    plans: &mut [[u32; 3]],
    pending: &[[u64; 7]],
    key: MemoKey,
    child_index: u32,
    pending_start: u32,
) -> Result<(), Halt>
    requires { (child_index + 1 < 2 ^ 32) × ((pending_start ≤ g.old.pending) × ((b.stack ≤ length tasks.old) × ((b.stack ≤ length results.old) × (Slots b frontier.old × ((b.stack ≤ length pending.now) × ((b.kept ≤ length kept.old) × ((b.plans ≤ length plans.old) × Sound b g.old))))))) }
    ensures meets { (R : Rules) (P : Prepared) (start len offset : ℕ) (es : List Row) → Meets b (counts g.old) (next_left R P false key child_index (range start len) offset pending_start (abs g.old tasks.old results.old pending.now es kept.old frontier.old plans.old)) (reached result g.new) (λ s. abs s tasks.new results.new pending.now es kept.new frontier.new plans.new) }
    ensures same { SameMemo g.old (reached result g.new) }
{
    solve_ranges::build_pending(b, g, frontier, pending, kept, plans, pending_start as usize)?;
    let start = g.start;
    let len = g.len;
    solve_workspace::push_exact_task(
        b,
        g,
        tasks,
        ExactTask::ContinueSequence {
            key,
            child_index: child_index + 1,
        },
    )?;
    solve_workspace::push_exact_result(b, g, results, start, len)
}

// The next left candidate, or the end.
fn next_left(
    b: Bounds,
    g: &mut Registers,
    nodes: &[[u32; 8]],
    edges: &[u32],
    tasks: &mut [[u32; 9]],
    results: &mut [[u32; 2]],
    frontier: &mut [u64],
    kept: &mut [[u64; 6]],
    plans: &mut [[u32; 3]],
    pending: &[[u64; 7]],
    key: MemoKey,
    child_index: u32,
    start: u32,
    len: u32,
    left_offset: u32,
    pending_start: u32,
) -> Result<(), Halt>
    requires { (child_index + 1 < 2 ^ 32) × ((pending_start ≤ g.old.pending) × ((b.stack ≤ length tasks.old) × ((b.stack ≤ length results.old) × (Slots b frontier.old × ((b.stack ≤ length pending.now) × ((b.kept ≤ length kept.old) × ((b.plans ≤ length plans.old) × Sound b g.old))))))) }
    ensures meets { (R : Rules) (choices : List ℕ) (texts : List Row) (bytes : List ℕ) (annotations root space : ℕ) (es : List Row) → Meets b (counts g.old) (next_left R (prepared (tables nodes.now edges.now choices texts bytes annotations root space)) (ltb (left_offset + 1) len) key child_index (range start len) left_offset pending_start (abs g.old tasks.old results.old pending.now es kept.old frontier.old plans.old)) (reached result g.new) (λ s. abs s tasks.new results.new pending.now es kept.new frontier.new plans.new) }
    ensures same { SameMemo g.old (reached result g.new) }
{
    if left_offset as u64 + 1 < len as u64 {
        let child = child_number(nodes, edges, NodeId(key.node), child_index);
        solve_join::push_right(
            b,
            g,
            kept,
            tasks,
            key,
            child,
            child_index,
            start,
            len,
            left_offset + 1,
            pending_start,
        )
    } else {
        last_left(
            b,
            g,
            tasks,
            results,
            frontier,
            kept,
            plans,
            pending,
            key,
            child_index,
            pending_start,
        )
    }
}

pub fn complete_sequence_right(
    b: Bounds,
    g: &mut Registers,
    nodes: &[[u32; 8]],
    edges: &[u32],
    tasks: &mut [[u32; 9]],
    results: &mut [[u32; 2]],
    frontier: &mut [u64],
    kept: &mut [[u64; 6]],
    plans: &mut [[u32; 3]],
    pending: &mut [[u64; 7]],
    key: MemoKey,
    child_index: u32,
    start: u32,
    len: u32,
    left_offset: u32,
    pending_start: u32,
) -> Result<(), Halt>
    requires { (1 ≤ g.old.results) × ((child_index + 1 < 2 ^ 32) × ((pending_start ≤ g.old.pending) × ((b.stack ≤ length tasks.old) × ((b.stack ≤ length results.old) × (Slots b frontier.old × ((b.stack ≤ length pending.old) × ((b.kept ≤ length kept.old) × ((b.plans ≤ length plans.old) × Sound b g.old)))))))) }
    ensures meets { (R : Rules) (choices : List ℕ) (texts : List Row) (bytes : List ℕ) (annotations root space : ℕ) (es : List Row) → Meets b (counts g.old) (complete_sequence_right R (prepared (tables nodes.now edges.now choices texts bytes annotations root space)) key child_index (range start len) left_offset pending_start (abs g.old tasks.old results.old pending.old es kept.old frontier.old plans.old)) (reached result g.new) (λ s. abs s tasks.new results.new pending.new es kept.new frontier.new plans.new) }
    ensures same { SameMemo g.old (reached result g.new) }
{
    solve_workspace::pop_exact_result(g, results);
    let left = solve_workspace::candidate_at(kept, g.kept, start as usize + left_offset as usize);
    let right_start = g.start;
    let right_len = g.len;
    solve_join::push_joined(b, g, kept, pending, left, right_start, right_len)?;
    next_left(
        b,
        g,
        nodes,
        edges,
        tasks,
        results,
        frontier,
        kept,
        plans,
        pending,
        key,
        child_index,
        start,
        len,
        left_offset,
        pending_start,
    )
}
