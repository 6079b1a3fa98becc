// A Seq or a Fill goes on with its next child (laidout's ContinueSequence and fill_boundary). Crate solve_right has CompleteSequenceRight.
#![tactic(auto)]

ghost use Rattle.std.specs.Prelude.{◌≡◌, true, List, ℕ, ◌≤◌, length};
ghost use Rattle.machine.specs.Model.{Prepared, range, got};
ghost use Rattle.machine.specs.Solver.{fill_boundary, gap_if_fill, next_child, continue_sequence};
ghost use Rattle.solve_workspace.specs.Meets.{Meets, counts, Sound};
ghost use Rattle.solve_workspace.specs.Frames.{Keeps, Memory, MemoryAt};
ghost use Rattle.solve_workspace.specs.Turns.{reached};
ghost use Rattle.solve_workspace.specs.Reading.{tables, prepared, rules};
ghost use Rattle.solve_workspace.specs.Rows.{Row, abs};
ghost use Rattle.solve_builder.specs.Building.{Slots};
ghost use Rattle.solve_continue.specs.Children.{ChildNumber};

use file_tables::{NodeId, TextId};
use memo::MemoKey;
use solve_workspace::{Bounds, Halt, Registers, RenderOptions};

// After each candidate of a range a space or a newline.
pub fn fill_boundary(
    options: RenderOptions,
    b: Bounds,
    g: &mut Registers,
    frontier: &mut [u64],
    kept: &mut [[u64; 6]],
    plans: &mut [[u32; 3]],
    pending: &mut [[u64; 7]],
    space: TextId,
    start: u32,
    len: u32,
    indent: u32,
) -> Result<(), Halt>
    requires { Slots b frontier.old × ((b.kept ≤ length kept.old) × ((b.plans ≤ length plans.old) × ((b.stack ≤ length pending.old) × Sound b g.old))) }
    ensures meets { (P : Prepared) (ts rs es : List Row) → P.space_text ≡ space.0 → Meets b (counts g.old) (fill_boundary (rules options) P (range start len) indent (abs g.old ts rs pending.old es kept.old frontier.old plans.old)) (reached result g.new) (λ s. got (range s.start s.len) (abs s ts rs pending.new es kept.new frontier.new plans.new)) }
    ensures keeps { Keeps g.old (reached result g.new) }
{
    let from = g.pending;
    solve_gaps::push_gaps(
        options, b, g, frontier, kept, plans, pending, space, start, len, indent,
    )?;
    solve_ranges::build_pending(b, g, frontier, pending, kept, plans, from)
}

// The range itself, or in a Fill its candidates with a gap after each.
fn gap_if_fill(
    options: RenderOptions,
    b: Bounds,
    g: &mut Registers,
    nodes: &[[u32; 8]],
    frontier: &mut [u64],
    kept: &mut [[u64; 6]],
    plans: &mut [[u32; 3]],
    pending: &mut [[u64; 7]],
    space: TextId,
    key: MemoKey,
    start: u32,
    len: u32,
) -> Result<(), Halt>
    requires { Slots b frontier.old × ((b.kept ≤ length kept.old) × ((b.plans ≤ length plans.old) × ((b.stack ≤ length pending.old) × Sound b g.old))) }
    ensures meets { (edges choices : List ℕ) (texts : List Row) (bytes : List ℕ) (annotations root : ℕ) (ts rs es : List Row) → Meets b (counts g.old) (gap_if_fill (rules options) (prepared (tables nodes.now edges choices texts bytes annotations root space.0)) ((prepared (tables nodes.now edges choices texts bytes annotations root space.0)).table.node key.node) (range start len) key.indent (abs g.old ts rs pending.old es kept.old frontier.old plans.old)) (reached result g.new) (λ s. got (range s.start s.len) (abs s ts rs pending.new es kept.new frontier.new plans.new)) }
    ensures keeps { Keeps g.old (reached result g.new) }
{
    if solve_node::is_fill(nodes, NodeId(key.node)) {
        return fill_boundary(
            options, b, g, frontier, kept, plans, pending, space, start, len, key.indent,
        );
    }
    g.start = start;
    g.len = len;
    Ok(())
}

// The next child, at the column where the first of the candidates so far ends.
fn next_child(
    options: RenderOptions,
    b: Bounds,
    g: &mut Registers,
    nodes: &[[u32; 8]],
    tasks: &mut [[u32; 9]],
    frontier: &mut [u64],
    kept: &mut [[u64; 6]],
    plans: &mut [[u32; 3]],
    pending: &mut [[u64; 7]],
    space: TextId,
    key: MemoKey,
    child: NodeId,
    child_index: u32,
    start: u32,
    len: u32,
) -> Result<(), Halt>
    requires { (b.stack ≤ length tasks.old) × (Slots b frontier.old × ((b.kept ≤ length kept.old) × ((b.plans ≤ length plans.old) × ((b.stack ≤ length pending.old) × Sound b g.old)))) }
    ensures meets { (edges choices : List ℕ) (texts : List Row) (bytes : List ℕ) (annotations root : ℕ) (rs es : List Row) → ChildNumber (tables nodes.now edges choices texts bytes annotations root space.0) key.node child_index child.0 → Meets b (counts g.old) (next_child (rules options) (prepared (tables nodes.now edges choices texts bytes annotations root space.0)) true key child_index (range start len) (abs g.old tasks.old rs pending.old es kept.old frontier.old plans.old)) (reached result g.new) (λ s. abs s tasks.new rs pending.new es kept.new frontier.new plans.new) }
    ensures keeps { Keeps g.old (reached result g.new) }
{
    gap_if_fill(
        options, b, g, nodes, frontier, kept, plans, pending, space, key, start, len,
    )?;
    let from = g.pending as u32;
    let made_start = g.start;
    let made_len = g.len;
    solve_join::push_right(
        b,
        g,
        kept,
        tasks,
        key,
        child,
        child_index,
        made_start,
        made_len,
        0,
        from,
    )
}

// The candidates of the children so far are on the results: the next child follows, or the sequence is complete.
pub fn continue_sequence(
    options: RenderOptions,
    b: Bounds,
    g: &mut Registers,
    nodes: &[[u32; 8]],
    edges: &[u32],
    tasks: &mut [[u32; 9]],
    results: &mut [[u32; 2]],
    index: &mut [u64],
    entries: &mut [[u64; 6]],
    frontier: &mut [u64],
    kept: &mut [[u64; 6]],
    plans: &mut [[u32; 3]],
    pending: &mut [[u64; 7]],
    space: TextId,
    key: MemoKey,
    child_index: u32,
) -> Result<(), Halt>
    requires { (1 ≤ g.old.results) × ((b.stack ≤ length results.old) × (Memory b g.old.memo index.old entries.old × ((b.stack ≤ length tasks.old) × (Slots b frontier.old × ((b.kept ≤ length kept.old) × ((b.plans ≤ length plans.old) × ((b.stack ≤ length pending.old) × Sound b g.old))))))) }
    ensures meets { (choices : List ℕ) (texts : List Row) (bytes : List ℕ) (annotations root : ℕ) → Meets b (counts g.old) (continue_sequence (rules options) (prepared (tables nodes.now edges.now choices texts bytes annotations root space.0)) key child_index (abs g.old tasks.old results.old pending.old entries.old kept.old frontier.old plans.old)) (reached result g.new) (λ s. abs s tasks.new results.new pending.new entries.new kept.new frontier.new plans.new) }
    ensures memory { MemoryAt b index.new entries.new (reached result g.new) }
{
    solve_workspace::pop_exact_result(g, results);
    let start = g.start;
    let len = g.len;
    match solve_node::sequence_child(nodes, edges, NodeId(key.node), child_index) {
        None => solve_workspace::complete_node(b, g, index, entries, results, key, start, len),
        Some(child) => next_child(
            options,
            b,
            g,
            nodes,
            tasks,
            frontier,
            kept,
            plans,
            pending,
            space,
            key,
            child,
            child_index,
            start,
            len,
        ),
    }
}
