// A call on one file for a desk (document 02, change 8). Order (1) and the desk (28) are settled by value before anything is lent; then the call itself, its work held to what the desk may still do.
#![tactic(auto)]

ghost use Rattle.std.specs.Prelude.{◌≡◌};
ghost use Rattle.render.specs.Call.{lengths, lengths_with};
ghost use Rattle.desks.specs.Desks.{charged};
ghost use Rattle.desks.specs.Lent.{work_in};
ghost use Rattle.desks.specs.Calls.{DeskRendering, DeskDrafting};

use desks::{DeskAnswer, Desks, allowed, charge, desk_gate};
use render::call::{render_core, render_plan};
use render::order::{Lengths, in_order};
use render::page::{Drafted, Refusal};
use solve_workspace::{Bounds, RenderOptions};

// A file's page, or why there is none, as `render_core`, and the desks with its work charged.
pub fn render_for(
    desk: u32,
    desks: Desks,
    file: &[u8],
    options: RenderOptions,
    b: Bounds,
    nodes: &mut [[u32; 8]],
    edges: &mut [u32],
    choices: &mut [u32],
    texts: &mut [[u32; 3]],
    bytes: &mut [u8],
    tasks: &mut [[u32; 9]],
    results: &mut [[u32; 2]],
    pending: &mut [[u64; 7]],
    index: &mut [u64],
    entries: &mut [[u64; 6]],
    kept: &mut [[u64; 6]],
    frontier: &mut [u64],
    plans: &mut [[u32; 3]],
    visit: &mut [usize],
    depth: &mut [usize],
    output: &mut [u8],
    spans: &mut [[u64; 4]],
) -> DeskAnswer
    ensures { DeskRendering desk desks file.now options b (lengths nodes.old edges.old choices.old texts.old bytes.old tasks.old results.old pending.old index.old entries.old kept.old frontier.old plans.old visit.old depth.old output.old spans.old) output.old output.new spans.old spans.new result.answer × (result.desks ≡ charged desks desk (work_in result.answer)) }
{
    let l = Lengths {
        nodes: nodes.len(),
        edges: edges.len(),
        choices: choices.len(),
        texts: texts.len(),
        bytes: bytes.len(),
        tasks: tasks.len(),
        results: results.len(),
        pending: pending.len(),
        index: index.len(),
        entries: entries.len(),
        kept: kept.len(),
        frontier: frontier.len(),
        plans: plans.len(),
        visit: visit.len(),
        depth: depth.len(),
        output: output.len(),
        spans: spans.len(),
    };
    let ordered = in_order(options, b, l);
    let gate = desk_gate(ordered, desk);
    if gate != 0 {
        return charge(Err(Refusal::uncounted(gate)), desk, desks);
    }
    let c = allowed(desks, desk, b);
    let a = render_core(
        file, options, c, nodes, edges, choices, texts, bytes, tasks, results, pending, index,
        entries, kept, frontier, plans, visit, depth, output, spans,
    );
    charge(a, desk, desks)
}

// The first half of it, as `render_plan`: all but the writing and the charge.
pub fn plan_for(
    desk: u32,
    desks: Desks,
    file: &[u8],
    options: RenderOptions,
    b: Bounds,
    nodes: &mut [[u32; 8]],
    edges: &mut [u32],
    choices: &mut [u32],
    texts: &mut [[u32; 3]],
    bytes: &mut [u8],
    tasks: &mut [[u32; 9]],
    results: &mut [[u32; 2]],
    pending: &mut [[u64; 7]],
    index: &mut [u64],
    entries: &mut [[u64; 6]],
    kept: &mut [[u64; 6]],
    frontier: &mut [u64],
    plans: &mut [[u32; 3]],
    visit: &mut [usize],
    depth: usize,
    output: usize,
    spans: usize,
) -> Drafted
    ensures { DeskDrafting desk desks file.now options b (lengths_with nodes.old edges.old choices.old texts.old bytes.old tasks.old results.old pending.old index.old entries.old kept.old frontier.old plans.old visit.old depth output spans) plans.new texts.new bytes.new result }
{
    let l = Lengths {
        nodes: nodes.len(),
        edges: edges.len(),
        choices: choices.len(),
        texts: texts.len(),
        bytes: bytes.len(),
        tasks: tasks.len(),
        results: results.len(),
        pending: pending.len(),
        index: index.len(),
        entries: entries.len(),
        kept: kept.len(),
        frontier: frontier.len(),
        plans: plans.len(),
        visit: visit.len(),
        depth,
        output,
        spans,
    };
    let ordered = in_order(options, b, l);
    let gate = desk_gate(ordered, desk);
    if gate != 0 {
        return Err(Refusal::uncounted(gate));
    }
    let lesser = allowed(desks, desk, b);
    render_plan(
        file, options, lesser, nodes, edges, choices, texts, bytes, tasks, results, pending, index,
        entries, kept, frontier, plans, visit, depth, output, spans,
    )
}
