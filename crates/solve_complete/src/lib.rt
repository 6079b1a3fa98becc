// The completing tasks (laidout's execute_task, the arms CompleteAlias to CompletePenalty): the children's results are taken off, and the node's range is completed.
#![tactic(auto)]

ghost use Rattle.std.specs.Prelude.{List, ℕ, ◌≤◌, length};
ghost use Rattle.layout.specs.Rules.{Rules};
ghost use Rattle.machine.specs.Model.{Prepared, range, got};
ghost use Rattle.machine.specs.Solver.{complete_node, complete_alias, complete_union};
ghost use Rattle.machine.specs.Solver.{complete_wrapped as wrapping_up, complete_choice_set as choosing};
ghost use Rattle.solve_workspace.specs.Meets.{Meets, counts, Sound};
ghost use Rattle.solve_workspace.specs.Frames.{Keeps, Memory, MemoryAt};
ghost use Rattle.solve_workspace.specs.Rows.{Row, abs};
ghost use Rattle.solve_workspace.specs.Turns.{reached};
ghost use Rattle.solve_builder.specs.Building.{Slots};
ghost use Rattle.solve_ranges.specs.Wrapping.{wrapping, charging};
ghost use Rattle.solve_complete.specs.Completing.{chosen};

use memo::MemoKey;
use solve_ranges::Wrapper;
use solve_workspace::{Bounds, Halt, Registers};

// The range of the registers is the node's.
fn complete_made(
    b: Bounds,
    g: &mut Registers,
    results: &mut [[u32; 2]],
    index: &mut [u64],
    entries: &mut [[u64; 6]],
    key: MemoKey,
) -> Result<(), Halt>
    requires { Memory b g.old.memo index.old entries.old × ((b.stack ≤ length results.old) × Sound b g.old) }
    ensures meets { (ts ps ks : List Row) (fs : List ℕ) (ns : List Row) → Meets b (counts g.old) (complete_node key (range g.old.start g.old.len) (abs g.old ts results.old ps entries.old ks fs ns)) (reached result g.new) (λ s. abs s ts results.new ps entries.new ks fs ns) }
    ensures memory { MemoryAt b index.new entries.new (reached result g.new) }
{
    let (start, len) = (g.start, g.len);
    solve_workspace::complete_node(b, g, index, entries, results, key, start, len)
}

// The child's range is the node's.
pub fn complete_alias(
    b: Bounds,
    g: &mut Registers,
    results: &mut [[u32; 2]],
    index: &mut [u64],
    entries: &mut [[u64; 6]],
    key: MemoKey,
) -> Result<(), Halt>
    requires { Memory b g.old.memo index.old entries.old × ((b.stack ≤ length results.old) × ((1 ≤ g.old.results) × Sound b g.old)) }
    ensures meets { (R : Rules) (P : Prepared) (ts ps ks : List Row) (fs : List ℕ) (ns : List Row) → Meets b (counts g.old) (complete_alias R P key (abs g.old ts results.old ps entries.old ks fs ns)) (reached result g.new) (λ s. abs s ts results.new ps entries.new ks fs ns) }
    ensures memory { MemoryAt b index.new entries.new (reached result g.new) }
{
    solve_workspace::pop_exact_result(g, results);
    complete_made(b, g, results, index, entries, key)
}

// The alternative was evaluated last, so it is on top.
pub fn complete_union(
    b: Bounds,
    g: &mut Registers,
    results: &mut [[u32; 2]],
    index: &mut [u64],
    entries: &mut [[u64; 6]],
    frontier: &mut [u64],
    kept: &mut [[u64; 6]],
    plans: &mut [[u32; 3]],
    key: MemoKey,
) -> Result<(), Halt>
    requires { Memory b g.old.memo index.old entries.old × ((b.stack ≤ length results.old) × (Slots b frontier.old × ((b.kept ≤ length kept.old) × ((b.plans ≤ length plans.old) × ((2 ≤ g.old.results) × Sound b g.old))))) }
    ensures meets { (R : Rules) (P : Prepared) (ts ps : List Row) → Meets b (counts g.old) (complete_union R P key (abs g.old ts results.old ps entries.old kept.old frontier.old plans.old)) (reached result g.new) (λ s. abs s ts results.new ps entries.new kept.new frontier.new plans.new) }
    ensures memory { MemoryAt b index.new entries.new (reached result g.new) }
{
    solve_workspace::pop_exact_result(g, results);
    let (alternative_start, alternative_len) = (g.start, g.len);
    solve_workspace::pop_exact_result(g, results);
    let (preferred_start, preferred_len) = (g.start, g.len);
    solve_ranges::union_ranges(
        b,
        g,
        frontier,
        kept,
        plans,
        preferred_start,
        preferred_len,
        alternative_start,
        alternative_len,
    )?;
    complete_made(b, g, results, index, entries, key)
}

// Annotate and Penalty: each of the child's candidates, wrapped.
pub fn complete_wrapped(
    b: Bounds,
    g: &mut Registers,
    results: &mut [[u32; 2]],
    index: &mut [u64],
    entries: &mut [[u64; 6]],
    frontier: &mut [u64],
    kept: &mut [[u64; 6]],
    plans: &mut [[u32; 3]],
    key: MemoKey,
    wrapper: Wrapper,
) -> Result<(), Halt>
    requires { Memory b g.old.memo index.old entries.old × ((b.stack ≤ length results.old) × (Slots b frontier.old × ((b.kept ≤ length kept.old) × ((b.plans ≤ length plans.old) × ((1 ≤ g.old.results) × Sound b g.old))))) }
    ensures meets { (R : Rules) (P : Prepared) (ts ps : List Row) → Meets b (counts g.old) (wrapping_up R P key (wrapping wrapper) (charging wrapper) (abs g.old ts results.old ps entries.old kept.old frontier.old plans.old)) (reached result g.new) (λ s. abs s ts results.new ps entries.new kept.new frontier.new plans.new) }
    ensures memory { MemoryAt b index.new entries.new (reached result g.new) }
{
    solve_workspace::pop_exact_result(g, results);
    let (start, len) = (g.start, g.len);
    solve_ranges::wrap_range(b, g, frontier, kept, plans, start, len, wrapper)?;
    complete_made(b, g, results, index, entries, key)
}

// The frontier of the results from `from` on.
fn choose_results(
    b: Bounds,
    g: &mut Registers,
    results: &[[u32; 2]],
    frontier: &mut [u64],
    kept: &mut [[u64; 6]],
    plans: &mut [[u32; 3]],
    from: usize,
) -> Result<(), Halt>
    requires { (b.stack ≤ length results.now) × (Slots b frontier.old × ((b.kept ≤ length kept.old) × ((b.plans ≤ length plans.old) × ((from ≤ g.old.results) × Sound b g.old)))) }
    ensures meets { (R : Rules) (P : Prepared) (ts ps es : List Row) → Meets b (counts g.old) (chosen R P from (abs g.old ts results.now ps es kept.old frontier.old plans.old)) (reached result g.new) (λ s. got (range s.start s.len) (abs s ts results.now ps es kept.new frontier.new plans.new)) }
    ensures keeps { Keeps g.old (reached result g.new) }
{
    solve_builder::begin_builder(g);
    solve_ranges::present_results(b, g, frontier, kept, results, from)?;
    solve_builder::finish_builder(b, g, frontier, kept, plans)
}

// The results from `result_start` on are the alternatives': they give way to the node's.
pub fn complete_choice_set(
    b: Bounds,
    g: &mut Registers,
    results: &mut [[u32; 2]],
    index: &mut [u64],
    entries: &mut [[u64; 6]],
    frontier: &mut [u64],
    kept: &mut [[u64; 6]],
    plans: &mut [[u32; 3]],
    key: MemoKey,
    result_start: u32,
) -> Result<(), Halt>
    requires { Memory b g.old.memo index.old entries.old × ((b.stack ≤ length results.old) × (Slots b frontier.old × ((b.kept ≤ length kept.old) × ((b.plans ≤ length plans.old) × ((result_start ≤ g.old.results) × Sound b g.old))))) }
    ensures meets { (R : Rules) (P : Prepared) (ts ps : List Row) → Meets b (counts g.old) (choosing R P key result_start (abs g.old ts results.old ps entries.old kept.old frontier.old plans.old)) (reached result g.new) (λ s. abs s ts results.new ps entries.new kept.new frontier.new plans.new) }
    ensures memory { MemoryAt b index.new entries.new (reached result g.new) }
{
    let from = result_start as usize;
    choose_results(b, g, results, frontier, kept, plans, from)?;
    g.results = from;
    complete_made(b, g, results, index, entries, key)
}
