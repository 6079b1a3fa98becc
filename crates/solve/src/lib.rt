// The solver's loop (laidout's ExactSolver::solve): the tasks are worked off from the root on, and the best candidate of the root's frontier is taken.
#![tactic(auto)]

ghost use Rattle.std.specs.Prelude.{◌≡◌, cond, List, [], ℕ, ◌≤◌, length};
ghost use Rattle.layout.specs.Rules.{Rules};
ghost use Rattle.machine.specs.Events.{run, no_counts};
ghost use Rattle.machine.specs.Model.{Prepared, part};
ghost use Rattle.machine.specs.Solve.{rest, before, solve_tasks};
ghost use Rattle.machine.specs.Solve.{take_best as best-taken, solve as solving};
ghost use Rattle.solve_workspace.specs.Meets.{Meets, counts, limits, Sound};
ghost use Rattle.solve_workspace.specs.declared.Bounds.{Bounds as Sizes};
ghost use Rattle.solve_workspace.specs.Rows.{Row, abs, candidate, candidate_of, row_list};
ghost use Rattle.solve_workspace.specs.Frames.{Memory};
ghost use Rattle.solve_workspace.specs.Turns.{reached};
ghost use Rattle.solve_workspace.specs.Reading.{prepared, tables, rules};
ghost use Rattle.solve_execute.specs.Turn.{Room};
ghost use Rattle.solve.specs.Accepted.{Accepted, Typed, MemoRoom, NeedsFit, Topped};
ghost use Rattle.solve.specs.Outcome.{outcome, least_of, needs_low, Plans, unfitted, stats_in};
ghost use Rattle.solve.specs.Numbered.{TextsBelow};

use cost::ConsumerCost;
use file_tables::{NodeId, TextId};
use frontier::Builder;
use memo::MemoKey;
use plan::PlanId;
use solve_execute::execute_task;
use solve_workspace::{Bounds, Candidate, ExactTask, Halt, Peaks, Registers, RenderOptions};
use stats::SolveStats;

// What the solver needed of each of its kinds, 13 to 17.
#[derive(Clone, Copy)]
pub struct SolverNeeds {
    pub stack: u32,
    pub memo: u32,
    pub kept: u32,
    pub frontier: u32,
    pub plans: u32,
}

// The chosen plan, its cost, how many plans there are, the counts, and what was needed.
#[derive(Clone, Copy)]
pub struct SolvedCore {
    pub root: PlanId,
    pub cost: ConsumerCost,
    pub plans: usize,
    pub stats: SolveStats,
    pub needs: SolverNeeds,
}

// Why nothing is found, and the counts so far.
#[derive(Clone, Copy)]
pub struct Unsolved {
    pub halt: Halt,
    pub stats: SolveStats,
}

// What every call starts from. A frontier is begun before the builder is used.
const START: Registers = Registers {
    tasks: 0,
    results: 0,
    pending: 0,
    memo: 0,
    kept: 0,
    plans: 0,
    start: 0,
    len: 0,
    builder: Builder {
        root: 0,
        head: 0,
        tail: 0,
        free: 0,
        used: 0,
        live: 0,
    },
    stats: SolveStats::ZERO,
    peaks: Peaks {
        stack: 0,
        memo: 0,
        frontier: 0,
    },
};

// ---- the best candidate

// The one that is less by cost and precedence; `best` where neither is.
#[tactic(auto, unfolding(machine::specs::Solve::before))]
fn lesser(next: Candidate, best: Candidate) -> Candidate
    ensures { candidate result ≡ cond (before (candidate next) (candidate best)) (candidate next) (candidate best) }
{
    if next.cost.less(best.cost)
        || next.cost.at_most(best.cost) && next.precedence < best.precedence
    {
        next
    } else {
        best
    }
}

// The first least of `len` kept candidates from `start` on (min_by_key).
fn least_candidate(kept: &[[u64; 6]], count: usize, start: u32, len: u32) -> Candidate
    requires { (1 ≤ len) × (count ≤ length kept.now) }
    ensures { candidate result ≡ least_of (part (row_list candidate_of kept.now count) start len) }
{
    let mut best = solve_workspace::candidate_at(kept, count, start as usize);
    for i in 1..len {
        let next = solve_workspace::candidate_at(kept, count, start as usize + i as usize);
        best = lesser(next, best);
    }
    best
}

// The counts. Fit checks are not the solver's.
fn stats_of(g: &Registers) -> SolveStats
    ensures { result ≡ unfitted g.now.stats }
{
    SolveStats {
        fit_checks: 0,
        ..g.stats
    }
}

// What was needed. Each has its place in 32 bits, since as much was lent.
fn needs_of(g: &Registers) -> SolverNeeds
    requires { NeedsFit g.now }
    ensures { result ≡ needs_low g.now }
{
    SolverNeeds {
        stack: g.peaks.stack as u32,
        memo: g.peaks.memo as u32,
        kept: g.kept as u32,
        frontier: g.peaks.frontier.max(g.builder.used as usize) as u32,
        plans: g.plans as u32,
    }
}

fn take_best(g: &mut Registers, results: &[[u32; 2]], kept: &[[u64; 6]]) -> SolvedCore
    requires { Topped g.old results.now kept.now }
    ensures meets { (b : Sizes) (R : Rules) (P : Prepared) (ts ps es : List Row) (fs : List ℕ) (ns : List Row) → run (limits b) (counts g.old) (best-taken R P (abs g.old ts results.now ps es kept.now fs ns)) ≡ outcome (Ok result) ns }
    ensures plans { result.plans ≡ g.old.plans }
    ensures no_fit_checks { result.stats.fit_checks ≡ 0 }
{
    let needs = needs_of(g);
    solve_workspace::pop_exact_result(g, results);
    let best = least_candidate(kept, g.kept, g.start, g.len);
    SolvedCore {
        root: best.plan,
        cost: best.cost,
        plans: g.plans,
        stats: SolveStats {
            plan_nodes: g.plans as u64,
            ..stats_of(g)
        },
        needs,
    }
}

// ---- the tasks

// The task on top is taken off and executed, until none is left.
fn work_off(
    options: RenderOptions,
    b: Bounds,
    g: &mut Registers,
    nodes: &[[u32; 8]],
    edges: &[u32],
    choices: &[u32],
    texts: &[[u32; 3]],
    space: TextId,
    tasks: &mut [[u32; 9]],
    results: &mut [[u32; 2]],
    pending: &mut [[u64; 7]],
    index: &mut [u64],
    entries: &mut [[u64; 6]],
    frontier: &mut [u64],
    kept: &mut [[u64; 6]],
    plans: &mut [[u32; 3]],
) -> Result<(), Halt>
    requires { Room b tasks.old results.old pending.old frontier.old kept.old plans.old × (Memory b g.old.memo index.old entries.old × (Sound b g.old × (Accepted nodes.now edges.now choices.now texts.now space.0 × ((bytes : List ℕ) (annotations root : ℕ) → Typed (rules options) (prepared (tables nodes.now edges.now choices.now texts.now bytes annotations root space.0)) (abs g.old tasks.old results.old pending.old entries.old kept.old frontier.old plans.old))))) }
    ensures { (bytes : List ℕ) (annotations root : ℕ) → Meets b (counts g.old) (rest (rules options) (prepared (tables nodes.now edges.now choices.now texts.now bytes annotations root space.0)) (abs g.old tasks.old results.old pending.old entries.old kept.old frontier.old plans.old)) (reached result g.new) (λ s. abs s tasks.new results.new pending.new entries.new kept.new frontier.new plans.new) }
{
    // A while loop: the stack grows and shrinks, so there is no range to go over.
    while 0 < g.tasks {
        g.tasks -= 1;
        let task = solve_workspace::row_task(tasks[g.tasks]);
        execute_task(
            options, b, g, nodes, edges, choices, texts, space, tasks, results, pending, index,
            entries, frontier, kept, plans, task,
        )?;
    }
    Ok(())
}

// From nothing, with the root's task, whatever the working memory holds.
fn run_tasks(
    options: RenderOptions,
    b: Bounds,
    g: &mut Registers,
    nodes: &[[u32; 8]],
    edges: &[u32],
    choices: &[u32],
    texts: &[[u32; 3]],
    root: NodeId,
    space: TextId,
    tasks: &mut [[u32; 9]],
    results: &mut [[u32; 2]],
    pending: &mut [[u64; 7]],
    index: &mut [u64],
    entries: &mut [[u64; 6]],
    frontier: &mut [u64],
    kept: &mut [[u64; 6]],
    plans: &mut [[u32; 3]],
) -> Result<(), Halt>
    requires { Room b tasks.old results.old pending.old frontier.old kept.old plans.old × (MemoRoom b index.old entries.old × (Accepted nodes.now edges.now choices.now texts.now space.0 × (g.old ≡ START))) }
    ensures { (bytes : List ℕ) (annotations : ℕ) → Meets b no_counts (solve_tasks (rules options) (prepared (tables nodes.now edges.now choices.now texts.now bytes annotations root.0 space.0))) (reached result g.new) (λ s. abs s tasks.new results.new pending.new entries.new kept.new frontier.new plans.new) }
{
    solve_builder::begin_builder(g);
    let key = MemoKey {
        node: root.0,
        column: 0,
        indent: 0,
    };
    solve_workspace::push_exact_task(b, g, tasks, ExactTask::Eval(key))?;
    work_off(
        options, b, g, nodes, edges, choices, texts, space, tasks, results, pending, index,
        entries, frontier, kept, plans,
    )
}

pub fn solve(
    options: RenderOptions,
    b: Bounds,
    nodes: &[[u32; 8]],
    edges: &[u32],
    choices: &[u32],
    texts: &[[u32; 3]],
    root: NodeId,
    space: TextId,
    tasks: &mut [[u32; 9]],
    results: &mut [[u32; 2]],
    pending: &mut [[u64; 7]],
    index: &mut [u64],
    entries: &mut [[u64; 6]],
    frontier: &mut [u64],
    kept: &mut [[u64; 6]],
    plans: &mut [[u32; 3]],
) -> Result<SolvedCore, Unsolved>
    requires { Room b tasks.old results.old pending.old frontier.old kept.old plans.old × (MemoRoom b index.old entries.old × Accepted nodes.now edges.now choices.now texts.now space.0) }
    ensures meets { (bytes : List ℕ) (annotations : ℕ) → run (limits b) no_counts (solving (rules options) (prepared (tables nodes.now edges.now choices.now texts.now bytes annotations root.0 space.0))) ≡ outcome result plans.new }
    ensures arranged { (t : ℕ) → TextsBelow t (prepared (tables nodes.now edges.now choices.now texts.now [] 0 0 space.0)) → Plans t result plans.new }
    ensures no_fit_checks { (stats_in result).fit_checks ≡ 0 }
{
    let mut g = START;
    match run_tasks(
        options, b, &mut g, nodes, edges, choices, texts, root, space, tasks, results, pending,
        index, entries, frontier, kept, plans,
    ) {
        Err(halt) => Err(Unsolved {
            halt,
            stats: stats_of(&g),
        }),
        Ok(()) => Ok(take_best(&mut g, results, kept)),
    }
}
