// What the tasks of a sequence share (the loops in laidout's CompleteSequenceRight and fill_boundary, and the tasks that ContinueSequence pushes):
// a left candidate joined with each of those that follow it, and the next child evaluated at the column where it ends.
#![tactic(auto)]

ghost use Rattle.std.specs.Prelude.{◌≡◌, List, [], ◌∷◌, ℕ, ◌+◌, ◌≤◌, ◌<◌, length, get_or};
ghost use Rattle.layout.specs.Rules.{Rules};
ghost use Rattle.machine.specs.Model.{Prepared, part, range, children, scratch};
ghost use Rattle.machine.specs.Solver.{push_joined, push_right, push_pending};
ghost use Rattle.cost.specs.Value.{value};
ghost use Rattle.solve_workspace.specs.Meets.{Meets, Sound, counts};
ghost use Rattle.solve_workspace.specs.Frames.{Keeps};
ghost use Rattle.solve_workspace.specs.Turns.{reached};
ghost use Rattle.solve_workspace.specs.Rows.{Row, abs, candidate, candidate_of, row_list, plan_of};
ghost use Rattle.solve_join.specs.Joined.{joined};

use cost::ConsumerCost;
use file_tables::NodeId;
use memo::MemoKey;
use plan::{PendingPlan, PlanNode};
use solve_workspace::{Bounds, Candidate, ExactTask, Halt, Registers, Why};

// A candidate that becomes pending.
fn push_pending(
    b: Bounds,
    g: &mut Registers,
    pending: &mut [[u64; 7]],
    cost: ConsumerCost,
    last: u32,
    plan: PendingPlan,
) -> Result<(), Halt>
    requires { (b.stack ≤ length pending.old) × Sound b g.old }
    ensures meets { (ts rs es ks : List Row) (fs : List ℕ) (ns : List Row) → Meets b (counts g.old) (push_pending (scratch (value cost) last (plan_of plan)) (abs g.old ts rs pending.old es ks fs ns)) (reached result g.new) (λ s. abs s ts rs pending.new es ks fs ns) }
    ensures only { reached result g.new ≡ joined g.old result }
{
    let top = g.pending + 1;
    if (b.stack as usize) < top {
        return Err(Halt {
            why: Why::Stack,
            needed: top as u64,
        });
    }
    let c = solve_workspace::scratch_candidate(cost, last, plan);
    pending[g.pending] = [
        cost.overflow_high,
        cost.overflow_low,
        cost.burden,
        last as u64,
        c.kind,
        c.first,
        c.second,
    ];
    g.pending = top;
    solve_workspace::raise(&mut g.peaks.stack, top);
    Ok(())
}

// One left candidate followed by one right one.
fn push_join(
    b: Bounds,
    g: &mut Registers,
    pending: &mut [[u64; 7]],
    left: Candidate,
    right: Candidate,
) -> Result<(), Halt>
    requires { (b.stack ≤ length pending.old) × Sound b g.old }
    ensures meets { (ts rs es ks : List Row) (fs : List ℕ) (ns : List Row) → Meets b (counts g.old) (push_joined (candidate left) (candidate right ∷ []) (abs g.old ts rs pending.old es ks fs ns)) (reached result g.new) (λ s. abs s ts rs pending.new es ks fs ns) }
    ensures only { reached result g.new ≡ joined g.old result }
{
    let cost = left.cost.checked_add(right.cost)?;
    let plan = PendingPlan::New(PlanNode::Concat {
        left: left.plan,
        right: right.plan,
    });
    push_pending(b, g, pending, cost, right.last, plan)
}

// A left candidate followed by each of a range.
pub fn push_joined(
    b: Bounds,
    g: &mut Registers,
    kept: &[[u64; 6]],
    pending: &mut [[u64; 7]],
    left: Candidate,
    start: u32,
    len: u32,
) -> Result<(), Halt>
    requires { (b.stack ≤ length pending.old) × ((b.kept ≤ length kept.now) × Sound b g.old) }
    ensures meets { (ts rs es : List Row) (fs : List ℕ) (ns : List Row) → Meets b (counts g.old) (push_joined (candidate left) (part (row_list candidate_of kept.now g.old.kept) start len) (abs g.old ts rs pending.old es kept.now fs ns)) (reached result g.new) (λ s. abs s ts rs pending.new es kept.now fs ns) }
    ensures keeps { Keeps g.old (reached result g.new) }
{
    let count = g.kept;
    let first = start as usize;
    for at in first..first + len as usize {
        let right = solve_workspace::candidate_at(kept, count, at);
        push_join(b, g, pending, left, right)?;
    }
    Ok(())
}

// A child at the column where a left candidate ends.
pub fn push_right(
    b: Bounds,
    g: &mut Registers,
    kept: &[[u64; 6]],
    tasks: &mut [[u32; 9]],
    key: MemoKey,
    child: NodeId,
    child_index: u32,
    start: u32,
    len: u32,
    left_offset: u32,
    pending_start: u32,
) -> Result<(), Halt>
    requires { (b.stack ≤ length tasks.old) × ((b.kept ≤ length kept.now) × Sound b g.old) }
    ensures meets { (R : Rules) (P : Prepared) (rs ps es : List Row) (fs : List ℕ) (ns : List Row) → get_or (children (P.table.node key.node)) child_index 0 ≡ child.0 → Meets b (counts g.old) (push_right R P key child_index (range start len) left_offset pending_start (abs g.old tasks.old rs ps es kept.now fs ns)) (reached result g.new) (λ s. abs s tasks.new rs ps es kept.now fs ns) }
    ensures keeps { Keeps g.old (reached result g.new) }
{
    let at = start as usize + left_offset as usize;
    let left = solve_workspace::candidate_at(kept, g.kept, at);
    let task = ExactTask::CompleteSequenceRight {
        key,
        child_index,
        start,
        len,
        left_offset,
        pending_start,
    };
    let inner = MemoKey {
        node: child.0,
        column: left.last,
        ..key
    };
    solve_workspace::push_child(b, g, tasks, task, inner)
}
