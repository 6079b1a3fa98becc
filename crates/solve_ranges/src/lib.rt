// Frontiers made of many candidates, from what is kept, pending or on the results (laidout's union_ranges, wrap_range and the loops that present pending ones).
#![tactic(auto)]

ghost use Rattle.std.specs.Prelude.{◌≡◌, List, ◌≤◌, length};
ghost use Rattle.cost.specs.Value.{value};
ghost use Rattle.layout.specs.Rules.{Rules};
ghost use Rattle.machine.specs.Model.{Prepared, Made, range, got};
ghost use Rattle.machine.specs.Solver.{existing as standing, present_range, union_ranges, wrap_range, build_pending};
ghost use Rattle.frontier.specs.Candidates.{carried};
ghost use Rattle.solve_workspace.specs.Meets.{Meets, counts, Sound};
ghost use Rattle.solve_workspace.specs.Rows.{Row, abs, plan_of, survivor, candidate};
ghost use Rattle.solve_workspace.specs.Frames.{Keeps};
ghost use Rattle.solve_workspace.specs.Stacks.{with_pending_to};
ghost use Rattle.solve_workspace.specs.Turns.{reached};
ghost use Rattle.solve_builder.specs.Building.{Building, BuildingAt, Slots};
ghost use Rattle.solve_ranges.specs.Wrapping.{wrapping, charging, wrap_one, wrapped_range, pending_from, results_from};

use cost::ConsumerCost;
use file_tables::AnnotationId;
use frontier::ScratchCandidate;
use plan::{PendingPlan, PlanId, PlanNode};
use solve_workspace::{Bounds, Candidate, Halt, Registers};

// What stands around a candidate's plan.
#[derive(Clone, Copy)]
pub enum Wrapper {
    Annotate(AnnotationId),
    Penalty(u32),
}

// A kept candidate, to be presented again.
fn existing(c: Candidate) -> ScratchCandidate
    ensures { survivor (carried result) ≡ standing (candidate c) }
{
    solve_workspace::scratch_candidate(c.cost, c.last, PendingPlan::Existing(c.plan))
}

// ---- loops that present, one call each
// They stay four: over a closure the one loop would need a contract of the closure, on which program of the machine each call is, longer than the loops.

// The kept candidates of a range.
fn present_range(
    b: Bounds,
    g: &mut Registers,
    frontier: &mut [u64],
    kept: &[[u64; 6]],
    start: u32,
    len: u32,
) -> Result<(), Halt>
    requires { Building b g.old frontier.old × ((b.kept ≤ length kept.now) × Sound b g.old) }
    ensures meets { (ts rs ps es ns : List Row) → Meets b (counts g.old) (present_range (range start len) (abs g.old ts rs ps es kept.now frontier.old ns)) (reached result g.new) (λ s. abs s ts rs ps es kept.now frontier.new ns) }
    ensures building { BuildingAt b frontier.new (reached result g.new) }
    ensures keeps { Keeps g.old (reached result g.new) }
{
    let count = g.kept;
    let from = start as usize;
    for i in from..from + len as usize {
        let c = solve_workspace::candidate_at(kept, count, i);
        solve_builder::present(b, g, frontier, existing(c))?;
    }
    Ok(())
}

fn wrapped(wrapper: Wrapper, plan: PlanId) -> PendingPlan
    ensures { plan_of result ≡ Made (wrapping wrapper plan.0) }
{
    PendingPlan::New(match wrapper {
        Wrapper::Annotate(annotation) => PlanNode::Annotate {
            annotation,
            child: plan,
        },
        Wrapper::Penalty(amount) => PlanNode::Penalty {
            amount,
            child: plan,
        },
    })
}

fn charge(wrapper: Wrapper) -> ConsumerCost
    ensures { value result ≡ charging wrapper }
{
    match wrapper {
        Wrapper::Annotate(_) => ConsumerCost::ZERO,
        Wrapper::Penalty(amount) => ConsumerCost::penalty(amount),
    }
}

// One candidate, charged and wrapped: its cost is tested before the work.
fn present_charged(
    b: Bounds,
    g: &mut Registers,
    frontier: &mut [u64],
    c: Candidate,
    wrapper: Wrapper,
) -> Result<(), Halt>
    requires { Building b g.old frontier.old × Sound b g.old }
    ensures meets { (ts rs ps es ks ns : List Row) → Meets b (counts g.old) (wrap_one (wrapping wrapper) (charging wrapper) (candidate c) (abs g.old ts rs ps es ks frontier.old ns)) (reached result g.new) (λ s. abs s ts rs ps es ks frontier.new ns) }
    ensures building { BuildingAt b frontier.new (reached result g.new) }
    ensures keeps { Keeps g.old (reached result g.new) }
{
    let total = c.cost.checked_add(charge(wrapper))?;
    let x = solve_workspace::scratch_candidate(total, c.last, wrapped(wrapper, c.plan));
    solve_builder::present(b, g, frontier, x)
}

// The kept candidates of a range, each charged and wrapped.
fn present_wrapped(
    b: Bounds,
    g: &mut Registers,
    frontier: &mut [u64],
    kept: &[[u64; 6]],
    start: u32,
    len: u32,
    wrapper: Wrapper,
) -> Result<(), Halt>
    requires { Building b g.old frontier.old × ((b.kept ≤ length kept.now) × Sound b g.old) }
    ensures meets { (ts rs ps es ns : List Row) → Meets b (counts g.old) (wrapped_range (wrapping wrapper) (charging wrapper) (range start len) (abs g.old ts rs ps es kept.now frontier.old ns)) (reached result g.new) (λ s. abs s ts rs ps es kept.now frontier.new ns) }
    ensures building { BuildingAt b frontier.new (reached result g.new) }
    ensures keeps { Keeps g.old (reached result g.new) }
{
    let count = g.kept;
    let from = start as usize;
    for i in from..from + len as usize {
        let c = solve_workspace::candidate_at(kept, count, i);
        present_charged(b, g, frontier, c, wrapper)?;
    }
    Ok(())
}

// The pending candidates from `from` on.
fn present_pending(
    b: Bounds,
    g: &mut Registers,
    frontier: &mut [u64],
    pending: &[[u64; 7]],
    from: usize,
) -> Result<(), Halt>
    requires { Building b g.old frontier.old × ((b.stack ≤ length pending.now) × Sound b g.old) }
    ensures meets { (ts rs es ks ns : List Row) → Meets b (counts g.old) (pending_from from (abs g.old ts rs pending.now es ks frontier.old ns)) (reached result g.new) (λ s. abs s ts rs pending.now es ks frontier.new ns) }
    ensures building { BuildingAt b frontier.new (reached result g.new) }
    ensures keeps { Keeps g.old (reached result g.new) }
{
    for i in from..g.pending {
        let x = solve_workspace::pending_at(pending, i);
        solve_builder::present(b, g, frontier, x)?;
    }
    Ok(())
}

// The ranges of the results from `from` on, the oldest first.
pub fn present_results(
    b: Bounds,
    g: &mut Registers,
    frontier: &mut [u64],
    kept: &[[u64; 6]],
    results: &[[u32; 2]],
    from: usize,
) -> Result<(), Halt>
    requires { Building b g.old frontier.old × ((b.kept ≤ length kept.now) × ((b.stack ≤ length results.now) × ((from ≤ g.old.results) × Sound b g.old))) }
    ensures meets { (R : Rules) (P : Prepared) (ts ps es ns : List Row) → Meets b (counts g.old) (results_from R P from (abs g.old ts results.now ps es kept.now frontier.old ns)) (reached result g.new) (λ s. abs s ts results.now ps es kept.now frontier.new ns) }
    ensures building { BuildingAt b frontier.new (reached result g.new) }
    ensures keeps { Keeps g.old (reached result g.new) }
{
    for i in from..g.results {
        let row = results[i];
        present_range(b, g, frontier, kept, row[0], row[1])?;
    }
    Ok(())
}

// ---- whole frontiers

// The preferred range, then the other.
pub fn union_ranges(
    b: Bounds,
    g: &mut Registers,
    frontier: &mut [u64],
    kept: &mut [[u64; 6]],
    plans: &mut [[u32; 3]],
    start: u32,
    len: u32,
    other_start: u32,
    other_len: u32,
) -> Result<(), Halt>
    requires { Slots b frontier.old × ((b.kept ≤ length kept.old) × ((b.plans ≤ length plans.old) × Sound b g.old)) }
    ensures meets { (ts rs ps es : List Row) → Meets b (counts g.old) (union_ranges (range start len) (range other_start other_len) (abs g.old ts rs ps es kept.old frontier.old plans.old)) (reached result g.new) (λ s. got (range s.start s.len) (abs s ts rs ps es kept.new frontier.new plans.new)) }
    ensures keeps { Keeps g.old (reached result g.new) }
{
    solve_builder::begin_builder(g);
    present_range(b, g, frontier, kept, start, len)?;
    present_range(b, g, frontier, kept, other_start, other_len)?;
    solve_builder::finish_builder(b, g, frontier, kept, plans)
}

// A range, each candidate charged and wrapped.
pub fn wrap_range(
    b: Bounds,
    g: &mut Registers,
    frontier: &mut [u64],
    kept: &mut [[u64; 6]],
    plans: &mut [[u32; 3]],
    start: u32,
    len: u32,
    wrapper: Wrapper,
) -> Result<(), Halt>
    requires { Slots b frontier.old × ((b.kept ≤ length kept.old) × ((b.plans ≤ length plans.old) × Sound b g.old)) }
    ensures meets { (ts rs ps es : List Row) → Meets b (counts g.old) (wrap_range (range start len) (wrapping wrapper) (charging wrapper) (abs g.old ts rs ps es kept.old frontier.old plans.old)) (reached result g.new) (λ s. got (range s.start s.len) (abs s ts rs ps es kept.new frontier.new plans.new)) }
    ensures keeps { Keeps g.old (reached result g.new) }
{
    solve_builder::begin_builder(g);
    present_wrapped(b, g, frontier, kept, start, len, wrapper)?;
    solve_builder::finish_builder(b, g, frontier, kept, plans)
}

// What is pending from `start` on, which is pending no more.
pub fn build_pending(
    b: Bounds,
    g: &mut Registers,
    frontier: &mut [u64],
    pending: &[[u64; 7]],
    kept: &mut [[u64; 6]],
    plans: &mut [[u32; 3]],
    start: usize,
) -> Result<(), Halt>
    requires { Slots b frontier.old × ((b.stack ≤ length pending.now) × ((b.kept ≤ length kept.old) × ((b.plans ≤ length plans.old) × ((start ≤ g.old.pending) × Sound b g.old)))) }
    ensures meets { (ts rs es : List Row) → Meets b (counts g.old) (build_pending start (abs g.old ts rs pending.now es kept.old frontier.old plans.old)) (reached result g.new) (λ s. got (range s.start s.len) (abs s ts rs pending.now es kept.new frontier.new plans.new)) }
    ensures keeps { Keeps (with_pending_to g.old start) (reached result g.new) }
{
    solve_builder::begin_builder(g);
    present_pending(b, g, frontier, pending, start)?;
    g.pending = start;
    solve_builder::finish_builder(b, g, frontier, kept, plans)
}
