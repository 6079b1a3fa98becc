// One frontier under construction (laidout's begin_builder, present, finish_builder, singleton): crate frontier on the solver's registers, with the work,
// the counts and the tests of sizes of document 01, "Calls".
#![tactic(auto)]

ghost use Rattle.std.specs.Prelude.{◌≡◌, List, [], ◌∷◌, map, ◌+◌, ◌≤◌, ◌<◌, ◌^◌, length};
ghost use Rattle.stats.specs.declared.SolveCounter.TheVariants.{WorkItems, CandidatesGenerated};
ghost use Rattle.stats.specs.Counts.{bumped};
ghost use Rattle.plan.specs.Arena.{room_for};
ghost use Rattle.machine.specs.Model.{range, got};
ghost use Rattle.machine.specs.Solver.{present as presenting, finish_builder, singleton as alone, additional_plans};
ghost use Rattle.frontier.specs.Candidates.{carried, survivors};
ghost use Rattle.solve_workspace.specs.Meets.{Meets, counts, Sound};
ghost use Rattle.solve_workspace.specs.Rows.{Row, abs, plan_of, survivor, candidate_of};
ghost use Rattle.solve_workspace.specs.Frames.{Keeps};
ghost use Rattle.solve_workspace.specs.Turns.{reached};
ghost use Rattle.solve_workspace.specs.Work.{with_stats};
ghost use Rattle.solve_builder.specs.Building.{Building, BuildingAt, Begun, Slots};
ghost use Rattle.solve_builder.specs.Committing.{kept_as, Commits, Committable, CommittableOne};

use frontier::ScratchCandidate;
use plan::{PendingPlan, PlanId, PlanRecord};
use solve_workspace::{Bounds, Halt, Registers, Why};

// ---- presenting

// A unit of work, and a candidate.
#[tactic(auto, unfolding(stats::specs::Counts::bumped))]
fn count_candidate(g: &mut Registers)
    requires { (g.old.stats.work_items + 1 < 2 ^ 64) × (g.old.stats.candidates_generated + 1 < 2 ^ 64) }
    ensures { g.new ≡ with_stats g.old (bumped (bumped g.old.stats WorkItems) CandidatesGenerated) }
{
    g.stats.work_items += 1;
    g.stats.candidates_generated += 1;
}

// An empty frontier, whatever the slots hold. Of the one before it as many slots were needed as it used.
pub fn begin_builder(g: &mut Registers)
    ensures { Begun g.old g.new }
{
    solve_workspace::raise(&mut g.peaks.frontier, g.builder.used as usize);
    g.builder = frontier::begin_builder();
}

// One candidate: a unit of work, tested first, and the candidate counted; then it is pruned or kept, and those that it removes are counted.
pub fn present(
    b: Bounds,
    g: &mut Registers,
    frontier: &mut [u64],
    c: ScratchCandidate,
) -> Result<(), Halt>
    requires { Building b g.old frontier.old × Sound b g.old }
    ensures meets { (ts rs ps es ks ns : List Row) → Meets b (counts g.old) (presenting (survivor (carried c)) (abs g.old ts rs ps es ks frontier.old ns)) (reached result g.new) (λ s. abs s ts rs ps es ks frontier.new ns) }
    ensures building { BuildingAt b frontier.new (reached result g.new) }
    ensures keeps { Keeps g.old (reached result g.new) }
{
    if b.work_limit <= g.stats.work_items {
        return Err(Halt {
            why: Why::Work,
            needed: 0,
        });
    }
    let ranked = ScratchCandidate {
        precedence: g.stats.candidates_generated,
        ..c
    };
    let builder = g.builder;
    count_candidate(g);
    let after = frontier::present(frontier, b.frontier as u64, builder, ranked)?;
    g.builder = after.builder;
    g.stats.candidates_pruned += after.pruned;
    Ok(())
}

// ---- finishing: the survivors go into the kept rows, in order of presentation

// The pending plan of a candidate.
fn pending_of(c: ScratchCandidate) -> PendingPlan
    ensures { plan_of result ≡ (survivor (carried c)).plan.plan }
{
    plan::pending_plan(PlanRecord {
        first: solve_workspace::narrow(c.first),
        second: solve_workspace::narrow(c.second),
        kind: solve_workspace::narrow(c.kind),
    })
}

// A kept candidate in words.
fn kept_row(c: ScratchCandidate, plan: PlanId) -> [u64; 6]
    ensures { candidate_of result ≡ kept_as (survivor (carried c)) plan.0 }
{
    [
        c.cost.overflow_high,
        c.cost.overflow_low,
        c.cost.burden,
        c.last as u64,
        c.precedence,
        plan.0 as u64,
    ]
}

// How many plans the survivors add.
fn additional_plans(b: Bounds, g: &Registers, frontier: &[u64]) -> usize
    requires { Building b g.now frontier.now × Sound b g.now }
    ensures { (result ≡ length (additional_plans (map survivor (survivors frontier.now g.now.builder)))) × (result ≤ g.now.builder.live) }
{
    let mut count = 0;
    let mut cursor = frontier::first(g.builder);
    // Those that are left: links alone do not show that the walk ends.
    let mut left = g.builder.live;
    while let Some(s) = cursor {
        count += plan::additional_plans(pending_of(frontier::candidate(frontier, s)));
        left -= 1;
        cursor = frontier::following(frontier, s);
    }
    count
}

// Whether the survivors' plans have room. They are at most as many as the survivors, and are counted only where these would not have.
fn plan_room(b: Bounds, g: &Registers, frontier: &[u64]) -> Result<(), plan::Full>
    requires { Building b g.now frontier.now × Sound b g.now }
    ensures { result ≡ room_for (g.now.plans + length (additional_plans (map survivor (survivors frontier.now g.now.builder)))) b.plans }
{
    let live = g.builder.live as usize;
    if g.plans + live <= b.plans as usize {
        return Ok(());
    }
    plan::ensure_plan(g.plans, additional_plans(b, g, frontier), b.plans as usize)
}

// One candidate into row k, with its plan after the first n. Returns the number of plans then.
fn commit(
    kept: &mut [[u64; 6]],
    plans: &mut [[u32; 3]],
    k: usize,
    n: usize,
    c: ScratchCandidate,
) -> usize
    requires { CommittableOne (survivor (carried c)) kept.old plans.old k n }
    ensures { Commits (survivor (carried c) ∷ []) kept.old plans.old kept.new plans.new k n (k + 1) result }
{
    let done = plan::commit_plan(plans, n, pending_of(c));
    kept[k] = kept_row(c, done.plan);
    done.count
}

// All survivors into the rows after those kept, with their plans after those that stand. Returns the number of plans then.
fn commit_all(
    b: Bounds,
    g: &Registers,
    frontier: &[u64],
    kept: &mut [[u64; 6]],
    plans: &mut [[u32; 3]],
) -> usize
    requires { Committable b g.now frontier.now kept.old plans.old × Sound b g.now }
    ensures { Commits (map survivor (survivors frontier.now g.now.builder)) kept.old plans.old kept.new plans.new g.now.kept g.now.plans (g.now.kept + g.now.builder.live) result }
{
    let mut k = g.kept;
    let mut n = g.plans;
    // A while let: the survivors are linked, so there is no range to go over.
    let mut cursor = frontier::first(g.builder);
    while let Some(s) = cursor {
        n = commit(kept, plans, k, n, frontier::candidate(frontier, s));
        k += 1;
        cursor = frontier::following(frontier, s);
    }
    n
}

// The size tests of plans and of kept candidates, in this order; then the survivors are kept, and their range stands in the registers.
pub fn finish_builder(
    b: Bounds,
    g: &mut Registers,
    frontier: &[u64],
    kept: &mut [[u64; 6]],
    plans: &mut [[u32; 3]],
) -> Result<(), Halt>
    requires { Building b g.old frontier.now × ((b.kept ≤ length kept.old) × ((b.plans ≤ length plans.old) × Sound b g.old)) }
    ensures meets { (ts rs ps es : List Row) → Meets b (counts g.old) (finish_builder (abs g.old ts rs ps es kept.old frontier.now plans.old)) (reached result g.new) (λ s. got (range s.start s.len) (abs s ts rs ps es kept.new frontier.now plans.new)) }
    ensures keeps { Keeps g.old (reached result g.new) }
{
    plan_room(b, g, frontier)?;
    let live = g.builder.live;
    let required = g.kept + live as usize;
    if (b.kept as usize) < required {
        return Err(Halt {
            why: Why::Kept,
            needed: required as u64,
        });
    }
    g.plans = commit_all(b, g, frontier, kept, plans);
    g.start = g.kept as u32;
    g.len = live as u32;
    g.kept = required;
    g.stats.peak_frontier = g.stats.peak_frontier.max(live);
    Ok(())
}

// A frontier of one candidate.
pub fn singleton(
    b: Bounds,
    g: &mut Registers,
    frontier: &mut [u64],
    kept: &mut [[u64; 6]],
    plans: &mut [[u32; 3]],
    c: ScratchCandidate,
) -> Result<(), Halt>
    requires { Slots b frontier.old × ((b.kept ≤ length kept.old) × ((b.plans ≤ length plans.old) × Sound b g.old)) }
    ensures meets { (ts rs ps es : List Row) → Meets b (counts g.old) (alone (survivor (carried c)) (abs g.old ts rs ps es kept.old frontier.old plans.old)) (reached result g.new) (λ s. got (range s.start s.len) (abs s ts rs ps es kept.new frontier.new plans.new)) }
    ensures keeps { Keeps g.old (reached result g.new) }
{
    begin_builder(g);
    present(b, g, frontier, c)?;
    finish_builder(b, g, frontier, kept, plans)
}
