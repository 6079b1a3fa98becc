// A Fill's gaps (the loop of laidout's fill_boundary): after each candidate a space or a newline, joined with it and left pending. Crate solve_continue makes the frontier of them.
#![tactic(auto)]

ghost use Rattle.std.specs.Prelude.{◌≡◌, List, ◌+◌, ◌≤◌, ◌<◌, length};
ghost use Rattle.frontier.specs.Candidates.{carried};
ghost use Rattle.machine.specs.Model.{Prepared, range, got};
ghost use Rattle.machine.specs.Solver.{push_gaps as gaps-pushed, present as presented, newline};
ghost use Rattle.solve_workspace.specs.Meets.{Meets, counts, Sound};
ghost use Rattle.solve_workspace.specs.Frames.{Keeps};
ghost use Rattle.solve_workspace.specs.Turns.{reached};
ghost use Rattle.solve_workspace.specs.Reading.{rules};
ghost use Rattle.solve_workspace.specs.Rows.{Row, abs, survivor, candidate};
ghost use Rattle.solve_builder.specs.Building.{Slots, Building, BuildingAt};
ghost use Rattle.solve_gaps.specs.Gaps.{spacing, bounding, gap};

use cost::ConsumerCost;
use file_tables::TextId;
use frontier::ScratchCandidate;
use plan::{PendingPlan, PlanNode};
use solve_workspace::{Bounds, Candidate, Halt, Registers, RenderOptions};

// A newline to an indent, presented after the space.
fn present_newline(
    options: RenderOptions,
    b: Bounds,
    g: &mut Registers,
    frontier: &mut [u64],
    indent: u32,
) -> Result<(), Halt>
    requires { Building b g.old frontier.old × Sound b g.old }
    ensures meets { (P : Prepared) (ts rs ps es ks ns : List Row) → Meets b (counts g.old) (presented (newline (rules options) P indent) (abs g.old ts rs ps es ks frontier.old ns)) (reached result g.new) (λ s. abs s ts rs ps es ks frontier.new ns) }
    ensures building { BuildingAt b frontier.new (reached result g.new) }
    ensures keeps { Keeps g.old (reached result g.new) }
{
    let line = solve_node::newline_candidate(options, indent)?;
    solve_builder::present(b, g, frontier, line)
}

// The frontier of a space and of a newline.
fn space_or_newline(
    options: RenderOptions,
    b: Bounds,
    g: &mut Registers,
    frontier: &mut [u64],
    kept: &mut [[u64; 6]],
    plans: &mut [[u32; 3]],
    space: ScratchCandidate,
    indent: u32,
) -> Result<(), Halt>
    requires { Slots b frontier.old × ((b.kept ≤ length kept.old) × ((b.plans ≤ length plans.old) × Sound b g.old)) }
    ensures meets { (P : Prepared) (ts rs ps es : List Row) → Meets b (counts g.old) (spacing (rules options) P (survivor (carried space)) indent (abs g.old ts rs ps es kept.old frontier.old plans.old)) (reached result g.new) (λ s. got (range s.start s.len) (abs s ts rs ps es kept.new frontier.new plans.new)) }
    ensures keeps { Keeps g.old (reached result g.new) }
{
    solve_builder::begin_builder(g);
    solve_builder::present(b, g, frontier, space)?;
    present_newline(options, b, g, frontier, indent)?;
    solve_builder::finish_builder(b, g, frontier, kept, plans)
}

// What may stand in a gap after a candidate that ends at the column.
fn boundary(
    options: RenderOptions,
    b: Bounds,
    g: &mut Registers,
    frontier: &mut [u64],
    kept: &mut [[u64; 6]],
    plans: &mut [[u32; 3]],
    space: TextId,
    column: u32,
    indent: u32,
) -> Result<(), Halt>
    requires { Slots b frontier.old × ((b.kept ≤ length kept.old) × ((b.plans ≤ length plans.old) × Sound b g.old)) }
    ensures meets { (P : Prepared) (ts rs ps es : List Row) → P.space_text ≡ space.0 → Meets b (counts g.old) (bounding (rules options) P column indent (abs g.old ts rs ps es kept.old frontier.old plans.old)) (reached result g.new) (λ s. got (range s.start s.len) (abs s ts rs ps es kept.new frontier.new plans.new)) }
    ensures keeps { Keeps g.old (reached result g.new) }
{
    let model = solve_workspace::cost_model(options);
    let cost = ConsumerCost::text(model, column, 1)?;
    let plan = PendingPlan::New(PlanNode::Text(space));
    let c = solve_workspace::scratch_candidate(cost, column + 1, plan);
    space_or_newline(options, b, g, frontier, kept, plans, c, indent)
}

// One candidate, followed by what may stand in the gap.
fn push_gap(
    options: RenderOptions,
    b: Bounds,
    g: &mut Registers,
    frontier: &mut [u64],
    kept: &mut [[u64; 6]],
    plans: &mut [[u32; 3]],
    pending: &mut [[u64; 7]],
    space: TextId,
    left: Candidate,
    indent: u32,
) -> Result<(), Halt>
    requires { Slots b frontier.old × ((b.kept ≤ length kept.old) × ((b.plans ≤ length plans.old) × ((b.stack ≤ length pending.old) × Sound b g.old))) }
    ensures meets { (P : Prepared) (ts rs es : List Row) → P.space_text ≡ space.0 → Meets b (counts g.old) (gap (rules options) P (candidate left) indent (abs g.old ts rs pending.old es kept.old frontier.old plans.old)) (reached result g.new) (λ s. abs s ts rs pending.new es kept.new frontier.new plans.new) }
    ensures keeps { Keeps g.old (reached result g.new) }
{
    boundary(
        options, b, g, frontier, kept, plans, space, left.last, indent,
    )?;
    let start = g.start;
    let len = g.len;
    solve_join::push_joined(b, g, kept, pending, left, start, len)
}

// The same for each candidate of a range.
pub fn push_gaps(
    options: RenderOptions,
    b: Bounds,
    g: &mut Registers,
    frontier: &mut [u64],
    kept: &mut [[u64; 6]],
    plans: &mut [[u32; 3]],
    pending: &mut [[u64; 7]],
    space: TextId,
    start: u32,
    len: u32,
    indent: u32,
) -> Result<(), Halt>
    requires { Slots b frontier.old × ((b.kept ≤ length kept.old) × ((b.plans ≤ length plans.old) × ((b.stack ≤ length pending.old) × Sound b g.old))) }
    ensures meets { (P : Prepared) (ts rs es : List Row) → P.space_text ≡ space.0 → Meets b (counts g.old) (gaps-pushed (rules options) P indent start len (abs g.old ts rs pending.old es kept.old frontier.old plans.old)) (reached result g.new) (λ s. abs s ts rs pending.new es kept.new frontier.new plans.new) }
    ensures keeps { Keeps g.old (reached result g.new) }
{
    let first = start as usize;
    for at in first..first + len as usize {
        let left = solve_workspace::candidate_at(kept, g.kept, at);
        push_gap(
            options, b, g, frontier, kept, plans, pending, space, left, indent,
        )?;
    }
    Ok(())
}
