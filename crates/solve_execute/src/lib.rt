// One task, handed to the crate that does it (laidout's execute_task).
#![tactic(auto)]

ghost use Rattle.std.specs.Prelude.{List, ℕ};
ghost use Rattle.machine.specs.Solver.{execute_task};
ghost use Rattle.solve_workspace.specs.Meets.{Meets, counts, Sound};
ghost use Rattle.solve_workspace.specs.Rows.{abs, meant};
ghost use Rattle.solve_workspace.specs.Frames.{Memory, MemoryAt};
ghost use Rattle.solve_workspace.specs.Turns.{reached};
ghost use Rattle.solve_workspace.specs.Reading.{prepared, tables, rules};
ghost use Rattle.solve_execute.specs.Turn.{Room, Fits};

use file_tables::TextId;
use solve_ranges::Wrapper;
use solve_workspace::{Bounds, ExactTask, Halt, Registers, RenderOptions};

pub fn execute_task(
    options: RenderOptions,
    b: Bounds,
    g: &mut Registers,
    nodes: &[[u32; 8]],
    edges: &[u32],
    choices: &[u32],
    texts: &[[u32; 3]],
    space: TextId,
    tasks: &mut [[u32; 9]],
    results: &mut [[u32; 2]],
    pending: &mut [[u64; 7]],
    index: &mut [u64],
    entries: &mut [[u64; 6]],
    frontier: &mut [u64],
    kept: &mut [[u64; 6]],
    plans: &mut [[u32; 3]],
    task: ExactTask,
) -> Result<(), Halt>
    requires { Room b tasks.old results.old pending.old frontier.old kept.old plans.old × (Memory b g.old.memo index.old entries.old × (Sound b g.old × Fits nodes.now edges.now g.old (meant task))) }
    ensures meets { (bytes : List ℕ) (annotations root : ℕ) → Meets b (counts g.old) (execute_task (rules options) (prepared (tables nodes.now edges.now choices.now texts.now bytes annotations root space.0)) (meant task) (abs g.old tasks.old results.old pending.old entries.old kept.old frontier.old plans.old)) (reached result g.new) (λ s. abs s tasks.new results.new pending.new entries.new kept.new frontier.new plans.new) }
    ensures memory { MemoryAt b index.new entries.new (reached result g.new) }
{
    match task {
        ExactTask::Eval(key) => solve_begin::begin_node(
            options, b, g, nodes, edges, choices, texts, tasks, results, index, entries, frontier,
            kept, plans, key,
        ),
        ExactTask::CompleteAlias(key) => solve_complete::complete_alias(
            b, g, results, index, entries, key,
        ),
        ExactTask::CompleteUnion(key) => solve_complete::complete_union(
            b, g, results, index, entries, frontier, kept, plans, key,
        ),
        ExactTask::CompleteChoiceSet {
            key,
            result_start: from,
        } => solve_complete::complete_choice_set(
            b, g, results, index, entries, frontier, kept, plans, key, from,
        ),
        ExactTask::CompleteAnnotate { key, annotation } => solve_complete::complete_wrapped(
            b,
            g,
            results,
            index,
            entries,
            frontier,
            kept,
            plans,
            key,
            Wrapper::Annotate(annotation),
        ),
        ExactTask::CompletePenalty { key, amount } => solve_complete::complete_wrapped(
            b,
            g,
            results,
            index,
            entries,
            frontier,
            kept,
            plans,
            key,
            Wrapper::Penalty(amount),
        ),
        ExactTask::ContinueSequence {
            key,
            child_index: child,
        } => solve_continue::continue_sequence(
            options, b, g, nodes, edges, tasks, results, index, entries, frontier, kept, plans,
            pending, space, key, child,
        ),
        ExactTask::CompleteSequenceRight {
            key,
            child_index: child,
            start,
            len,
            left_offset: offset,
            pending_start: from,
        } => {
            // A child's number has a next one: its node's row counts the children in 32 bits.
            let most = file_tables::node_word(nodes, key.node as usize, 2);
            prove!(child < most);
            solve_right::complete_sequence_right(
                b, g, nodes, edges, tasks, results, frontier, kept, plans, pending, key, child,
                start, len, offset, from,
            )
        }
    }
}
