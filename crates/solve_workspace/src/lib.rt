// The solver's stores in lent rows and its registers in one lent record (laidout's RenderWorkspace), and what it means that code meets the machine.
// An operation takes only the slices that it touches; its contract holds for whatever the others are.
#![tactic(auto)]

ghost use Rattle.std.specs.Prelude.{◌≡◌, List, [], ℕ, ◌+◌, ◌≤◌, ◌<◌, ◌%◌, ◌^◌, max, length, get_or};
ghost use Rattle.machine.specs.Events.{ret, Hit, Miss, number};
ghost use Rattle.layout.specs.Rules.{Rules};
ghost use Rattle.machine.specs.Model.{Prepared, range, scratch, no_candidate, got};
ghost use Rattle.machine.specs.Solver.{push_exact_task, push_exact_result, pop_exact_result, complete_node, push_child};
ghost use Rattle.machine.specs.Solver.{memo_insert as inserting};
ghost use Rattle.frontier.specs.Candidates.{carried};
ghost use Rattle.cost.specs.Value.{value};
ghost use Rattle.solve_workspace.specs.Meets.{Meets, Sound, counts, ticked, reason};
ghost use Rattle.solve_workspace.specs.Rows.{Row, abs, task_of, meant, plan_of, scratch_of, survivor, candidate, candidate_of, row_list};
ghost use Rattle.solve_workspace.specs.Frames.{Keeps, SameMemo, Popped, Memory, MemoryAt};
ghost use Rattle.solve_workspace.specs.Turns.{halt_past, halt_frontier, halt_memo, halt_plans, reached};
ghost use Rattle.solve_workspace.specs.Reading.{cost_model};

use cost::{ConsumerCost, PreparedConsumerCostModel, Reason};
use file_tables::AnnotationId;
use frontier::{Builder, ScratchCandidate};
use memo::{CandidateRange, MemoKey};
use plan::{PendingPlan, PlanId, PlanRecord};
use stats::SolveStats;

// Sizes in the order of 13 to 21, and the two limits (document 01, "Calls").
#[derive(Clone, Copy)]
pub struct Bounds {
    pub stack: u32,
    pub memo: u32,
    pub kept: u32,
    pub frontier: u32,
    pub plans: u32,
    pub visit: u32,
    pub depth: u32,
    pub output: u32,
    pub spans: u32,
    pub work_limit: u64,
    pub visit_limit: u64,
}

// The greatest size needed of each kind, in the order of 13 to 21 (document 02, change 10): the sizes with which a page just comes.
#[derive(Clone, Copy)]
pub struct Needs {
    pub stack: u32,
    pub memo: u32,
    pub kept: u32,
    pub frontier: u32,
    pub plans: u32,
    pub visit: u32,
    pub depth: u32,
    pub output: u32,
    pub spans: u32,
}

// The settings (document 01, "Calls", and document 02, change 5).
#[derive(Clone, Copy)]
pub struct RenderOptions {
    pub width: u32,
    pub newline_cost: u32,
    pub policy: u32,
    pub rule: u32,
}

// What costs depend on, of the settings.
pub fn cost_model(options: RenderOptions) -> PreparedConsumerCostModel
    ensures { result ≡ cost_model options }
{
    PreparedConsumerCostModel {
        width: options.width,
        newline_cost: options.newline_cost,
        rule: options.rule,
    }
}

// The greatest size needed so far of the kinds whose stores do not only grow (document 02, change 10); the frontier's is that of the ones before the one at work. Kept candidates and plans only grow:
// of them it is how many there are.
#[derive(Clone, Copy)]
pub struct Peaks {
    pub stack: usize,
    pub memo: usize,
    pub frontier: usize,
}

// How far each store is filled, the range that was popped or finished last, the frontier that is being built, the counts and the peaks.
#[derive(Clone, Copy)]
pub struct Registers {
    pub tasks: usize,
    pub results: usize,
    pub pending: usize,
    pub memo: usize,
    pub kept: usize,
    pub plans: usize,
    pub start: u32,
    pub len: u32,
    pub builder: Builder,
    pub stats: SolveStats,
    pub peaks: Peaks,
}

// Why the solver stops.
#[derive(Clone, Copy)]
pub enum Why {
    Domain(Reason),
    Work,
    Stack,
    Memo,
    Kept,
    Frontier,
    Plans,
}

// The number of why the solver stops, by documents 01 and 02. It stays a number, as the definition `number` has it.
pub fn solver_number(why: Why) -> u32
    ensures { result ≡ number (reason why) }
{
    match why {
        Why::Domain(past) => cost::domain_number(past),
        Why::Work => 12,
        Why::Stack => 13,
        Why::Memo => 14,
        Why::Kept => 15,
        Why::Frontier => 16,
        Why::Plans => 17,
    }
}

// Why the solver stops, and the size that is needed (0 where no size is too small).
#[derive(Clone, Copy)]
pub struct Halt {
    pub why: Why,
    pub needed: u64,
}

// What has no place in its width stops the solver.
impl From<Reason> for Halt {
    ghost from_gives = { λ past halt. halt ≡ halt_past past };

    fn from(past: Reason) -> Halt {
        Halt {
            why: Why::Domain(past),
            needed: 0,
        }
    }
}

// So does a frontier that its size has no room for.
impl From<frontier::Full> for Halt {
    ghost from_gives = { λ full halt. halt ≡ halt_frontier full };

    fn from(full: frontier::Full) -> Halt {
        Halt {
            why: Why::Frontier,
            needed: full.needed,
        }
    }
}

// So does a memo, or an arena of plans, that has no room.
impl From<memo::Full> for Halt {
    ghost from_gives = { λ full halt. halt ≡ halt_memo full };

    fn from(full: memo::Full) -> Halt {
        Halt {
            why: Why::Memo,
            needed: full.needed,
        }
    }
}

impl From<plan::Full> for Halt {
    ghost from_gives = { λ full halt. halt ≡ halt_plans full };

    fn from(full: plan::Full) -> Halt {
        Halt {
            why: Why::Plans,
            needed: full.needed,
        }
    }
}

// The same with the registers: what contracts say of an answer and the registers then.
#[derive(Clone, Copy)]
pub enum Reached {
    Go(Registers),
    Stop(Why, u64, Registers),
}

// A sequence's edges, indent and kind are those of its key's node, and are read again there.
#[derive(Clone, Copy)]
pub enum ExactTask {
    Eval(MemoKey),
    CompleteAlias(MemoKey),
    CompleteUnion(MemoKey),
    CompleteChoiceSet {
        key: MemoKey,
        result_start: u32,
    },
    CompleteAnnotate {
        key: MemoKey,
        annotation: AnnotationId,
    },
    CompletePenalty {
        key: MemoKey,
        amount: u32,
    },
    ContinueSequence {
        key: MemoKey,
        child_index: u32,
    },
    CompleteSequenceRight {
        key: MemoKey,
        child_index: u32,
        start: u32,
        len: u32,
        left_offset: u32,
        pending_start: u32,
    },
}

// A kept candidate.
#[derive(Clone, Copy)]
pub struct Candidate {
    pub cost: ConsumerCost,
    pub last: u32,
    pub precedence: u64,
    pub plan: PlanId,
}

// ---- rows

// Kind, key, and what the task has besides, each in its place.
pub fn task_row(task: ExactTask) -> [u32; 9]
    ensures { task_of result ≡ meant task }
{
    match task {
        ExactTask::Eval(q) => [0, q.node, q.column, q.indent, 0, 0, 0, 0, 0],
        ExactTask::CompleteAlias(q) => [1, q.node, q.column, q.indent, 0, 0, 0, 0, 0],
        ExactTask::CompleteUnion(q) => [2, q.node, q.column, q.indent, 0, 0, 0, 0, 0],
        ExactTask::CompleteChoiceSet {
            key: q,
            result_start: x,
        } => [3, q.node, q.column, q.indent, x, 0, 0, 0, 0],
        ExactTask::CompleteAnnotate {
            key: q,
            annotation: a,
        } => [4, q.node, q.column, q.indent, a.0, 0, 0, 0, 0],
        ExactTask::CompletePenalty { key: q, amount: x } => [
            5, q.node, q.column, q.indent, x, 0, 0, 0, 0,
        ],
        ExactTask::ContinueSequence {
            key: q,
            child_index: x,
        } => [6, q.node, q.column, q.indent, x, 0, 0, 0, 0],
        ExactTask::CompleteSequenceRight {
            key: q,
            child_index: x,
            start: s,
            len: l,
            left_offset: o,
            pending_start: p,
        } => { [7, q.node, q.column, q.indent, x, s, l, o, p] }
    }
}

// The task that a row holds. Its kind stays a number there: rows are lent memory of a fixed layout.
pub fn row_task(row: [u32; 9]) -> ExactTask
    ensures { meant result ≡ task_of row }
{
    let kind = row[0];
    let q = MemoKey {
        node: row[1],
        column: row[2],
        indent: row[3],
    };
    let x = row[4];
    match kind {
        0 => ExactTask::Eval(q),
        1 => ExactTask::CompleteAlias(q),
        2 => ExactTask::CompleteUnion(q),
        3 => ExactTask::CompleteChoiceSet {
            key: q,
            result_start: x,
        },
        4 => ExactTask::CompleteAnnotate {
            key: q,
            annotation: AnnotationId(x),
        },
        5 => ExactTask::CompletePenalty { key: q, amount: x },
        6 => ExactTask::ContinueSequence {
            key: q,
            child_index: x,
        },
        _ => ExactTask::CompleteSequenceRight {
            key: q,
            child_index: x,
            start: row[5],
            len: row[6],
            left_offset: row[7],
            pending_start: row[8],
        },
    }
}

// The lower half of a word.
pub fn narrow(word: u64) -> u32
    ensures { result ≡ word % 2 ^ 32 }
{
    (word % 4294967296) as u32
}

// A number of 32 bits as a word. What is read out of a row has no range in a proof; what is passed has.
pub fn wide(number: u32) -> u64
    ensures { (result ≡ number) × (number < 2 ^ 32) }
{
    number as u64
}

// Kept candidate `index` of `count`. No run asks for one past the end; the answer there is the definition's.
pub fn candidate_at(kept: &[[u64; 6]], count: usize, index: usize) -> Candidate
    requires { count ≤ length kept.now }
    ensures { candidate result ≡ get_or (row_list candidate_of kept.now count) index no_candidate }
{
    if count <= index {
        return Candidate {
            cost: ConsumerCost::ZERO,
            last: 0,
            precedence: 0,
            plan: PlanId(0),
        };
    }
    let row = kept[index];
    Candidate {
        cost: ConsumerCost {
            overflow_high: row[0],
            overflow_low: row[1],
            burden: row[2],
        },
        last: narrow(row[3]),
        precedence: row[4],
        plan: PlanId(narrow(row[5])),
    }
}

// The peak is n at least. It is stored only where it grows, which a peak seldom does.
pub fn raise(peak: &mut usize, n: usize)
    ensures { peak.new ≡ max peak.old n }
{
    if *peak < n {
        *peak = n;
    }
}

// ---- stacks

pub fn push_exact_task(
    b: Bounds,
    g: &mut Registers,
    tasks: &mut [[u32; 9]],
    task: ExactTask,
) -> Result<(), Halt>
    requires { (b.stack ≤ length tasks.old) × Sound b g.old }
    ensures meets { (rs ps es ks : List Row) (fs : List ℕ) (ns : List Row) → Meets b (counts g.old) (push_exact_task (meant task) (abs g.old tasks.old rs ps es ks fs ns)) (reached result g.new) (λ s. abs s tasks.new rs ps es ks fs ns) }
    ensures keeps { Keeps g.old (reached result g.new) }
{
    let top = g.tasks + 1;
    if (b.stack as usize) < top {
        return Err(Halt {
            why: Why::Stack,
            needed: top as u64,
        });
    }
    tasks[g.tasks] = task_row(task);
    g.tasks = top;
    raise(&mut g.peaks.stack, top);
    Ok(())
}

pub fn push_exact_result(
    b: Bounds,
    g: &mut Registers,
    results: &mut [[u32; 2]],
    start: u32,
    len: u32,
) -> Result<(), Halt>
    requires { (b.stack ≤ length results.old) × Sound b g.old }
    ensures meets { (ts ps es ks : List Row) (fs : List ℕ) (ns : List Row) → Meets b (counts g.old) (push_exact_result (range start len) (abs g.old ts results.old ps es ks fs ns)) (reached result g.new) (λ s. abs s ts results.new ps es ks fs ns) }
    ensures keeps { SameMemo g.old (reached result g.new) }
{
    let top = g.results + 1;
    if (b.stack as usize) < top {
        return Err(Halt {
            why: Why::Stack,
            needed: top as u64,
        });
    }
    results[g.results] = [start, len];
    g.results = top;
    raise(&mut g.peaks.stack, top);
    Ok(())
}

// The result on top, as the range of the registers.
pub fn pop_exact_result(g: &mut Registers, results: &[[u32; 2]])
    requires { (1 ≤ g.old.results) × (g.old.results ≤ length results.now) }
    ensures is { (ts ps es ks : List Row) (fs : List ℕ) (ns : List Row) → pop_exact_result (abs g.old ts results.now ps es ks fs ns) ≡ ret (got (range g.new.start g.new.len) (abs g.new ts results.now ps es ks fs ns)) }
    ensures popped { Popped g.old g.new }
{
    g.results -= 1;
    let row = results[g.results];
    g.start = row[0];
    g.len = row[1];
}

// A candidate with its pending plan in words.
pub fn scratch_candidate(cost: ConsumerCost, last: u32, plan: PendingPlan) -> ScratchCandidate
    ensures { survivor (carried result) ≡ scratch (value cost) last (plan_of plan) }
{
    let words = PlanRecord::from(plan);
    ScratchCandidate {
        cost,
        last,
        precedence: 0,
        kind: words.kind as u64,
        first: words.first as u64,
        second: words.second as u64,
    }
}

// Pending candidate `index`.
pub fn pending_at(pending: &[[u64; 7]], index: usize) -> ScratchCandidate
    requires { index < length pending.now }
    ensures { survivor (carried result) ≡ scratch_of (get_or pending.now index []) }
{
    let row = pending[index];
    ScratchCandidate {
        cost: ConsumerCost {
            overflow_high: row[0],
            overflow_low: row[1],
            burden: row[2],
        },
        last: narrow(row[3]),
        precedence: 0,
        kind: row[4],
        first: row[5],
        second: row[6],
    }
}

// ---- work: one unit, tested first, and the count that moves with it

pub fn work_hit(b: Bounds, g: &mut Registers) -> Result<(), Halt>
    requires { Sound b g.old }
    ensures meets { (ts rs ps es ks : List Row) (fs : List ℕ) (ns : List Row) → Meets b (counts g.old) (ticked Hit (abs g.old ts rs ps es ks fs ns)) (reached result g.new) (λ s. abs s ts rs ps es ks fs ns) }
    ensures keeps { Keeps g.old (reached result g.new) }
{
    if b.work_limit <= g.stats.work_items {
        return Err(Halt {
            why: Why::Work,
            needed: 0,
        });
    }
    g.stats.work_items += 1;
    g.stats.memo_hits += 1;
    Ok(())
}

pub fn work_miss(b: Bounds, g: &mut Registers) -> Result<(), Halt>
    requires { Sound b g.old }
    ensures meets { (ts rs ps es ks : List Row) (fs : List ℕ) (ns : List Row) → Meets b (counts g.old) (ticked Miss (abs g.old ts rs ps es ks fs ns)) (reached result g.new) (λ s. abs s ts rs ps es ks fs ns) }
    ensures keeps { Keeps g.old (reached result g.new) }
{
    if b.work_limit <= g.stats.work_items {
        return Err(Halt {
            why: Why::Work,
            needed: 0,
        });
    }
    g.stats.work_items += 1;
    g.stats.memo_misses += 1;
    Ok(())
}

// ---- the memo

pub fn memo_insert(
    b: Bounds,
    g: &mut Registers,
    index: &mut [u64],
    entries: &mut [[u64; 6]],
    key: MemoKey,
    start: u32,
    len: u32,
) -> Result<(), Halt>
    requires { Memory b g.old.memo index.old entries.old × Sound b g.old }
    ensures meets { (ts rs ps ks : List Row) (fs : List ℕ) (ns : List Row) → Meets b (counts g.old) (inserting key (range start len) (abs g.old ts rs ps entries.old ks fs ns)) (reached result g.new) (λ s. abs s ts rs ps entries.new ks fs ns) }
    ensures memory { MemoryAt b index.new entries.new (reached result g.new) }
{
    let count = g.memo;
    let size = b.memo as usize;
    let range = CandidateRange {
        start: start as u64,
        len: len as u64,
    };
    let n = memo::memo_insert(index, entries, count, size, key, range)?;
    g.memo = n;
    g.stats.memo_entries = n as u64;
    raise(&mut g.peaks.memo, count + 1);
    Ok(())
}

// A node's range goes into the memo, and onto the results.
pub fn complete_node(
    b: Bounds,
    g: &mut Registers,
    index: &mut [u64],
    entries: &mut [[u64; 6]],
    results: &mut [[u32; 2]],
    key: MemoKey,
    start: u32,
    len: u32,
) -> Result<(), Halt>
    requires { Memory b g.old.memo index.old entries.old × ((b.stack ≤ length results.old) × Sound b g.old) }
    ensures meets { (ts ps ks : List Row) (fs : List ℕ) (ns : List Row) → Meets b (counts g.old) (complete_node key (range start len) (abs g.old ts results.old ps entries.old ks fs ns)) (reached result g.new) (λ s. abs s ts results.new ps entries.new ks fs ns) }
    ensures memory { MemoryAt b index.new entries.new (reached result g.new) }
{
    memo_insert(b, g, index, entries, key, start, len)?;
    push_exact_result(b, g, results, start, len)
}

// The completing task, and then a child.
pub fn push_child(
    b: Bounds,
    g: &mut Registers,
    tasks: &mut [[u32; 9]],
    task: ExactTask,
    child: MemoKey,
) -> Result<(), Halt>
    requires { (b.stack ≤ length tasks.old) × Sound b g.old }
    ensures meets { (R : Rules) (P : Prepared) (rs ps es ks : List Row) (fs : List ℕ) (ns : List Row) → Meets b (counts g.old) (push_child R P (meant task) child (abs g.old tasks.old rs ps es ks fs ns)) (reached result g.new) (λ s. abs s tasks.new rs ps es ks fs ns) }
    ensures keeps { Keeps g.old (reached result g.new) }
{
    push_exact_task(b, g, tasks, task)?;
    push_exact_task(b, g, tasks, ExactTask::Eval(child))
}
