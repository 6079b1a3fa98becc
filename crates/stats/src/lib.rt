// The counts of a call (laidout's SolveStats, and the visits), and `increment`, which alters one counter in a lent record.
#![tactic(auto)]

ghost use Rattle.std.specs.Prelude.{◌≡◌, ◌<◌, ◌+◌, ◌^◌};
ghost use Rattle.stats.specs.Counts.{counted, bumped};

#[derive(Clone, Copy)]
pub struct SolveStats {
    pub work_items: u64,
    pub fit_checks: u64,
    pub memo_hits: u64,
    pub memo_misses: u64,
    pub candidates_generated: u64,
    pub candidates_pruned: u64,
    pub peak_frontier: u64,
    pub memo_entries: u64,
    pub plan_nodes: u64,
    pub visits: u64,
}

impl SolveStats {
    // No counts: what every call starts from, whatever the lent record held.
    pub const ZERO: SolveStats = SolveStats {
        work_items: 0,
        fit_checks: 0,
        memo_hits: 0,
        memo_misses: 0,
        candidates_generated: 0,
        candidates_pruned: 0,
        peak_frontier: 0,
        memo_entries: 0,
        plan_nodes: 0,
        visits: 0,
    };
}

// What is counted one by one. Fit checks are left behind (their count is 0); the other counts of the record are set.
// A selector stays: document 01 names the form, one counter of a lent record.
#[derive(Clone, Copy)]
pub enum SolveCounter {
    WorkItems,
    MemoHits,
    MemoMisses,
    CandidatesGenerated,
    CandidatesPruned,
    Visits,
}

// One counter more, by value.
#[tactic(auto, unfolding(crate::specs::Counts::counted, crate::specs::Counts::bumped))]
pub fn incremented(s: SolveStats, c: SolveCounter) -> SolveStats
    requires { counted s c + 1 < 2 ^ 64 }
    ensures { result ≡ bumped s c }
{
    let mut t = s;
    match c {
        SolveCounter::WorkItems => t.work_items += 1,
        SolveCounter::MemoHits => t.memo_hits += 1,
        SolveCounter::MemoMisses => t.memo_misses += 1,
        SolveCounter::CandidatesGenerated => t.candidates_generated += 1,
        SolveCounter::CandidatesPruned => t.candidates_pruned += 1,
        SolveCounter::Visits => t.visits += 1,
    }
    t
}

// Alters one counter in a lent record.
pub fn increment(stats: &mut SolveStats, counter: SolveCounter)
    requires { counted stats.old counter + 1 < 2 ^ 64 }
    ensures { stats.new ≡ bumped stats.old counter }
{
    *stats = incremented(*stats, counter);
}
