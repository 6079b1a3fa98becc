// The shared record in words: the desks' allowances and spent counts, and the counts.
ghost use Rattle.std.specs.Prelude.{◌≡◌, [], ◌+◌, ◌≤◌, length};
ghost use Rattle.call_words.specs.Words.{count_words};
ghost use Rattle.call_words.specs.Accounts.{desks_at, desk_words, counts_from};

use desks::Desks;
use stats::SolveStats;

pub fn desks_of(w: [u64; 16]) -> Desks
    ensures { result ≡ desks_at w }
{
    Desks {
        allowance: [w[0], w[1], w[2], w[3], w[4], w[5], w[6], w[7]],
        spent: [w[8], w[9], w[10], w[11], w[12], w[13], w[14], w[15]],
    }
}

pub fn desk_words(d: Desks) -> [u64; 16]
    ensures { result ≡ desk_words d }
{
    let a = d.allowance;
    let s = d.spent;
    [
        a[0], a[1], a[2], a[3], a[4], a[5], a[6], a[7], s[0], s[1], s[2], s[3], s[4], s[5], s[6],
        s[7],
    ]
}

// Ten counts from a word on.
fn counts_from(w: &[u64], i: usize) -> SolveStats
    requires { i + 10 ≤ length w.now }
    ensures { result ≡ counts_from i w.now }
{
    SolveStats {
        work_items: w[i],
        fit_checks: w[i + 1],
        memo_hits: w[i + 2],
        memo_misses: w[i + 3],
        candidates_generated: w[i + 4],
        candidates_pruned: w[i + 5],
        peak_frontier: w[i + 6],
        memo_entries: w[i + 7],
        plan_nodes: w[i + 8],
        visits: w[i + 9],
    }
}

pub fn counts_of(w: [u64; 10]) -> SolveStats
    ensures { result ≡ counts_from 0 w }
{
    counts_from(&w, 0)
}

pub fn counts_words(k: SolveStats) -> [u64; 10]
    ensures { result ≡ count_words k [] }
{
    [
        k.work_items,
        k.fit_checks,
        k.memo_hits,
        k.memo_misses,
        k.candidates_generated,
        k.candidates_pruned,
        k.peak_frontier,
        k.memo_entries,
        k.plan_nodes,
        k.visits,
    ]
}

// The counts in the words of an answer.
pub fn row_counts(w: [u64; 26]) -> SolveStats
    ensures { result ≡ counts_from 7 w }
{
    counts_from(&w, 7)
}
