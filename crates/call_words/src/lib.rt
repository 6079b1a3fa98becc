// A call's answer in words, and settings, sizes and limits from words: what the library hands over and is handed.
#![tactic(auto)]

ghost use Rattle.std.specs.Prelude.{◌≡◌, get_or};
ghost use Rattle.call_words.specs.Words.{words, options, bounds};

pub mod accounts;
pub mod heads;

use render::page::Rendered;
use solve_workspace::{Bounds, RenderOptions};

pub fn answer_words(r: Rendered) -> [u64; 26]
    ensures { result ≡ words r }
{
    match r {
        Ok(page) => {
            let cost = page.cost;
            let k = page.stats;
            let q = page.needs;
            [
                0,
                0,
                page.length as u64,
                page.spans as u64,
                cost.overflow_high,
                cost.overflow_low,
                cost.burden,
                k.work_items,
                k.fit_checks,
                k.memo_hits,
                k.memo_misses,
                k.candidates_generated,
                k.candidates_pruned,
                k.peak_frontier,
                k.memo_entries,
                k.plan_nodes,
                k.visits,
                q.stack as u64,
                q.memo as u64,
                q.kept as u64,
                q.frontier as u64,
                q.plans as u64,
                q.visit as u64,
                q.depth as u64,
                q.output as u64,
                q.spans as u64,
            ]
        }
        Err(refusal) => {
            let k = refusal.stats;
            [
                refusal.number as u64,
                refusal.needed,
                0,
                0,
                0,
                0,
                0,
                k.work_items,
                k.fit_checks,
                k.memo_hits,
                k.memo_misses,
                k.candidates_generated,
                k.candidates_pruned,
                k.peak_frontier,
                k.memo_entries,
                k.plan_nodes,
                k.visits,
                0,
                0,
                0,
                0,
                0,
                0,
                0,
                0,
                0,
            ]
        }
    }
}

// The number is what C gets.
pub fn answer_number(r: Rendered) -> u32
    ensures { result ≡ get_or (words r) 0 0 }
{
    match r {
        Ok(_) => 0,
        Err(refusal) => refusal.number,
    }
}

pub fn options_of(width: u32, newline_cost: u32, policy: u32, rule: u32) -> RenderOptions
    ensures { result ≡ options width newline_cost policy rule }
{
    RenderOptions {
        width,
        newline_cost,
        policy,
        rule,
    }
}

pub fn bounds_of(s: [u32; 9], work_limit: u64, visit_limit: u64) -> Bounds
    ensures { result ≡ bounds s work_limit visit_limit }
{
    Bounds {
        stack: s[0],
        memo: s[1],
        kept: s[2],
        frontier: s[3],
        plans: s[4],
        visit: s[5],
        depth: s[6],
        output: s[7],
        spans: s[8],
        work_limit,
        visit_limit,
    }
}
