// Work counted by desk (document 02, change 8): the shared record's allowances and spent counts, by value.
#![tactic(auto)]

ghost use Rattle.std.specs.Prelude.{◌≡◌, ◌≤◌};
ghost use Rattle.desks.specs.Desks.{remaining, charged, gate_number};
ghost use Rattle.desks.specs.Lent.{within, work_in, charging, settled};

use render::page::Rendered;
use solve_workspace::Bounds;
use stats::SolveStats;

// For each of the desks 0 to 7 how much work it may do, and how much it has done. A caller sets the allowances; no call alters one.
#[derive(Clone, Copy)]
pub struct Desks {
    pub allowance: [u64; 8],
    pub spent: [u64; 8],
}

// The record that a caller lends for the counts, with what is kept between calls.
#[derive(Clone, Copy)]
pub struct SharedRecord {
    pub stats: SolveStats,
    pub desks: Desks,
}

// An answer, and the desks after it.
#[derive(Clone, Copy)]
pub struct DeskAnswer {
    pub answer: Rendered,
    pub desks: Desks,
}

// What a desk may still do; where it has spent more than it is allowed, and for a desk above 7, that is nothing.
fn remaining(d: Desks, desk: u32) -> u64
    ensures { result ≡ remaining d desk }
{
    if 7 < desk {
        return 0;
    }
    let at = desk as usize;
    d.allowance[at].saturating_sub(d.spent[at])
}

// The call's sizes and limits, its work held to what the desk may still do.
pub fn allowed(d: Desks, desk: u32, b: Bounds) -> Bounds
    ensures { result ≡ within d desk b }
{
    Bounds {
        work_limit: b.work_limit.min(remaining(d, desk)),
        ..b
    }
}

// So much work more for a desk: no more than it may still do, so that the count has its place. Nothing else is altered, and nothing at all for a desk above 7.
pub fn charged(d: Desks, desk: u32, work: u64) -> Desks
    requires { work ≤ remaining d desk }
    ensures { result ≡ charged d desk work }
{
    let mut after = d;
    if desk <= 7 {
        after.spent[desk as usize] += work;
    }
    after
}

// 1 (order), then 28 (no such desk); 0 where a call may go on.
pub fn desk_gate(ordered: bool, desk: u32) -> u32
    ensures { result ≡ gate_number ordered desk }
{
    if !ordered {
        1
    } else if 7 < desk {
        28
    } else {
        0
    }
}

pub fn work_of(a: Rendered) -> u64
    ensures { result ≡ work_in a }
{
    match a {
        Ok(page) => page.stats.work_items,
        Err(refusal) => refusal.stats.work_items,
    }
}

// An answer with its work charged.
pub fn charge(a: Rendered, desk: u32, d: Desks) -> DeskAnswer
    requires { work_in a ≤ remaining d desk }
    ensures { result ≡ charging a desk d }
{
    DeskAnswer {
        answer: a,
        desks: charged(d, desk, work_of(a)),
    }
}

// The record after a call with these counts.
pub fn settled(r: SharedRecord, desk: u32, stats: SolveStats) -> SharedRecord
    requires { stats.work_items ≤ remaining r.desks desk }
    ensures { result ≡ settled r desk stats }
{
    SharedRecord {
        stats,
        desks: charged(r.desks, desk, stats.work_items),
    }
}
