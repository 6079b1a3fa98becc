// A live report's head, and the tests before a step: 1 (order), 28 (no such desk), 23 (place not there), 24 (full). All by value; the report's memory is summed up before (`report_rows`).
#![tactic(auto)]

ghost use Rattle.std.specs.Prelude.{◌≡◌, List, ◌≤◌, ◌<◌};
ghost use Rattle.file_checks.specs.Told.{Told};
ghost use Rattle.report.specs.Memory.{Words};
ghost use Rattle.report.specs.Report.{rows_most};
ghost use Rattle.report_rows.specs.Sums.{Summing};
ghost use Rattle.report_gate.specs.Heads.{options, Opening};
ghost use Rattle.report_gate.specs.Gates.{StoresLent, FilesRoom, InsertionLent, RemovalLent, gate_number, Gate};

use desks::desk_gate;
use render::order::{Lengths, in_order, options_right};
use report_rows::Totals;
use solve_workspace::{Bounds, RenderOptions};

// What a report has beside its memory: how many rows, and its setting.
#[derive(Clone, Copy)]
pub struct Head {
    pub rows: u32,
    pub width: u32,
    pub newline_cost: u32,
    pub policy: u32,
    pub rule: u32,
}

// How long the report's stores, output and spans are.
#[derive(Clone, Copy)]
pub struct Stores {
    pub files: usize,
    pub pages: usize,
    pub marks: usize,
    pub output: usize,
    pub spans: usize,
}

pub fn options_of(h: Head) -> RenderOptions
    ensures { result ≡ options h }
{
    RenderOptions {
        width: h.width,
        newline_cost: h.newline_cost,
        policy: h.policy,
        rule: h.rule,
    }
}

// A report without rows. No memory is touched: whatever it holds, no row of it is read.
pub fn open_report(width: u32, newline_cost: u32, policy: u32, rule: u32) -> Result<Head, u32>
    ensures { Opening width newline_cost policy rule result }
{
    let h = Head {
        rows: 0,
        width,
        newline_cost,
        policy,
        rule,
    };
    if options_right(options_of(h)) {
        Ok(h)
    } else {
        Err(1)
    }
}

// ---- what 1 asks

// Pages and output have at least the output size, marks and spans the spans size.
fn stores_lent(b: Bounds, k: Stores) -> bool
    ensures { Told (StoresLent b k) result }
{
    let bytes = b.output as usize;
    let spans = b.spans as usize;
    bytes <= k.pages && bytes <= k.output && spans <= k.marks && spans <= k.spans
}

// The memory is sound, and there is room for one file more.
fn files_room(s: Option<Totals>, file: usize, files: usize) -> bool
    ensures { Told (FilesRoom s file files) result }
{
    match s {
        Some(t) => file <= files && t.files <= files - file,
        None => false,
    }
}

fn insertion_lent(h: Head, b: Bounds, file: usize, s: Option<Totals>, k: Stores, l: Lengths) -> bool
    ensures { (table : List Words) → Summing h.rows table k.files k.pages k.marks s → Told (InsertionLent h b file table k l) result }
{
    files_room(s, file, k.files) && stores_lent(b, k) && in_order(options_of(h), b, l)
}

fn removal_lent(h: Head, b: Bounds, s: Option<Totals>, k: Stores) -> bool
    ensures { (table : List Words) → Summing h.rows table k.files k.pages k.marks s → Told (RemovalLent h b table k) result }
{
    s.is_some() && stores_lent(b, k) && options_right(options_of(h))
}

// ---- the gates

// 0 where a step may go on.
fn number_of(ordered: bool, desk: u32, there: bool, full: bool) -> u32
    ensures { result ≡ gate_number ordered desk there full }
{
    let first = desk_gate(ordered, desk);
    if first != 0 {
        first
    } else if !there {
        23
    } else if full {
        24
    } else {
        0
    }
}

pub fn insert_gate(
    desk: u32,
    place: usize,
    file: usize,
    h: Head,
    b: Bounds,
    s: Option<Totals>,
    k: Stores,
    l: Lengths,
) -> u32
    ensures { (table : List Words) → Summing h.rows table k.files k.pages k.marks s → Gate (InsertionLent h b file table k l) desk (place ≤ h.rows) (rows_most ≤ h.rows) result }
{
    let count = h.rows as usize;
    let ordered = insertion_lent(h, b, file, s, k, l);
    number_of(ordered, desk, place <= count, 1024 <= count)
}

pub fn remove_gate(desk: u32, place: usize, h: Head, b: Bounds, s: Option<Totals>, k: Stores) -> u32
    ensures { (table : List Words) → Summing h.rows table k.files k.pages k.marks s → Gate (RemovalLent h b table k) desk (place < h.rows) ⊥ result }
{
    let count = h.rows as usize;
    let ordered = removal_lent(h, b, s, k);
    number_of(ordered, desk, place < count, false)
}
