// What a live report's step reads off its table of rows: sums, places, costs. Nothing is asked of what the memory holds.
#![tactic(auto)]

ghost use Rattle.std.specs.Prelude.{◌≡◌, [], map, ◌-◌, ◌*◌, ◌≤◌, ◌<◌, length, get_or, take};
ghost use Rattle.cost.specs.Cost.{add};
ghost use Rattle.cost.specs.Value.{value};
ghost use Rattle.layout.specs.Report.{newline_at};
ghost use Rattle.report.specs.Report.{remove_at};
ghost use Rattle.report.specs.Memory.{cost_at};
ghost use Rattle.report_rows.specs.Sums.{Totalled, Summing, Starting, EntryIs};
ghost use Rattle.report_rows.specs.Costs.{cost_sum, cost_but, CostTold};

use cost::{ConsumerCost, Reason};

// Sums over rows: bytes of files, bytes of pages, spans.
#[derive(Clone, Copy)]
pub struct Totals {
    pub files: usize,
    pub pages: usize,
    pub marks: usize,
}

// A row's own numbers.
#[derive(Clone, Copy)]
pub struct Entry {
    pub file: usize,
    pub page: usize,
    pub spans: usize,
}

pub fn entry_at(table: &[[u64; 8]], place: usize) -> Entry
    requires { place < length table.now }
    ensures { EntryIs (get_or table.now place []) result }
{
    let row = table[place];
    Entry {
        file: row[0] as usize,
        page: row[1] as usize,
        spans: row[2] as usize,
    }
}

// What the rows sum to, if the memory holds a report of so many rows. files, pages, marks: how long the stores are.
pub fn sum_rows(
    rows: usize,
    table: &[[u64; 8]],
    files: usize,
    pages: usize,
    marks: usize,
) -> Option<Totals>
    ensures { Summing rows table.now files pages marks result }
{
    if 1024 < rows || table.len() < 1024 {
        return None;
    }
    let mut left = Totals {
        files,
        pages,
        marks,
    };
    for i in 0..rows {
        let row = entry_at(table, i);
        left.files = left.files.checked_sub(row.file)?;
        left.pages = left.pages.checked_sub(row.page)?;
        left.marks = left.marks.checked_sub(row.spans)?;
    }
    Some(Totals {
        files: files - left.files,
        pages: pages - left.pages,
        marks: marks - left.marks,
    })
}

// The sums over the rows before a place: where the row at that place starts in each store.
pub fn starts(table: &[[u64; 8]], place: usize) -> Totals
    requires { Starting place table.now }
    ensures { Totalled (take place table.now) result }
{
    let mut sums = Totals {
        files: 0,
        pages: 0,
        marks: 0,
    };
    for i in 0..place {
        let row = entry_at(table, i);
        sums.files += row.file;
        sums.pages += row.page;
        sums.marks += row.spans;
    }
    sums
}

// The cost of a row, but of the one at `skip` none.
fn cost_but(table: &[[u64; 8]], skip: usize, place: usize) -> ConsumerCost
    requires { place < length table.now }
    ensures { value result ≡ cost_but table.now skip place }
{
    if place == skip {
        return ConsumerCost::ZERO;
    }
    let row = table[place];
    ConsumerCost {
        overflow_high: row[3],
        overflow_low: row[4],
        burden: row[5],
    }
}

// The cost of the rows but the one at `skip`, added to a cost. There is none where it is past its widths.
pub fn cost_after(
    table: &[[u64; 8]],
    rows: usize,
    skip: usize,
    start: ConsumerCost,
) -> Result<ConsumerCost, Reason>
    requires { rows ≤ length table.now }
    ensures { CostTold (add (value start) (cost_sum (map cost_at (remove_at skip 1 (take rows table.now))))) result }
{
    let mut sum = start;
    for i in 0..rows {
        sum = sum.checked_add(cost_but(table, skip, i))?;
    }
    Ok(sum)
}

// The newline costs between so many rows.
pub fn between(newline_cost: u32, rows: usize) -> ConsumerCost
    requires { rows ≤ 1025 }
    ensures { value result ≡ newline_at (newline_cost * (rows - 1)) }
{
    ConsumerCost {
        burden: newline_cost as u64 * rows.saturating_sub(1) as u64,
        ..ConsumerCost::ZERO
    }
}
