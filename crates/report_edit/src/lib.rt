// A row comes into, or goes out of, all four stores of a live report: its table of rows, files, pages and marks.
#![tactic(auto)]

ghost use Rattle.report_edit.specs.Edits.{TakingIn, TakenIn, TakingOut, TakenOut};

use cost::ConsumerCost;
use report_rows::{entry_at, starts};
use report_store::{insert, insert_marks, remove};

// A row's own page: its cost, its bytes, its spans.
#[derive(Clone, Copy)]
pub struct RowPage {
    pub cost: ConsumerCost,
    pub length: usize,
    pub spans: usize,
}

// A row comes in at a place: its file, its page, its spans, and its row in the table.
pub fn take_in(
    place: usize,
    rows: usize,
    page: RowPage,
    rule: u32,
    file: &[u8],
    row: &[u8],
    row_spans: &[[u64; 4]],
    table: &mut [[u64; 8]],
    files: &mut [u8],
    pages: &mut [u8],
    marks: &mut [[u32; 4]],
)
    requires { TakingIn place rows page file.now row.now row_spans.now table.old files.old pages.old marks.old }
    ensures { TakenIn place rows page file.now row.now row_spans.now table.old table.new files.old files.new pages.old pages.new marks.old marks.new }
{
    let used = starts(table, rows);
    let at = starts(table, place);
    insert(files, used.files, at.files, file);
    insert(pages, used.pages, at.pages, &row[..page.length]);
    insert_marks(marks, used.marks, at.marks, row_spans, page.spans);
    let words = [
        file.len() as u64,
        page.length as u64,
        page.spans as u64,
        page.cost.overflow_high,
        page.cost.overflow_low,
        page.cost.burden,
        rule as u64,
        0,
    ];
    insert(table, rows, place, &[words]);
}

// The row at a place goes.
pub fn take_out(
    place: usize,
    rows: usize,
    table: &mut [[u64; 8]],
    files: &mut [u8],
    pages: &mut [u8],
    marks: &mut [[u32; 4]],
)
    requires { TakingOut place rows table.old files.old pages.old marks.old }
    ensures { TakenOut place rows table.old table.new files.old files.new pages.old pages.new marks.old marks.new }
{
    let used = starts(table, rows);
    let at = starts(table, place);
    let row = entry_at(table, place);
    remove(files, used.files, at.files, row.file);
    remove(pages, used.pages, at.pages, row.page);
    remove(marks, used.marks, at.marks, row.spans);
    remove(table, rows, place, 1);
}
