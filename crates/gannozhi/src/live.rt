// Live reports for C and Rust. The head is five words that the caller keeps with the report's memory; a refused step leaves them as they were. The desks' words are those of every call.
ghost use Rattle.std.specs.Prelude.{length};
ghost use Rattle.call_words.specs.Words.{bounds};
ghost use Rattle.render.specs.Call.{lengths};
ghost use Rattle.report.specs.Report.{insert as inserting, remove as removing};
ghost use Rattle.report_gate.specs.Gates.{InsertionLent, RemovalLent};
ghost use Rattle.report_settle.specs.Settled.{stores};
ghost use Rattle.call_words.specs.Heads.{head_at};
ghost use Rattle.gannozhi.specs.Reports.{OpenedReport, Stepped};

use call_words::accounts::{desk_words, desks_of};
use call_words::heads::{head_of, head_words, opened_number, opened_words};
use call_words::{answer_number, answer_words, bounds_of};
use report_gate::open_report;
use report_step::{insert, remove};

// A report without rows. Its memory is not touched.
#[unsafe(no_mangle)]
pub extern "C" fn gannozhi_report_open(
    width: u32,
    newline_cost: u32,
    policy: u32,
    rule: u32,
    head: &mut [u32; 5],
) -> u32
    ensures { OpenedReport width newline_cost policy rule head.old head.new result }
{
    let o = open_report(width, newline_cost, policy, rule);
    *head = opened_words(o, *head);
    opened_number(o)
}

// A file comes into a report at a place, for a desk.
#[unsafe(no_mangle)]
pub extern "C" fn gannozhi_report_insert(
    desk: u32,
    desks: &mut [u64; 16],
    place: usize,
    file: &[u8],
    sizes: &[u32; 9],
    work_limit: u64,
    visit_limit: u64,
    head: &mut [u32; 5],
    table: &mut [[u64; 8]],
    files: &mut [u8],
    pages: &mut [u8],
    marks: &mut [[u32; 4]],
    output: &mut [u8],
    spans: &mut [[u64; 4]],
    nodes: &mut [[u32; 8]],
    edges: &mut [u32],
    choices: &mut [u32],
    texts: &mut [[u32; 3]],
    bytes: &mut [u8],
    tasks: &mut [[u32; 9]],
    results: &mut [[u32; 2]],
    pending: &mut [[u64; 7]],
    index: &mut [u64],
    entries: &mut [[u64; 6]],
    kept: &mut [[u64; 6]],
    frontier: &mut [u64],
    plans: &mut [[u32; 3]],
    visit: &mut [usize],
    depth: &mut [usize],
    row_output: &mut [u8],
    row_spans: &mut [[u64; 4]],
    answer: &mut [u64; 26],
) -> u32
    ensures { Stepped desk desks.old desks.new (inserting place file.now) (InsertionLent (head_at head.old) (bounds sizes.now work_limit visit_limit) (length file.now) table.old (stores files.old pages.old marks.old output.old spans.old) (lengths nodes.old edges.old choices.old texts.old bytes.old tasks.old results.old pending.old index.old entries.old kept.old frontier.old plans.old visit.old depth.old row_output.old row_spans.old)) (bounds sizes.now work_limit visit_limit) head.old head.new table.old table.new files.old files.new pages.old pages.new marks.old marks.new output.old output.new spans.old spans.new answer.new result }
{
    let b = bounds_of(*sizes, work_limit, visit_limit);
    let h = head_of(*head);
    let d = desks_of(*desks);
    let r = insert(
        desk, d, place, file, b, h, table, files, pages, marks, output, spans, nodes, edges,
        choices, texts, bytes, tasks, results, pending, index, entries, kept, frontier, plans,
        visit, depth, row_output, row_spans,
    );
    *head = head_words(r.head);
    *desks = desk_words(r.desks);
    *answer = answer_words(r.answer);
    answer_number(r.answer)
}

// The row at a place goes from a report, for a desk. Of the sizes those of output and spans are read.
#[unsafe(no_mangle)]
pub extern "C" fn gannozhi_report_remove(
    desk: u32,
    desks: &mut [u64; 16],
    place: usize,
    sizes: &[u32; 9],
    head: &mut [u32; 5],
    table: &mut [[u64; 8]],
    files: &mut [u8],
    pages: &mut [u8],
    marks: &mut [[u32; 4]],
    output: &mut [u8],
    spans: &mut [[u64; 4]],
    answer: &mut [u64; 26],
) -> u32
    ensures { Stepped desk desks.old desks.new (removing place) (RemovalLent (head_at head.old) (bounds sizes.now 0 0) table.old (stores files.old pages.old marks.old output.old spans.old)) (bounds sizes.now 0 0) head.old head.new table.old table.new files.old files.new pages.old pages.new marks.old marks.new output.old output.new spans.old spans.new answer.new result }
{
    let b = bounds_of(*sizes, 0, 0);
    let h = head_of(*head);
    let d = desks_of(*desks);
    let r = remove(
        desk, d, place, b, h, table, files, pages, marks, output, spans,
    );
    *head = head_words(r.head);
    *desks = desk_words(r.desks);
    *answer = answer_words(r.answer);
    answer_number(r.answer)
}
