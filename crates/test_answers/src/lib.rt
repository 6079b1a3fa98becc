// What programs that run stored calls have in common: sizes and limits from numbers, and an answer in lines as in differential/sample.
#![tactic(auto)]

use call_words::accounts::row_counts;
use cost::ConsumerCost;
use render::page::{Page, Refusal, Rendered};
use solve_workspace::{Bounds, Needs};
use stats::SolveStats;
use std::io;
use std::io::Write;
use streams::{print_decimal, print_hex};

pub fn bounds_of(s: [u64; 9], l: [u64; 2]) -> Bounds {
    Bounds {
        stack: test_lines::small(s[0]),
        memo: test_lines::small(s[1]),
        kept: test_lines::small(s[2]),
        frontier: test_lines::small(s[3]),
        plans: test_lines::small(s[4]),
        visit: test_lines::small(s[5]),
        depth: test_lines::small(s[6]),
        output: test_lines::small(s[7]),
        spans: test_lines::small(s[8]),
        work_limit: l[0],
        visit_limit: l[1],
    }
}

// A line is handed on. Where the next one begins.
pub fn hand_on<W: Write>(writer: &mut W, input: &[u8], from: usize) -> io::Result<usize> {
    let to = test_lines::behind(input, from, b'\n');
    if from <= to && to <= input.len() {
        writer.write_all(&input[from..to])?;
    }
    Ok(to)
}

pub fn print_numbers<W: Write>(writer: &mut W, word: &[u8], numbers: &[u64]) -> io::Result<()> {
    writer.write_all(word)?;
    for n in numbers {
        writer.write_all(b" ")?;
        print_decimal(writer, *n)?;
    }
    writer.write_all(b"\n")
}

fn print_counts<W: Write>(writer: &mut W, k: SolveStats) -> io::Result<()> {
    let counts = [
        k.work_items,
        k.fit_checks,
        k.memo_hits,
        k.memo_misses,
        k.candidates_generated,
        k.candidates_pruned,
        k.peak_frontier,
        k.memo_entries,
        k.plan_nodes,
        k.visits,
    ];
    print_numbers(writer, b"counts", &counts)
}

fn print_needs<W: Write>(writer: &mut W, q: Needs) -> io::Result<()> {
    let needs = [
        u64::from(q.stack),
        u64::from(q.memo),
        u64::from(q.kept),
        u64::from(q.frontier),
        u64::from(q.plans),
        u64::from(q.visit),
        u64::from(q.depth),
        u64::from(q.output),
        u64::from(q.spans),
    ];
    print_numbers(writer, b"needs", &needs)
}

fn print_page<W: Write>(writer: &mut W, output: &[u8], count: usize) -> io::Result<()> {
    writer.write_all(b"page ")?;
    if count == 0 {
        return writer.write_all(b"-\n");
    }
    for b in output.iter().take(count) {
        print_hex(writer, u64::from(*b), 2)?;
    }
    writer.write_all(b"\n")
}

fn print_cost<W: Write>(writer: &mut W, cost: ConsumerCost) -> io::Result<()> {
    writer.write_all(b"cost ")?;
    print_hex(writer, cost.overflow_high, 16)?;
    print_hex(writer, cost.overflow_low, 16)?;
    print_numbers(writer, b"", &[cost.burden])
}

// The last word of a span's row is one more than its parent, 0 where it has none.
fn print_span<W: Write>(writer: &mut W, row: [u64; 4]) -> io::Result<()> {
    writer.write_all(b"span ")?;
    for n in &row[..3] {
        print_decimal(writer, *n)?;
        writer.write_all(b" ")?;
    }
    match row[3].checked_sub(1) {
        Some(parent) => {
            print_decimal(writer, parent)?;
            writer.write_all(b"\n")
        }
        None => writer.write_all(b"-\n"),
    }
}

// A page or a refusal, and an empty line.
pub fn print_answer<W: Write>(
    writer: &mut W,
    r: Rendered,
    output: &[u8],
    spans: &[[u64; 4]],
) -> io::Result<()> {
    match r {
        Ok(page) => {
            print_page(writer, output, page.length)?;
            print_cost(writer, page.cost)?;
            for row in spans.iter().take(page.spans) {
                print_span(writer, *row)?;
            }
            print_counts(writer, page.stats)?;
            print_needs(writer, page.needs)?;
        }
        Err(refusal) => {
            let numbers = [u64::from(refusal.number), refusal.needed];
            print_numbers(writer, b"refused", &numbers)?;
            print_counts(writer, refusal.stats)?;
        }
    }
    writer.write_all(b"\n")
}

// ---- an answer in words

fn needs_in(w: [u64; 26]) -> Needs {
    Needs {
        stack: test_lines::small(w[17]),
        memo: test_lines::small(w[18]),
        kept: test_lines::small(w[19]),
        frontier: test_lines::small(w[20]),
        plans: test_lines::small(w[21]),
        visit: test_lines::small(w[22]),
        depth: test_lines::small(w[23]),
        output: test_lines::small(w[24]),
        spans: test_lines::small(w[25]),
    }
}

fn answer_in(w: [u64; 26]) -> Rendered {
    let stats = row_counts(w);
    if w[0] == 0 {
        Ok(Page {
            cost: ConsumerCost {
                overflow_high: w[4],
                overflow_low: w[5],
                burden: w[6],
            },
            length: w[2] as usize,
            spans: w[3] as usize,
            stats,
            needs: needs_in(w),
        })
    } else {
        Err(Refusal {
            number: test_lines::small(w[0]),
            needed: w[1],
            stats,
        })
    }
}

// A row of a batch's answers, with output and spans from the document's own place on.
pub fn print_row<W: Write>(
    writer: &mut W,
    w: [u64; 26],
    output: &[u8],
    spans: &[[u64; 4]],
) -> io::Result<()> {
    print_answer(writer, answer_in(w), output, spans)
}
