// Calls on live reports, on single files and on batches from standard input, a line each: for each step how many rows the report has after it, and its answer as in `test_calls`. From the first
// `desk`, `allow` or `spent` on, each answer has the desks before it, as they are after the call: eight allowances, eight spent counts.
//
//     open WIDTH NEWLINE_COST POLICY RULE
//     sizes STACK MEMO KEPT FRONTIER PLANS VISIT DEPTH OUTPUT SPANS     of the calls from here on
//     limits WORK VISITS        likewise
//     desk D                    likewise, 0 at first
//     allow A0 .. A7            what the desks may do, with nothing spent; 2^64 - 1 each at first
//     spent S0 .. S7            what they have done
//     insert PLACE HEX          `-` where the file is empty
//     remove PLACE
//     fill COUNT HEX            so many insertions at the end; the last one's answer is written
//     empty                     row 0 is removed until none is left; the last one's answer is written
//     word ROW WORD VALUE       a word of the table is altered, for memory that no step has written
//     call WIDTH NEWLINE_COST POLICY RULE HEX     a call on one file
//     file HEX                  a document of the next batch: up to 70 such lines stand right before its own; `-` where it is empty
//     batch WIDTH NEWLINE_COST POLICY RULE ROWS     these documents in one go, with so many rows of answers, at most 64
//
// Of a batch are written its own number, the answer of each document tried, how many bytes and spans they take, the counts in the record (before the batch they are 1 to 10) and the desks.
// Any other line (case NAME) is handed on. Memory is lent at the sizes of `page`, but spans at 2,048; files and pages have 65,536 bytes, and there are 4,096 marks.
// A call that asks for more is 1, and so is a step before a report is opened. Each report has the memory that the one before it left.
#![tactic(auto)]

ghost use Rattle.std.specs.Prelude.{◌≤◌, length};

use batch::FiledAll;
use batch_call::file_all;
use call_words::accounts::{counts_of, counts_words, desk_words};
use desk_call::render_for;
use desks::{DeskAnswer, Desks, SharedRecord};
use report_gate::{Head, open_report};
use report_step::{DeskStep, insert, remove};
use solve_workspace::{Bounds, RenderOptions};
use std::io;
use std::io::Write;
use streams::read_full;
use test_answers::{bounds_of, hand_on, print_answer, print_numbers, print_row};
use test_lines::{behind, file_at, number_at, numbers_at, small};

// What holds for a call: the report's head, sizes and limits, the desk, the desks, and whether they are written.
#[derive(Clone, Copy)]
struct State {
    head: Head,
    bounds: Bounds,
    desk: u32,
    desks: Desks,
    told: bool,
}

// What holds after a line, and where the next one begins.
#[derive(Clone, Copy)]
struct Turn {
    state: State,
    next: usize,
}

fn after(s: State, t: DeskStep) -> State {
    State {
        head: t.head,
        desks: t.desks,
        ..s
    }
}

// ---- lines without a call

// A letter of the line, or 0 at the end.
fn letter_at(input: &[u8], from: usize, i: usize) -> u8 {
    if from < input.len() && i < input.len() - from {
        input[from + i]
    } else {
        0
    }
}

fn print_rows<W: Write>(writer: &mut W, h: Head) -> io::Result<()> {
    writeln!(writer, "rows {}", h.rows)
}

fn print_desks<W: Write>(writer: &mut W, s: State) -> io::Result<()> {
    if s.told {
        print_numbers(writer, b"desks", &desk_words(s.desks))?;
    }
    Ok(())
}

// A report's head, or the one before where it is refused.
fn opened<W: Write>(writer: &mut W, w: [u64; 4], h: Head) -> io::Result<Head> {
    match open_report(small(w[0]), small(w[1]), small(w[2]), small(w[3])) {
        Ok(head) => {
            print_rows(writer, head)?;
            Ok(head)
        }
        Err(number) => {
            writeln!(writer, "refused {number}")?;
            Ok(h)
        }
    }
}

fn open_at<W: Write>(writer: &mut W, input: &[u8], from: usize, s: State) -> io::Result<Turn> {
    let mut w = [0u64; 4];
    let next = numbers_at(input, from, &mut w);
    let head = opened(writer, w, s.head)?;
    writer.write_all(b"\n")?;
    Ok(Turn {
        state: State { head, ..s },
        next,
    })
}

fn sizes_at(input: &[u8], from: usize, s: State) -> Turn {
    let mut w = [0u64; 9];
    let next = numbers_at(input, from, &mut w);
    let bounds = bounds_of(w, [s.bounds.work_limit, s.bounds.visit_limit]);
    Turn {
        state: State { bounds, ..s },
        next,
    }
}

fn limits_at(input: &[u8], from: usize, s: State) -> Turn {
    let mut l = [0u64; 2];
    let next = numbers_at(input, from, &mut l);
    let bounds = Bounds {
        work_limit: l[0],
        visit_limit: l[1],
        ..s.bounds
    };
    Turn {
        state: State { bounds, ..s },
        next,
    }
}

fn desk_at(input: &[u8], from: usize, s: State) -> Turn {
    let mut w = [0u64; 1];
    let next = numbers_at(input, from, &mut w);
    Turn {
        state: State {
            desk: small(w[0]),
            told: true,
            ..s
        },
        next,
    }
}

fn with_desks(s: State, desks: Desks) -> State {
    State {
        desks,
        told: true,
        ..s
    }
}

fn allow_at(input: &[u8], from: usize, s: State) -> Turn {
    let mut allowance = [0u64; 8];
    let next = numbers_at(input, from, &mut allowance);
    let desks = Desks {
        allowance,
        spent: [0u64; 8],
    };
    Turn {
        state: with_desks(s, desks),
        next,
    }
}

fn spent_at(input: &[u8], from: usize, s: State) -> Turn {
    let mut spent = [0u64; 8];
    let next = numbers_at(input, from, &mut spent);
    let desks = Desks { spent, ..s.desks };
    Turn {
        state: with_desks(s, desks),
        next,
    }
}

// `open`, `sizes`, `spent`, `limits`, `desk`, `allow` or any other line, by its first letter and its third.
fn setting_at<W: Write>(
    writer: &mut W,
    input: &[u8],
    from: usize,
    c: u8,
    e: u8,
    s: State,
) -> io::Result<Turn> {
    match c {
        b'o' => open_at(writer, input, from, s),
        b's' if e == b'e' => Ok(spent_at(input, from, s)),
        b's' => Ok(sizes_at(input, from, s)),
        b'l' => Ok(limits_at(input, from, s)),
        b'd' => Ok(desk_at(input, from, s)),
        b'a' => Ok(allow_at(input, from, s)),
        _ => Ok(Turn {
            state: s,
            next: hand_on(writer, input, from)?,
        }),
    }
}

fn word_at(input: &[u8], from: usize, table: &mut [[u64; 8]]) -> usize {
    let mut w = [0u64; 3];
    let next = numbers_at(input, from, &mut w);
    let row = w[0] as usize;
    let word = w[1] as usize;
    if row < table.len() && word < 8 {
        table[row][word] = w[2];
    }
    next
}

// ---- insertions

fn insert_lent(
    place: usize,
    file: &[u8],
    s: State,
    table: &mut [[u64; 8]; 1024],
    files: &mut [u8; 65536],
    pages: &mut [u8; 65536],
    marks: &mut [[u32; 4]; 4096],
    output: &mut [u8; 32768],
    spans: &mut [[u64; 4]; 2048],
) -> DeskStep {
    let mut nodes = [[0u32; 8]; 4096];
    let mut edges = [0u32; 16384];
    let mut choices = [0u32; 16384];
    let mut texts = [[0u32; 3]; 4096];
    let mut bytes = [0u8; 65536];
    let mut tasks = [[0u32; 9]; 512];
    let mut results = [[0u32; 2]; 512];
    let mut pending = [[0u64; 7]; 512];
    let mut index = [0u64; 2048];
    let mut entries = [[0u64; 6]; 1024];
    let mut kept = [[0u64; 6]; 1024];
    let mut frontier = [0u64; 3584];
    let mut plans = [[0u32; 3]; 2048];
    let mut visit = [0usize; 512];
    let mut depth = [0usize; 64];
    let mut row_output = [0u8; 32768];
    let mut row_spans = [[0u64; 4]; 2048];
    insert(
        s.desk,
        s.desks,
        place,
        file,
        s.bounds,
        s.head,
        table,
        files,
        pages,
        marks,
        output,
        spans,
        &mut nodes,
        &mut edges,
        &mut choices,
        &mut texts,
        &mut bytes,
        &mut tasks,
        &mut results,
        &mut pending,
        &mut index,
        &mut entries,
        &mut kept,
        &mut frontier,
        &mut plans,
        &mut visit,
        &mut depth,
        &mut row_output,
        &mut row_spans,
    )
}

fn tell<W: Write>(
    writer: &mut W,
    s: State,
    t: DeskStep,
    output: &[u8],
    spans: &[[u64; 4]],
) -> io::Result<State> {
    let told = after(s, t);
    print_rows(writer, t.head)?;
    print_desks(writer, told)?;
    print_answer(writer, t.answer, output, spans)?;
    Ok(told)
}

// All but the last of so many insertions.
fn fill(
    count: u64,
    file: &[u8],
    s: State,
    table: &mut [[u64; 8]; 1024],
    files: &mut [u8; 65536],
    pages: &mut [u8; 65536],
    marks: &mut [[u32; 4]; 4096],
    output: &mut [u8; 32768],
    spans: &mut [[u64; 4]; 2048],
) -> State {
    let mut state = s;
    for _ in 1..count {
        let place = state.head.rows as usize;
        let t = insert_lent(
            place, file, state, table, files, pages, marks, output, spans,
        );
        state = after(state, t);
    }
    state
}

// The last one's answer, with head and desks after all of them.
fn insertion(
    filling: bool,
    number: u64,
    file: &[u8],
    s: State,
    table: &mut [[u64; 8]; 1024],
    files: &mut [u8; 65536],
    pages: &mut [u8; 65536],
    marks: &mut [[u32; 4]; 4096],
    output: &mut [u8; 32768],
    spans: &mut [[u64; 4]; 2048],
) -> DeskStep {
    if filling {
        let filled = fill(number, file, s, table, files, pages, marks, output, spans);
        let place = filled.head.rows as usize;
        insert_lent(
            place, file, filled, table, files, pages, marks, output, spans,
        )
    } else {
        let place = number as usize;
        insert_lent(place, file, s, table, files, pages, marks, output, spans)
    }
}

fn insertion_at<W: Write>(
    writer: &mut W,
    input: &[u8],
    from: usize,
    filling: bool,
    s: State,
    table: &mut [[u64; 8]; 1024],
    files: &mut [u8; 65536],
    pages: &mut [u8; 65536],
    marks: &mut [[u32; 4]; 4096],
    output: &mut [u8; 32768],
    spans: &mut [[u64; 4]; 2048],
) -> io::Result<Turn> {
    let mut file = [0u8; 8192];
    let at = behind(input, from, b' ');
    let number = number_at(input, at);
    let read = file_at(input, at, &mut file);
    let n = test_lines::count(read.line, &file);
    let t = insertion(
        filling,
        number.value,
        &file[..n],
        s,
        table,
        files,
        pages,
        marks,
        output,
        spans,
    );
    Ok(Turn {
        state: tell(writer, s, t, output, spans)?,
        next: read.next,
    })
}

// ---- removals

fn remove_row(
    place: usize,
    s: State,
    table: &mut [[u64; 8]; 1024],
    files: &mut [u8; 65536],
    pages: &mut [u8; 65536],
    marks: &mut [[u32; 4]; 4096],
    output: &mut [u8; 32768],
    spans: &mut [[u64; 4]; 2048],
) -> DeskStep {
    remove(
        s.desk, s.desks, place, s.bounds, s.head, table, files, pages, marks, output, spans,
    )
}

// All but the last of the removals that empty a report.
fn empty(
    s: State,
    table: &mut [[u64; 8]; 1024],
    files: &mut [u8; 65536],
    pages: &mut [u8; 65536],
    marks: &mut [[u32; 4]; 4096],
    output: &mut [u8; 32768],
    spans: &mut [[u64; 4]; 2048],
) -> State {
    let mut state = s;
    for _ in 1..s.head.rows {
        let t = remove_row(0, state, table, files, pages, marks, output, spans);
        state = after(state, t);
    }
    state
}

fn removal(
    emptying: bool,
    place: usize,
    s: State,
    table: &mut [[u64; 8]; 1024],
    files: &mut [u8; 65536],
    pages: &mut [u8; 65536],
    marks: &mut [[u32; 4]; 4096],
    output: &mut [u8; 32768],
    spans: &mut [[u64; 4]; 2048],
) -> DeskStep {
    if emptying {
        let emptied = empty(s, table, files, pages, marks, output, spans);
        remove_row(0, emptied, table, files, pages, marks, output, spans)
    } else {
        remove_row(place, s, table, files, pages, marks, output, spans)
    }
}

fn removal_at<W: Write>(
    writer: &mut W,
    input: &[u8],
    from: usize,
    emptying: bool,
    s: State,
    table: &mut [[u64; 8]; 1024],
    files: &mut [u8; 65536],
    pages: &mut [u8; 65536],
    marks: &mut [[u32; 4]; 4096],
    output: &mut [u8; 32768],
    spans: &mut [[u64; 4]; 2048],
) -> io::Result<Turn> {
    let next = behind(input, from, b'\n');
    let at = behind(input, from, b' ');
    let number = number_at(input, at);
    let place = number.value as usize;
    let t = removal(
        emptying, place, s, table, files, pages, marks, output, spans,
    );
    Ok(Turn {
        state: tell(writer, s, t, output, spans)?,
        next,
    })
}

// ---- calls on one file

fn options_of(w: [u64; 3], rule: u64) -> RenderOptions {
    RenderOptions {
        width: small(w[0]),
        newline_cost: small(w[1]),
        policy: small(w[2]),
        rule: small(rule),
    }
}

fn call_lent(
    file: &[u8],
    options: RenderOptions,
    s: State,
    output: &mut [u8; 32768],
    spans: &mut [[u64; 4]; 2048],
) -> DeskAnswer {
    let mut nodes = [[0u32; 8]; 4096];
    let mut edges = [0u32; 16384];
    let mut choices = [0u32; 16384];
    let mut texts = [[0u32; 3]; 4096];
    let mut bytes = [0u8; 65536];
    let mut tasks = [[0u32; 9]; 512];
    let mut results = [[0u32; 2]; 512];
    let mut pending = [[0u64; 7]; 512];
    let mut index = [0u64; 2048];
    let mut entries = [[0u64; 6]; 1024];
    let mut kept = [[0u64; 6]; 1024];
    let mut frontier = [0u64; 3584];
    let mut plans = [[0u32; 3]; 2048];
    let mut visit = [0usize; 512];
    let mut depth = [0usize; 64];
    render_for(
        s.desk,
        s.desks,
        file,
        options,
        s.bounds,
        &mut nodes,
        &mut edges,
        &mut choices,
        &mut texts,
        &mut bytes,
        &mut tasks,
        &mut results,
        &mut pending,
        &mut index,
        &mut entries,
        &mut kept,
        &mut frontier,
        &mut plans,
        &mut visit,
        &mut depth,
        output,
        spans,
    )
}

fn tell_call<W: Write>(
    writer: &mut W,
    s: State,
    r: DeskAnswer,
    output: &[u8],
    spans: &[[u64; 4]],
) -> io::Result<State> {
    let told = State {
        desks: r.desks,
        ..s
    };
    print_desks(writer, told)?;
    print_answer(writer, r.answer, output, spans)?;
    Ok(told)
}

fn call_at<W: Write>(
    writer: &mut W,
    input: &[u8],
    from: usize,
    s: State,
    output: &mut [u8; 32768],
    spans: &mut [[u64; 4]; 2048],
) -> io::Result<Turn> {
    let mut file = [0u8; 8192];
    let mut w = [0u64; 3];
    let at = numbers_at(input, from, &mut w);
    let rule = number_at(input, at);
    let read = file_at(input, at, &mut file);
    let n = test_lines::count(read.line, &file);
    let r = call_lent(&file[..n], options_of(w, rule.value), s, output, spans);
    Ok(Turn {
        state: tell_call(writer, s, r, output, spans)?,
        next: read.next,
    })
}

// ---- batches

// The documents of a batch: how many, how many bytes they have together, and where the line behind them begins.
#[derive(Clone, Copy)]
struct Gathered {
    documents: usize,
    bytes: usize,
    next: usize,
}

fn gather(input: &[u8], from: usize, files: &mut [u8], lengths: &mut [u32]) -> Gathered
    ensures { (result.documents ≤ length lengths.old) × (result.bytes ≤ length files.old) }
{
    let mut at = from;
    let mut bytes: usize = 0;
    for (documents, one) in lengths.iter_mut().enumerate() {
        if letter_at(input, at, 0) != b'f' {
            return Gathered {
                documents,
                bytes,
                next: at,
            };
        }
        let read = file_at(input, at, &mut files[bytes..]);
        let n = test_lines::count(read.line, &files[bytes..]);
        *one = small(n as u64);
        bytes += n;
        at = read.next;
    }
    Gathered {
        documents: lengths.len(),
        bytes,
        next: at,
    }
}

fn batch_lent(
    files: &[u8],
    lengths: &[u32],
    options: RenderOptions,
    s: State,
    output: &mut [u8; 32768],
    spans: &mut [[u64; 4]; 2048],
    answers: &mut [[u64; 26]],
) -> FiledAll {
    let shared = SharedRecord {
        stats: counts_of([1, 2, 3, 4, 5, 6, 7, 8, 9, 10]),
        desks: s.desks,
    };
    let mut nodes = [[0u32; 8]; 4096];
    let mut edges = [0u32; 16384];
    let mut choices = [0u32; 16384];
    let mut texts = [[0u32; 3]; 4096];
    let mut bytes = [0u8; 65536];
    let mut tasks = [[0u32; 9]; 512];
    let mut results = [[0u32; 2]; 512];
    let mut pending = [[0u64; 7]; 512];
    let mut index = [0u64; 2048];
    let mut entries = [[0u64; 6]; 1024];
    let mut kept = [[0u64; 6]; 1024];
    let mut frontier = [0u64; 3584];
    let mut plans = [[0u32; 3]; 2048];
    let mut visit = [0usize; 512];
    let mut depth = [0usize; 64];
    file_all(
        s.desk,
        shared,
        files,
        lengths,
        options,
        s.bounds,
        &mut nodes,
        &mut edges,
        &mut choices,
        &mut texts,
        &mut bytes,
        &mut tasks,
        &mut results,
        &mut pending,
        &mut index,
        &mut entries,
        &mut kept,
        &mut frontier,
        &mut plans,
        &mut visit,
        &mut depth,
        output,
        spans,
        answers,
    )
}

fn print_tried<W: Write>(
    writer: &mut W,
    tried: usize,
    answers: &[[u64; 26]],
    output: &[u8],
    spans: &[[u64; 4]],
) -> io::Result<()> {
    let mut at: usize = 0;
    let mut mark: usize = 0;
    for row in answers.iter().take(tried) {
        print_row(writer, *row, &output[at..], &spans[mark..])?;
        at = at.saturating_add(row[2] as usize).min(output.len());
        mark = mark.saturating_add(row[3] as usize).min(spans.len());
    }
    Ok(())
}

fn tell_batch<W: Write>(
    writer: &mut W,
    s: State,
    r: FiledAll,
    answers: &[[u64; 26]],
    output: &[u8],
    spans: &[[u64; 4]],
) -> io::Result<State> {
    let told = State {
        desks: r.shared.desks,
        ..s
    };
    writeln!(writer, "batch {}", r.number)?;
    print_tried(writer, r.tried, answers, output, spans)?;
    writeln!(writer, "used {} {}", r.bytes, r.spans)?;
    print_numbers(writer, b"record", &counts_words(r.shared.stats))?;
    print_desks(writer, told)?;
    writer.write_all(b"\n")?;
    Ok(told)
}

fn batch_at<W: Write>(
    writer: &mut W,
    input: &[u8],
    from: usize,
    s: State,
    output: &mut [u8; 32768],
    spans: &mut [[u64; 4]; 2048],
) -> io::Result<Turn> {
    let mut files = [0u8; 65536];
    let mut lengths = [0u32; 70];
    let mut answers = [[0u64; 26]; 64];
    let mut w = [0u64; 5];
    let g = gather(input, from, &mut files, &mut lengths);
    let next = numbers_at(input, g.next, &mut w);
    // At most 64 rows of answers.
    let rows = w[4].min(64) as usize;
    let r = batch_lent(
        &files[..g.bytes],
        &lengths[..g.documents],
        options_of([w[0], w[1], w[2]], w[3]),
        s,
        output,
        spans,
        &mut answers[..rows],
    );
    Ok(Turn {
        state: tell_batch(writer, s, r, &answers[..rows], output, spans)?,
        next,
    })
}

// ---- all lines

// `insert`, `fill`, `remove`, `empty`, `word`, `call` (not `case`), `file` or `batch`, by the first letter, the third and the fourth; any other line is a setting or handed on.
fn line_at<W: Write>(
    writer: &mut W,
    input: &[u8],
    from: usize,
    s: State,
    table: &mut [[u64; 8]; 1024],
    files: &mut [u8; 65536],
    pages: &mut [u8; 65536],
    marks: &mut [[u32; 4]; 4096],
    output: &mut [u8; 32768],
    spans: &mut [[u64; 4]; 2048],
) -> io::Result<Turn> {
    let c = letter_at(input, from, 0);
    let e = letter_at(input, from, 2);
    let g = letter_at(input, from, 3);
    match c {
        b'i' => insertion_at(
            writer, input, from, false, s, table, files, pages, marks, output, spans,
        ),
        b'f' if g != b'e' => insertion_at(
            writer, input, from, true, s, table, files, pages, marks, output, spans,
        ),
        b'r' => removal_at(
            writer, input, from, false, s, table, files, pages, marks, output, spans,
        ),
        b'e' => removal_at(
            writer, input, from, true, s, table, files, pages, marks, output, spans,
        ),
        b'w' => Ok(Turn {
            state: s,
            next: word_at(input, from, table),
        }),
        b'c' if e == b'l' => call_at(writer, input, from, s, output, spans),
        b'f' | b'b' => batch_at(writer, input, from, s, output, spans),
        _ => setting_at(writer, input, from, c, e, s),
    }
}

// No report, no sizes; desk 0, which may do anything.
fn begun() -> State {
    State {
        head: Head {
            rows: 0,
            width: 0,
            newline_cost: 0,
            policy: 0,
            rule: 0,
        },
        bounds: bounds_of([0u64; 9], [0u64; 2]),
        desk: 0,
        desks: Desks {
            allowance: [u64::MAX; 8],
            spent: [0u64; 8],
        },
        told: false,
    }
}

fn all<W: Write>(writer: &mut W, input: &[u8]) -> io::Result<()> {
    let mut table = [[0u64; 8]; 1024];
    let mut files = [0u8; 65536];
    let mut pages = [0u8; 65536];
    let mut marks = [[0u32; 4]; 4096];
    let mut output = [0u8; 32768];
    let mut spans = [[0u64; 4]; 2048];
    let mut s = begun();
    let mut at: usize = 0;
    for _ in 0..4096 {
        if input.len() <= at {
            break;
        }
        let turn = line_at(
            writer,
            input,
            at,
            s,
            &mut table,
            &mut files,
            &mut pages,
            &mut marks,
            &mut output,
            &mut spans,
        )?;
        s = turn.state;
        at = turn.next;
    }
    Ok(())
}

fn main(rt: HostRuntime) -> io::Result<()> {
    let mut input = [0u8; 65536];
    let (n, read) = read_full(&mut rt.stdin(), &mut input);
    read?;
    all(&mut rt.stdout(), &input[..n])
}
