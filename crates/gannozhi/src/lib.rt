// The library for C and Rust: a call, a file read and a file written, live reports, and a shift's files in one go, with answers in words. None has a `requires`.
#![tactic(auto)]

ghost use Rattle.std.specs.Prelude.{◌≡◌, length};
ghost use Rattle.prepare.specs.File.{TablesLent};
ghost use Rattle.prepare.specs.Writing.{lent_tables, LentAt};
ghost use Rattle.render.specs.Call.{lengths};
ghost use Rattle.call_words.specs.Words.{options, bounds};
ghost use Rattle.gannozhi.specs.Words.{Answered, read_number, read_words, Read, counts, write_number, write_size, Wrote};

pub mod live;
pub mod shift;

use call_words::accounts::{desk_words, desks_of};
use call_words::{answer_number, answer_words, bounds_of, options_of};
use desk_call::render_for;
use file_form::fill::Counts;
use file_tables::{NodeId, TextId};
use prepare::read::read;
use prepare::write::{FileCounts, Unwritten, write};
use refusals::Refusal;

// A file's page for a desk, or why there is none. The words of the desks are eight allowances, then eight spent counts, kept between calls.
#[unsafe(no_mangle)]
pub extern "C" fn gannozhi_render(
    desk: u32,
    desks: &mut [u64; 16],
    file: &[u8],
    width: u32,
    newline_cost: u32,
    policy: u32,
    rule: u32,
    sizes: &[u32; 9],
    work_limit: u64,
    visit_limit: u64,
    nodes: &mut [[u32; 8]],
    edges: &mut [u32],
    choices: &mut [u32],
    texts: &mut [[u32; 3]],
    bytes: &mut [u8],
    tasks: &mut [[u32; 9]],
    results: &mut [[u32; 2]],
    pending: &mut [[u64; 7]],
    index: &mut [u64],
    entries: &mut [[u64; 6]],
    kept: &mut [[u64; 6]],
    frontier: &mut [u64],
    plans: &mut [[u32; 3]],
    visit: &mut [usize],
    depth: &mut [usize],
    output: &mut [u8],
    spans: &mut [[u64; 4]],
    answer: &mut [u64; 26],
) -> u32
    ensures { Answered desk desks.old desks.new file.now (options width newline_cost policy rule) (bounds sizes.now work_limit visit_limit) (lengths nodes.old edges.old choices.old texts.old bytes.old tasks.old results.old pending.old index.old entries.old kept.old frontier.old plans.old visit.old depth.old output.old spans.old) output.old output.new spans.old spans.new answer.new result }
{
    let o = options_of(width, newline_cost, policy, rule);
    let b = bounds_of(*sizes, work_limit, visit_limit);
    let d = desks_of(*desks);
    let r = render_for(
        desk, d, file, o, b, nodes, edges, choices, texts, bytes, tasks, results, pending, index,
        entries, kept, frontier, plans, visit, depth, output, spans,
    );
    *desks = desk_words(r.desks);
    *answer = answer_words(r.answer);
    answer_number(r.answer)
}

// ---- reader and writer: C gets numbers

fn read_number(a: Result<Counts, Refusal>) -> u32
    ensures { result ≡ read_number a }
{
    match a {
        Ok(_) => 0,
        Err(refusal) => refusal.number(),
    }
}

fn read_words(a: Result<Counts, Refusal>, was: [u32; 8]) -> [u32; 8]
    ensures { result ≡ read_words a was }
{
    match a {
        Ok(n) => [
            n.nodes,
            n.edges,
            n.choices,
            n.texts,
            n.annotations,
            n.root.0,
            n.space.0,
            n.bytes,
        ],
        Err(_) => was,
    }
}

// A file into lent tables. 7 is a text with byte 10 or one that is not UTF-8 (RFC 3629).
#[unsafe(no_mangle)]
pub extern "C" fn gannozhi_read(
    file: &[u8],
    nodes: &mut [[u32; 8]],
    edges: &mut [u32],
    choices: &mut [u32],
    texts: &mut [[u32; 3]],
    bytes: &mut [u8],
    counts: &mut [u32; 8],
) -> u32
    ensures { Read file.now (TablesLent (length nodes.old) (length edges.old) (length choices.old) (length texts.old) (length bytes.old)) nodes.new edges.new choices.new texts.new bytes.new counts.old counts.new result }
{
    let a = read(file, nodes, edges, choices, texts, bytes);
    *counts = read_words(a, *counts);
    read_number(a)
}

fn counts_of(w: [u32; 7]) -> FileCounts
    ensures { result ≡ counts w }
{
    FileCounts {
        nodes: w[0],
        edges: w[1],
        choices: w[2],
        texts: w[3],
        annotations: w[4],
        root: NodeId(w[5]),
        space: TextId(w[6]),
    }
}

fn write_number(o: Result<usize, Unwritten>) -> u32
    ensures { result ≡ write_number o }
{
    match o {
        Ok(_) => 0,
        Err(e) => e.refusal.number(),
    }
}

fn write_size(o: Result<usize, Unwritten>) -> usize
    ensures { result ≡ write_size o }
{
    match o {
        Ok(k) => k,
        Err(e) => e.needed,
    }
}

// The file of lent tables. 7 as above.
#[unsafe(no_mangle)]
pub extern "C" fn gannozhi_write(
    file_counts: &[u32; 7],
    nodes: &[[u32; 8]],
    edges: &[u32],
    choices: &[u32],
    texts: &[[u32; 3]],
    bytes: &[u8],
    out: &mut [u8],
    size: &mut usize,
) -> u32
    ensures { Wrote (lent_tables (counts file_counts.now) nodes.now edges.now choices.now texts.now bytes.now) (LentAt (counts file_counts.now) nodes.now edges.now choices.now texts.now bytes.now) out.old out.new size.new result }
{
    let n = counts_of(*file_counts);
    let o = write(n, nodes, edges, choices, texts, bytes, out);
    *size = write_size(o);
    write_number(o)
}
