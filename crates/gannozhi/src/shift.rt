// A shift's files in one go, for C and Rust. The record is the desks' words and the counts' words together.
ghost use Rattle.call_words.specs.Words.{options, bounds};
ghost use Rattle.render.specs.Call.{lengths as lent_lengths};
ghost use Rattle.gannozhi.specs.Shifts.{FiledShift};

use batch_call::file_all;
use call_words::accounts::{counts_of, counts_words, desk_words, desks_of};
use call_words::{bounds_of, options_of};
use desks::SharedRecord;

// Up to 64 files for a desk, their bytes one behind the other, and how many bytes each has. A row of answers for each; the number is the batch's own, 0 where each file was tried.
#[unsafe(no_mangle)]
pub extern "C" fn gannozhi_file_all(
    desk: u32,
    desks: &mut [u64; 16],
    counts: &mut [u64; 10],
    files: &[u8],
    lengths: &[u32],
    width: u32,
    newline_cost: u32,
    policy: u32,
    rule: u32,
    sizes: &[u32; 9],
    work_limit: u64,
    visit_limit: u64,
    nodes: &mut [[u32; 8]],
    edges: &mut [u32],
    choices: &mut [u32],
    texts: &mut [[u32; 3]],
    bytes: &mut [u8],
    tasks: &mut [[u32; 9]],
    results: &mut [[u32; 2]],
    pending: &mut [[u64; 7]],
    index: &mut [u64],
    entries: &mut [[u64; 6]],
    kept: &mut [[u64; 6]],
    frontier: &mut [u64],
    plans: &mut [[u32; 3]],
    visit: &mut [usize],
    depth: &mut [usize],
    output: &mut [u8],
    spans: &mut [[u64; 4]],
    answers: &mut [[u64; 26]],
) -> u32
    ensures { FiledShift desk desks.old desks.new counts.old counts.new files.now lengths.now (options width newline_cost policy rule) (bounds sizes.now work_limit visit_limit) (lent_lengths nodes.old edges.old choices.old texts.old bytes.old tasks.old results.old pending.old index.old entries.old kept.old frontier.old plans.old visit.old depth.old output.old spans.old) output.old output.new spans.old spans.new answers.old answers.new result }
{
    let o = options_of(width, newline_cost, policy, rule);
    let b = bounds_of(*sizes, work_limit, visit_limit);
    let d = desks_of(*desks);
    let k = counts_of(*counts);
    let s = SharedRecord { stats: k, desks: d };
    let r = file_all(
        desk, s, files, lengths, o, b, nodes, edges, choices, texts, bytes, tasks, results,
        pending, index, entries, kept, frontier, plans, visit, depth, output, spans, answers,
    );
    *desks = desk_words(r.shared.desks);
    *counts = counts_words(r.shared.stats);
    r.number
}
