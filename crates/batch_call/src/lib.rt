// A shift's files in one go (document 02, change 9): each document by a single call on what is free.
#![tactic(auto)]

ghost use Rattle.std.specs.Prelude.{◌<◌, length};
ghost use Rattle.render.specs.Call.{lengths as lent_lengths};
ghost use Rattle.batch.specs.Batched.{Batched, begun, ended};
ghost use Rattle.batch.specs.Values.{beginning};
ghost use Rattle.batch_call.specs.Going.{Ready, Tried, Came};

use batch::{FiledAll, Progress, batch_gate, begin, done, free, go_on, turn_away};
use call_words::answer_words;
use desk_call::render_for;
use desks::{Desks, SharedRecord, charged};
use render::order::Lengths;
use solve_workspace::{Bounds, RenderOptions};

// The next document, with the desks as they were before the batch.
fn one_document(
    p: Progress,
    desk: u32,
    desks: Desks,
    files: &[u8],
    lengths: &[u32],
    options: RenderOptions,
    b: Bounds,
    nodes: &mut [[u32; 8]],
    edges: &mut [u32],
    choices: &mut [u32],
    texts: &mut [[u32; 3]],
    bytes: &mut [u8],
    tasks: &mut [[u32; 9]],
    results: &mut [[u32; 2]],
    pending: &mut [[u64; 7]],
    index: &mut [u64],
    entries: &mut [[u64; 6]],
    kept: &mut [[u64; 6]],
    frontier: &mut [u64],
    plans: &mut [[u32; 3]],
    visit: &mut [usize],
    depth: &mut [usize],
    output: &mut [u8],
    spans: &mut [[u64; 4]],
    answers: &mut [[u64; 26]],
) -> Progress
    requires { Ready desk desks b files.now lengths.now p output.old spans.old answers.old × (p.filed < length lengths.now) }
    ensures { Tried desk desks options b (lent_lengths nodes.old edges.old choices.old texts.old bytes.old tasks.old results.old pending.old index.old entries.old kept.old frontier.old plans.old visit.old depth.old output.old spans.old) files.now lengths.now p output.old output.new spans.old spans.new answers.old answers.new result }
{
    let to = p.at + lengths[p.filed] as usize;
    let r = render_for(
        desk,
        charged(desks, desk, p.work),
        &files[p.at..to],
        options,
        free(b, p),
        nodes,
        edges,
        choices,
        texts,
        bytes,
        tasks,
        results,
        pending,
        index,
        entries,
        kept,
        frontier,
        plans,
        visit,
        depth,
        &mut output[p.bytes..],
        &mut spans[p.spans..],
    );
    answers[p.filed] = answer_words(r.answer);
    go_on(p, to, r.answer)
}

// All documents, one after the other; a refused one does not hold up the next.
fn file_documents(
    desk: u32,
    desks: Desks,
    files: &[u8],
    lengths: &[u32],
    options: RenderOptions,
    b: Bounds,
    nodes: &mut [[u32; 8]],
    edges: &mut [u32],
    choices: &mut [u32],
    texts: &mut [[u32; 3]],
    bytes: &mut [u8],
    tasks: &mut [[u32; 9]],
    results: &mut [[u32; 2]],
    pending: &mut [[u64; 7]],
    index: &mut [u64],
    entries: &mut [[u64; 6]],
    kept: &mut [[u64; 6]],
    frontier: &mut [u64],
    plans: &mut [[u32; 3]],
    visit: &mut [usize],
    depth: &mut [usize],
    output: &mut [u8],
    spans: &mut [[u64; 4]],
    answers: &mut [[u64; 26]],
) -> Progress
    requires { Ready desk desks b files.now lengths.now beginning output.old spans.old answers.old }
    ensures { Came desk desks options b (lent_lengths nodes.old edges.old choices.old texts.old bytes.old tasks.old results.old pending.old index.old entries.old kept.old frontier.old plans.old visit.old depth.old output.old spans.old) files.now lengths.now (length lengths.now) output.old output.new spans.old spans.new answers.old answers.new result }
{
    let mut p = begin();
    for _ in 0..lengths.len() {
        p = one_document(
            p, desk, desks, files, lengths, options, b, nodes, edges, choices, texts, bytes, tasks,
            results, pending, index, entries, kept, frontier, plans, visit, depth, output, spans,
            answers,
        );
    }
    p
}

// Up to 64 documents for one desk, under one setting, one list of sizes and one pair of limits. Their bytes stand one behind the other in `files`, and `lengths` has the number of bytes of each.
pub fn file_all(
    desk: u32,
    shared: SharedRecord,
    files: &[u8],
    lengths: &[u32],
    options: RenderOptions,
    b: Bounds,
    nodes: &mut [[u32; 8]],
    edges: &mut [u32],
    choices: &mut [u32],
    texts: &mut [[u32; 3]],
    bytes: &mut [u8],
    tasks: &mut [[u32; 9]],
    results: &mut [[u32; 2]],
    pending: &mut [[u64; 7]],
    index: &mut [u64],
    entries: &mut [[u64; 6]],
    kept: &mut [[u64; 6]],
    frontier: &mut [u64],
    plans: &mut [[u32; 3]],
    visit: &mut [usize],
    depth: &mut [usize],
    output: &mut [u8],
    spans: &mut [[u64; 4]],
    answers: &mut [[u64; 26]],
) -> FiledAll
    ensures { Batched desk options b (lent_lengths nodes.old edges.old choices.old texts.old bytes.old tasks.old results.old pending.old index.old entries.old kept.old frontier.old plans.old visit.old depth.old output.old spans.old) files.now lengths.now (begun shared output.old spans.old answers.old) result.number (ended result output.new spans.new answers.new) }
{
    let l = Lengths {
        nodes: nodes.len(),
        edges: edges.len(),
        choices: choices.len(),
        texts: texts.len(),
        bytes: bytes.len(),
        tasks: tasks.len(),
        results: results.len(),
        pending: pending.len(),
        index: index.len(),
        entries: entries.len(),
        kept: kept.len(),
        frontier: frontier.len(),
        plans: plans.len(),
        visit: visit.len(),
        depth: depth.len(),
        output: output.len(),
        spans: spans.len(),
    };
    let gate = batch_gate(desk, options, b, l, files.len(), lengths, answers.len());
    if gate != 0 {
        return turn_away(gate, lengths.len(), shared);
    }
    let p = file_documents(
        desk,
        shared.desks,
        files,
        lengths,
        options,
        b,
        nodes,
        edges,
        choices,
        texts,
        bytes,
        tasks,
        results,
        pending,
        index,
        entries,
        kept,
        frontier,
        plans,
        visit,
        depth,
        output,
        spans,
        answers,
    );
    done(desk, shared, p, answers)
}
