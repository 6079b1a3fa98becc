// A shift's files in one go (document 02, change 9), as far as it goes by value: whether a batch may be tried, what is still free, and what a document leaves of it.
#![tactic(auto)]

ghost use Rattle.std.specs.Prelude.{◌≡◌, ◌+◌, ◌≤◌, ◌<◌, ◌^◌, min, length};
ghost use Rattle.file_checks.specs.Told.{Told};
ghost use Rattle.desks.specs.Desks.{remaining};
ghost use Rattle.batch.specs.Documents.{total, most_documents};
ghost use Rattle.batch.specs.Batch.{rest};
ghost use Rattle.batch.specs.Batched.{BatchLent, BatchGate};
ghost use Rattle.batch.specs.Values.{refusal, beginning, advanced, gone_on, Taken, last_counts, ending};

use call_words::accounts::row_counts;
use desks::{SharedRecord, charged, desk_gate};
use render::order::{Lengths, in_order};
use render::page::Rendered;
use solve_workspace::{Bounds, RenderOptions};
use stats::SolveStats;

// How far a batch has come: where the next document's bytes start, how many documents were tried, which bytes and spans their pages have together, and their work. Of the counts the last row of answers tells.
#[derive(Clone, Copy)]
pub struct Progress {
    pub at: usize,
    pub filed: usize,
    pub bytes: usize,
    pub spans: usize,
    pub work: u64,
}

// A batch's answer: its own number, 0 where each document was tried; how many were; what their pages take; and the record after it.
#[derive(Clone, Copy)]
pub struct FiledAll {
    pub number: u32,
    pub tried: usize,
    pub bytes: usize,
    pub spans: usize,
    pub shared: SharedRecord,
}

// ---- whether a batch may be tried

fn lengths_fit(lengths: &[u32], bytes: usize) -> bool
    ensures { Told (total lengths.now ≤ bytes) result }
{
    let mut left = bytes;
    for n in lengths {
        let n = *n as usize;
        if left < n {
            return false;
        }
        left -= n;
    }
    true
}

fn answers_fit(documents: usize, answers: usize) -> bool
    ensures { Told (min documents most_documents ≤ answers) result }
{
    64 <= answers || documents <= answers
}

fn batch_lent(
    options: RenderOptions,
    b: Bounds,
    l: Lengths,
    files: usize,
    lengths: &[u32],
    answers: usize,
) -> bool
    ensures { Told (BatchLent options b l files lengths.now answers) result }
{
    in_order(options, b, l) && answers_fit(lengths.len(), answers) && lengths_fit(lengths, files)
}

// 1, then 28, then 29 (more than 64 documents); 0 where each document is to be tried.
pub fn batch_gate(
    desk: u32,
    options: RenderOptions,
    b: Bounds,
    l: Lengths,
    files: usize,
    lengths: &[u32],
    answers: usize,
) -> u32
    ensures { BatchGate (BatchLent options b l files lengths.now answers) desk (length lengths.now) result }
{
    let lent = batch_lent(options, b, l, files, lengths, answers);
    let gate = desk_gate(lent, desk);
    if gate != 0 {
        gate
    } else if 64 < lengths.len() {
        29
    } else {
        0
    }
}

// A batch's own refusal. Its counts, 0, go into the record where there is a document.
pub fn turn_away(number: u32, documents: usize, shared: SharedRecord) -> FiledAll
    ensures { result ≡ refusal number documents shared }
{
    let mut after = shared;
    if documents != 0 {
        after.stats = SolveStats::ZERO;
    }
    FiledAll {
        number,
        tried: 0,
        bytes: 0,
        spans: 0,
        shared: after,
    }
}

// ---- document by document

pub fn begin() -> Progress
    ensures { result ≡ beginning }
{
    Progress {
        at: 0,
        filed: 0,
        bytes: 0,
        spans: 0,
        work: 0,
    }
}

// Sizes and limits of the next document's call.
pub fn free(b: Bounds, p: Progress) -> Bounds
    requires { (p.bytes ≤ b.output) × (p.spans ≤ b.spans) }
    ensures { result ≡ rest b p.bytes p.spans }
{
    Bounds {
        output: b.output - p.bytes as u32,
        spans: b.spans - p.spans as u32,
        ..b
    }
}

fn advanced(p: Progress, to: usize, bytes: usize, spans: usize, work: u64) -> Progress
    requires { (p.filed < most_documents) × (p.bytes + bytes < 2 ^ 32) × (p.spans + spans < 2 ^ 32) × (p.work + work < 2 ^ 64) }
    ensures { result ≡ advanced p to bytes spans work }
{
    Progress {
        at: to,
        filed: p.filed + 1,
        bytes: p.bytes + bytes,
        spans: p.spans + spans,
        work: p.work + work,
    }
}

// After a document whose bytes end at `to`. A page takes its bytes and spans; a refused document takes none.
pub fn go_on(p: Progress, to: usize, a: Rendered) -> Progress
    requires { Taken p a }
    ensures { result ≡ gone_on p to a }
{
    match a {
        Ok(page) => advanced(p, to, page.length, page.spans, page.stats.work_items),
        Err(refusal) => advanced(p, to, 0, 0, refusal.stats.work_items),
    }
}

// The counts of the last document, or those before where there was none.
fn last_counts(before: SolveStats, filed: usize, answers: &[[u64; 26]]) -> SolveStats
    requires { (filed ≤ length answers.now) × (filed ≤ most_documents) }
    ensures { result ≡ last_counts before filed answers.now }
{
    if filed == 0 {
        return before;
    }
    row_counts(answers[filed - 1])
}

// The answer after all documents: their work is charged.
pub fn done(desk: u32, shared: SharedRecord, p: Progress, answers: &[[u64; 26]]) -> FiledAll
    requires { (p.filed ≤ length answers.now) × (p.filed ≤ most_documents) × (p.work ≤ remaining shared.desks desk) }
    ensures { result ≡ ending desk shared p answers.now }
{
    FiledAll {
        number: 0,
        tried: p.filed,
        bytes: p.bytes,
        spans: p.spans,
        shared: SharedRecord {
            stats: last_counts(shared.stats, p.filed, answers),
            desks: charged(shared.desks, desk, p.work),
        },
    }
}
