// The page and the spans of the chosen plan, in two passes over one walk: `measure` tests every limit, `write` writes.
// So a refusal alters neither output nor spans, and visits are counted once.
// Cost and column are not counted again: that the solver's cost is the layout's is a theorem about the machine, so CostWitnessMismatch never arises.
#![tactic(auto)]

ghost use Rattle.std.specs.Prelude.{◌≡◌, true, false, List, ◌∷◌, ◌++◌, ℕ, ◌+◌, ◌-◌, ◌≤◌, ◌<◌, ◌^◌, max, leb, length, take, drop, set, replicate};
ghost use Rattle.file_tables.specs.Tables.{byte_start, byte_length};
ghost use Rattle.materialize.specs.Rows.{parent_word};
ghost use Rattle.materialize.specs.Texts.{text_row, InBytes, Planned};
ghost use Rattle.materialize.specs.Answer.{Small, Lent};
ghost use Rattle.materialize.specs.Walks.{Around, pile, plan, innermost, begin, at_top, went, text_turn, newline_turn, two_turn, two_words, annotate_turn, annotate_words, Sure, Standing, Passing, Turned, Answered};
ghost use Rattle.materialize.specs.Writes.{wrote, Under, depth_after, mark_of, marked, MarkFits, Allowed, Performed, InUse, Turning, Stepped, Passes, Written};

use file_tables::{AnnotationId, TextId};
use plan::{PlanId, PlanNode, plan_node};

// The sizes of 18 to 21, and the limit of 22.
#[derive(Clone, Copy)]
pub struct Capacity {
    pub visit: usize,
    pub depth: usize,
    pub output: usize,
    pub spans: usize,
    pub visit_limit: u64,
}

// Which of them is passed.
#[derive(Clone, Copy)]
pub enum Exhausted {
    Visit,
    Depth,
    Output,
    Spans,
    Visits,
}

// A page: its bytes, its spans, and the visits; then the most items on the visit stack, and the most open spans.
#[derive(Clone, Copy)]
pub struct MeasuredPage {
    pub bytes: usize,
    pub spans: usize,
    pub visits: u64,
    pub visit: usize,
    pub depth: usize,
}

// The size or the limit that is passed: what is needed of it (0 for the visit limit), and the visits before it.
#[derive(Clone, Copy)]
pub struct Passed {
    pub what: Exhausted,
    pub needed: usize,
    pub visits: u64,
}

pub type Measured = Result<MeasuredPage, Passed>;

// Where a walk stands: items on the visit stack, open spans, bytes and spans so far, items taken.
#[derive(Clone, Copy)]
pub struct Walk {
    pub top: usize,
    pub depth: usize,
    pub at: usize,
    pub spans: usize,
    pub visits: u64,
}

// What an item puts: nothing; a text's start and length among the bytes; a newline and its spaces; a span's beginning; its end.
#[derive(Clone, Copy)]
pub enum Act {
    Pass,
    Put(usize, usize),
    Line(usize),
    Open(AnnotationId),
    Close,
}

// Where the walk stands once an item is taken, and what that puts.
pub type Visited = Result<(Walk, Act), Passed>;

// What an item makes of the list of spans: nothing; the span of a number opens, with its annotation, its position, and its parent's word (0, or one more than the parent's number); it closes at a position.
#[derive(Clone, Copy)]
pub enum Mark {
    Nothing,
    Open(usize, AnnotationId, u64, u64),
    Close(usize, u64),
}

// The plan that is laid out, and how many plan records, texts and bytes of the lent tables are in use.
#[derive(Clone, Copy)]
pub struct Chosen {
    pub root: PlanId,
    pub plans: usize,
    pub texts: usize,
    pub bytes: usize,
}

// A turn of the second pass: where the walk stands then, and what is to be marked.
#[derive(Clone, Copy)]
pub struct Step {
    pub walk: Walk,
    pub mark: Mark,
}

fn wide(x: u32) -> usize
    ensures { (result ≡ x) × (result < 2 ^ 32) }
{
    x as usize
}

// The word of the visit stack that says: lay out the plan. 0 says: close the last open span.
fn word_of(id: PlanId) -> usize
    ensures { (result ≡ id.0 + 1) × (result ≤ 2 ^ 32) }
{
    wide(id.0) + 1
}

// Whether a size is exceeded. What is not tested is known to fit, so the second pass does not test again.
fn exceeds(tested: bool, needed: usize, size: usize) -> bool
    requires { tested ≡ false → leb needed size ≡ true }
    ensures { (result ≡ true → size < needed) × (result ≡ false → needed ≤ size) }
{
    tested && size < needed
}

fn visit_text(capacity: Capacity, tested: bool, w: Walk, texts: &[[u32; 3]], id: TextId) -> Visited
    requires { (id.0 < length texts.now) × (w.at ≤ capacity.output) × Small capacity × Sure tested (text_turn capacity w (byte_start (text_row texts.now id.0)) (byte_length (text_row texts.now id.0))) }
    ensures { result ≡ text_turn capacity w (byte_start (text_row texts.now id.0)) (byte_length (text_row texts.now id.0)) }
{
    let row = texts[wide(id.0)];
    let start = wide(row[2]);
    let len = wide(row[1]);
    let end = w.at + len;
    if exceeds(tested, end, capacity.output) {
        return Err(Passed {
            what: Exhausted::Output,
            needed: end,
            visits: w.visits,
        });
    }
    Ok((Walk { at: end, ..w }, Act::Put(start, len)))
}

// One test for all its bytes: a newline that has no place costs no loop.
fn visit_newline(capacity: Capacity, tested: bool, w: Walk, columns: u32) -> Visited
    requires { (w.at ≤ capacity.output) × Small capacity × Sure tested (newline_turn capacity w columns) }
    ensures { result ≡ newline_turn capacity w columns }
{
    let indent = wide(columns);
    let end = w.at + indent + 1;
    if exceeds(tested, end, capacity.output) {
        return Err(Passed {
            what: Exhausted::Output,
            needed: capacity.output + 1,
            visits: w.visits,
        });
    }
    Ok((Walk { at: end, ..w }, Act::Line(indent)))
}

// Two items go on the visit stack. (The first alone always has a place: it takes that of the item just taken.)
fn push_visits(
    capacity: Capacity,
    tested: bool,
    w: Walk,
    act: Act,
    below: usize,
    above: usize,
    visit: &mut [usize],
) -> Visited
    requires { (w.top ≤ capacity.visit) × (capacity.visit ≤ length visit.old) × Small capacity × Sure tested (two_turn capacity w act) }
    ensures { (result ≡ two_turn capacity w act) × (visit.new ≡ two_words capacity w below above visit.old) }
{
    let top = w.top;
    let needed = top + 2;
    if exceeds(tested, needed, capacity.visit) {
        return Err(Passed {
            what: Exhausted::Visit,
            needed,
            visits: w.visits,
        });
    }
    visit[top] = below;
    visit[top + 1] = above;
    Ok((Walk { top: needed, ..w }, act))
}

// Spans, then depth, then the visit stack.
fn visit_annotate(
    capacity: Capacity,
    tested: bool,
    w: Walk,
    annotation: AnnotationId,
    child: PlanId,
    visit: &mut [usize],
) -> Visited
    requires { (w.top ≤ capacity.visit) × (w.spans ≤ capacity.spans) × (w.depth ≤ capacity.depth) × (capacity.visit ≤ length visit.old) × Small capacity × Sure tested (annotate_turn capacity w annotation) }
    ensures { (result ≡ annotate_turn capacity w annotation) × (visit.new ≡ annotate_words capacity w (child.0 + 1) visit.old) }
{
    let spans = w.spans + 1;
    if exceeds(tested, spans, capacity.spans) {
        return Err(Passed {
            what: Exhausted::Spans,
            needed: spans,
            visits: w.visits,
        });
    }
    let depth = w.depth + 1;
    if exceeds(tested, depth, capacity.depth) {
        return Err(Passed {
            what: Exhausted::Depth,
            needed: depth,
            visits: w.visits,
        });
    }
    let above = word_of(child);
    let z = Walk { spans, depth, ..w };
    push_visits(capacity, tested, z, Act::Open(annotation), 0, above, visit)
}

fn visit_concat(
    capacity: Capacity,
    tested: bool,
    w: Walk,
    left: PlanId,
    right: PlanId,
    visit: &mut [usize],
) -> Visited
    requires { (w.top ≤ capacity.visit) × (capacity.visit ≤ length visit.old) × Small capacity × Sure tested (two_turn capacity w Act.Pass) }
    ensures { (result ≡ two_turn capacity w Act.Pass) × (visit.new ≡ two_words capacity w (right.0 + 1) (left.0 + 1) visit.old) }
{
    let below = word_of(right);
    let above = word_of(left);
    push_visits(capacity, tested, w, Act::Pass, below, above, visit)
}

fn visit_penalty(w: Walk, child: PlanId, visit: &mut [usize]) -> Visited
    requires { w.top < length visit.old }
    ensures { (result ≡ went (at_top w (w.top + 1)) Act.Pass) × (visit.new ≡ set visit.old w.top (child.0 + 1)) }
{
    visit[w.top] = word_of(child);
    Ok((
        Walk {
            top: w.top + 1,
            ..w
        },
        Act::Pass,
    ))
}

// One item is taken off the visit stack: what it puts, and where the walk stands then; or the first size that it passes.
fn visit_item(
    capacity: Capacity,
    tested: bool,
    w: Walk,
    plans: &[[u32; 3]],
    texts: &[[u32; 3]],
    visit: &mut [usize],
) -> Visited
    requires { Standing capacity plans.now texts.now visit.old w × (w.visits < capacity.visit_limit) × (tested ≡ false → Passing capacity plans.now texts.now visit.old w) }
    ensures { (o : Around) (bytes : List ℕ) → InBytes texts.now bytes → Turned capacity o plans.now texts.now bytes visit.old w visit.new result }
{
    let top = w.top - 1;
    let item = visit[top];
    let mut z = Walk {
        top,
        visits: w.visits + 1,
        ..w
    };
    if item == 0 {
        z.depth = w.depth - 1;
        return Ok((z, Act::Close));
    }
    let id = PlanId((item - 1) as u32);
    let node = plan_node(plans, id);
    match node {
        PlanNode::Empty => Ok((z, Act::Pass)),
        PlanNode::Text(text) => visit_text(capacity, tested, z, texts, text),
        PlanNode::Newline { indent } => visit_newline(capacity, tested, z, indent),
        PlanNode::Concat { left, right } => {
            visit_concat(capacity, tested, z, left, right, visit)
        }
        PlanNode::Annotate { annotation, child } => {
            visit_annotate(capacity, tested, z, annotation, child, visit)
        }
        PlanNode::Penalty { amount: _, child } => visit_penalty(z, child, visit),
    }
}

// The visit stack as both passes begin: the root alone.
pub fn begin_walk(visit: &mut [usize], root: PlanId) -> Walk
    requires { 0 < length visit.old }
    ensures { (result ≡ begin) × (visit.new ≡ set visit.old 0 (root.0 + 1)) }
{
    visit[0] = word_of(root);
    Walk {
        top: 1,
        depth: 0,
        at: 0,
        spans: 0,
        visits: 0,
    }
}

// The first pass: what the page needs, or the first limit that it passes. It writes the visit stack alone.
pub fn measure(
    capacity: Capacity,
    plans: &[[u32; 3]],
    texts: &[[u32; 3]],
    visit: &mut [usize],
    root: PlanId,
) -> Measured
    requires { (capacity.visit ≤ length visit.old) × Small capacity × Planned plans.now (length plans.now) texts.now root.0 }
    ensures { (bytes : List ℕ) → InBytes texts.now bytes → Answered capacity (plan plans.now texts.now bytes root.0) result }
{
    if capacity.visit == 0 {
        return Err(Passed {
            what: Exhausted::Visit,
            needed: 1,
            visits: 0,
        });
    }
    let mut w = begin_walk(visit, root);
    let mut highest = 1;
    let mut deepest = 0;
    // A while loop: the visit stack grows and shrinks, so there is no range to go over.
    while 0 < w.top {
        if capacity.visit_limit <= w.visits {
            return Err(Passed {
                what: Exhausted::Visits,
                needed: 0,
                visits: w.visits,
            });
        }
        let (z, _) = visit_item(capacity, true, w, plans, texts, visit)?;
        highest = highest.max(z.top);
        deepest = deepest.max(z.depth);
        w = z;
    }
    Ok(MeasuredPage {
        bytes: w.at,
        spans: w.spans,
        visits: w.visits,
        visit: highest,
        depth: deepest,
    })
}

// The bytes of `bytes` at the front of `output`, the part that starts at the current write position.
// Byte by byte: `copy_from_slice` would call memmove, which the library for C doesn't ask for.
fn append_output(bytes: &[u8], output: &mut [u8])
    requires { length bytes.now ≤ length output.old }
    ensures { output.new ≡ bytes.now ++ drop (length bytes.now) output.old }
{
    for i in 0..bytes.len() {
        output[i] = bytes[i];
    }
}

// A newline and its spaces at the front of `output`, likewise.
fn append_newline(indent: usize, output: &mut [u8])
    requires { indent < length output.old }
    ensures { output.new ≡ (10 ∷ replicate indent 32) ++ drop (indent + 1) output.old }
{
    output[0] = 10;
    output[1..indent + 1].fill(32);
}

// A text, from the position on.
fn put_text(bytes: &[u8], start: usize, len: usize, output: &mut [u8], at: usize)
    requires { (start + len ≤ length bytes.now) × (at + len ≤ length output.old) }
    ensures { output.new ≡ wrote (take len (drop start bytes.now)) at output.old }
{
    append_output(&bytes[start..start + len], &mut output[at..]);
}

// A newline and its spaces, from the position on.
fn put_newline(indent: usize, output: &mut [u8], at: usize)
    requires { at + indent < length output.old }
    ensures { output.new ≡ wrote (10 ∷ replicate indent 32) at output.old }
{
    append_newline(indent, &mut output[at..]);
}

// The span around what opens next, as a word: 0, or one more than its number.
fn parent(depth: &[usize], level: usize) -> usize
    requires { (level ≤ length depth.now) × Under (2 ^ 32) (pile depth.now level) }
    ensures { result ≡ parent_word (innermost (pile depth.now level)) }
{
    if level == 0 { 0 } else { depth[level - 1] + 1 }
}

// A span opens: it is told, and its number is the last of the open ones.
fn push_open_span(annotation: AnnotationId, w: Walk, depth: &mut [usize]) -> Mark
    requires { (w.depth < length depth.old) × Under (2 ^ 32) (pile depth.old w.depth) }
    ensures { (depth.new ≡ depth_after (Act.Open annotation) w depth.old) × (result ≡ mark_of (Act.Open annotation) w depth.old) × (annotation.0 < 2 ^ 32) }
{
    let up = parent(depth, w.depth);
    depth[w.depth] = w.spans;
    Mark::Open(w.spans, annotation, w.at as u64, up as u64)
}

// The last open span closes: it is told.
fn pop_open_span(w: Walk, depth: &[usize]) -> Mark
    requires { (0 < w.depth) × (w.depth ≤ length depth.now) }
    ensures { result ≡ mark_of Act.Close w depth.now }
{
    Mark::Close(depth[w.depth - 1], w.at as u64)
}

// What an item puts is put; what it marks is told.
fn perform(act: Act, w: Walk, bytes: &[u8], depth: &mut [usize], output: &mut [u8]) -> Mark
    requires { Allowed act w bytes.now depth.old output.old }
    ensures { Performed act w bytes.now depth.old depth.new output.old output.new result }
{
    match act {
        Act::Pass => Mark::Nothing,
        Act::Put(start, len) => {
            put_text(bytes, start, len, output, w.at);
            Mark::Nothing
        }
        Act::Line(indent) => {
            put_newline(indent, output, w.at);
            Mark::Nothing
        }
        Act::Open(annotation) => push_open_span(annotation, w, depth),
        Act::Close => pop_open_span(w, depth),
    }
}

// A turn of the second pass. No test could fail, so none is made, and the walk is never stopped.
pub fn turn(
    capacity: Capacity,
    w: Walk,
    plans: &[[u32; 3]],
    texts: &[[u32; 3]],
    bytes: &[u8],
    visit: &mut [usize],
    depth: &mut [usize],
    output: &mut [u8],
) -> Step
    requires { Turning capacity plans.now texts.now bytes.now visit.old depth.old output.old w }
    ensures { Stepped capacity plans.now texts.now bytes.now visit.old depth.old output.old w visit.new depth.new output.new result }
{
    let v = visit_item(capacity, false, w, plans, texts, visit);
    match v {
        Err(_) => Step {
            walk: w,
            mark: Mark::Nothing,
        },
        Ok((z, act)) => Step {
            walk: z,
            mark: perform(act, w, bytes, depth, output),
        },
    }
}

// A turn over the part of the tables that is in use.
pub fn turn_within(
    capacity: Capacity,
    chosen: Chosen,
    w: Walk,
    plans: &[[u32; 3]],
    texts: &[[u32; 3]],
    bytes: &[u8],
    visit: &mut [usize],
    depth: &mut [usize],
    output: &mut [u8],
) -> Step
    requires { InUse chosen plans.now texts.now bytes.now × Turning capacity (take chosen.plans plans.now) (take chosen.texts texts.now) (take chosen.bytes bytes.now) visit.old depth.old output.old w }
    ensures { Stepped capacity (take chosen.plans plans.now) (take chosen.texts texts.now) (take chosen.bytes bytes.now) visit.old depth.old output.old w visit.new depth.new output.new result }
{
    turn(
        capacity,
        w,
        &plans[..chosen.plans],
        &texts[..chosen.texts],
        &bytes[..chosen.bytes],
        visit,
        depth,
        output,
    )
}

// What is to be marked, in rows of words.
fn mark_row(mark: Mark, spans: &mut [[u64; 4]])
    requires { MarkFits (length spans.old) mark }
    ensures { spans.new ≡ marked mark spans.old }
{
    match mark {
        Mark::Nothing => {}
        Mark::Open(n, annotation, at, up) => {
            spans[n] = [annotation.0 as u64, at, at, up];
        }
        Mark::Close(n, at) => {
            spans[n][2] = at;
        }
    }
}

// The second pass, over a plan that the first has passed: the page, and the spans in rows of words.
pub fn write(
    capacity: Capacity,
    plans: &[[u32; 3]],
    texts: &[[u32; 3]],
    bytes: &[u8],
    visit: &mut [usize],
    depth: &mut [usize],
    output: &mut [u8],
    spans: &mut [[u64; 4]],
    root: PlanId,
)
    requires { Lent capacity visit.old depth.old output.old spans.old × Planned plans.now (length plans.now) texts.now root.0 × InBytes texts.now bytes.now × Passes capacity (plan plans.now texts.now bytes.now root.0) }
    ensures { Written (plan plans.now texts.now bytes.now root.0) output.old output.new spans.old spans.new }
{
    let mut w = begin_walk(visit, root);
    // A while loop, as in `measure`.
    while 0 < w.top {
        let s = turn(capacity, w, plans, texts, bytes, visit, depth, output);
        mark_row(s.mark, spans);
        w = s.walk;
    }
}
