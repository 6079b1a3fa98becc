// The second pass over a layout, into what the caller lends: the spans into its list of span records, the visits into its record of counts.
#![tactic(auto)]

ghost use Rattle.std.specs.Prelude.{◌≡◌, ◌+◌, ◌<◌, ◌^◌, length};
ghost use Rattle.materialize.specs.Writes.{MarkFits};
ghost use Rattle.stats.specs.Counts.{counted, bumped};
ghost use Rattle.stats.specs.declared.SolveCounter.TheVariants.{Visits};
ghost use Rattle.records.specs.Records.{recorded, Begun, Recorded};

use materialize::{Capacity, Chosen, Mark, Walk, turn_within};
use spans::{AnnotationSpan, close_span, open_span, parent_of};
use stats::{SolveCounter, SolveStats, increment};

// A span is opened or closed in the lent list.
fn put_mark(mark: Mark, spans: &mut [AnnotationSpan])
    requires { MarkFits (length spans.old) mark }
    ensures { spans.new ≡ recorded mark spans.old }
{
    match mark {
        Mark::Nothing => {}
        Mark::Open(n, annotation, at, up) => open_span(spans, n, annotation, at, parent_of(up)),
        Mark::Close(n, at) => close_span(spans, n, at),
    }
}

// A visit leaves its mark, and is counted.
fn mark_and_count(mark: Mark, stats: &mut SolveStats, spans: &mut [AnnotationSpan])
    requires { MarkFits (length spans.old) mark × (counted stats.old Visits + 1 < 2 ^ 64) }
    ensures { (stats.new ≡ bumped stats.old Visits) × (spans.new ≡ recorded mark spans.old) }
{
    put_mark(mark, spans);
    increment(stats, SolveCounter::Visits);
}

// The second pass, over a layout that the first has passed: its page into `output`, its spans into `spans`, its visits into `stats`. A walk with nothing to visit alters nothing.
pub fn write_records(
    capacity: Capacity,
    chosen: Chosen,
    start: Walk,
    plans: &[[u32; 3]],
    texts: &[[u32; 3]],
    bytes: &[u8],
    visit: &mut [usize],
    depth: &mut [usize],
    output: &mut [u8],
    stats: &mut SolveStats,
    spans: &mut [AnnotationSpan],
)
    requires { Begun capacity chosen plans.now texts.now bytes.now visit.old depth.old output.old stats.old spans.old start }
    ensures { Recorded capacity chosen plans.now texts.now bytes.now output.old output.new stats.old stats.new spans.old spans.new start }
{
    let mut w = start;
    // A while loop: the stack of what is still to visit grows and shrinks, so there is no range to go over.
    while 0 < w.top {
        let s = turn_within(
            capacity, chosen, w, plans, texts, bytes, visit, depth, output,
        );
        mark_and_count(s.mark, stats, spans);
        w = s.walk;
    }
}
