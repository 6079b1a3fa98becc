// Span records (document 01: the caller lends a list of them): annotation, start, end, parent span or none. Thin functions open and close one in the lent list.
#![tactic(auto)]

ghost use Rattle.std.specs.Prelude.{◌≡◌, ◌<◌, length, set, get_or};
ghost use Rattle.spans.specs.Spans.{open_span, close_span, blank, word_fits, parent_from};

use file_tables::AnnotationId;

#[derive(Clone, Copy)]
pub struct SpanId(pub u32);

#[derive(Clone, Copy)]
pub struct AnnotationSpan {
    pub annotation: AnnotationId,
    pub start: u64,
    pub end: u64,
    pub parent: Option<SpanId>,
}

// A span where it is opened, and the same span where it is closed.
pub fn opened(annotation: AnnotationId, position: u64, parent: Option<SpanId>) -> AnnotationSpan
    ensures { result ≡ open_span annotation position parent }
{
    AnnotationSpan {
        annotation,
        start: position,
        end: position,
        parent,
    }
}

pub fn closed(s: AnnotationSpan, position: u64) -> AnnotationSpan
    ensures { result ≡ close_span s position }
{
    AnnotationSpan { end: position, ..s }
}

// A span is opened in the lent list.
pub fn open_span(
    spans: &mut [AnnotationSpan],
    at: usize,
    annotation: AnnotationId,
    position: u64,
    parent: Option<SpanId>,
)
    requires { at < length spans.old }
    ensures { spans.new ≡ set spans.old at (open_span annotation position parent) }
{
    spans[at] = opened(annotation, position, parent);
}

// A span is closed in the lent list.
pub fn close_span(spans: &mut [AnnotationSpan], at: usize, position: u64)
    requires { at < length spans.old }
    ensures { spans.new ≡ set spans.old at (close_span (get_or spans.old at blank) position) }
{
    spans[at] = closed(spans[at], position);
}

// A parent as a word holds it: 0 is none, and k + 1 the span k.
pub fn parent_of(w: u64) -> Option<SpanId>
    requires { word_fits w }
    ensures { result ≡ parent_from w }
{
    if w == 0 {
        None
    } else {
        Some(SpanId((w - 1) as u32))
    }
}
