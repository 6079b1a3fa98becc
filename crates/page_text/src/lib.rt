// All that the program `page` writes, as one function of what it reads; and a call in memory of the program's sizes.
#![tactic(auto)]

ghost use Rattle.std.specs.Prelude.{◌≡◌, ◌≤◌, length};
ghost use Rattle.solve_workspace.specs.Meets.{limits};
ghost use Rattle.render.specs.Call.{settings};
ghost use Rattle.page_text.specs.Printed.{page_bounds, Prints};
ghost use Rattle.page_text.specs.Shown.{RenderedSized, Fitting, Told, Shown};

use page_lines::{page_text, refused_line};
use page_setting::setting_at;
use render::call::render_core;
use render::page::Rendered;
use solve_workspace::{Bounds, RenderOptions};

// The text of an answer whose page stands in the output.
fn print_answer(r: Rendered, output: &[u8], text: &mut [u8]) -> usize
    requires { Fitting r output.now text.old }
    ensures { Told r output.now text.new result }
{
    match r {
        Ok(page) => page_text(
            text,
            page.stats.work_items,
            page.cost.overflow_high,
            page.cost.overflow_low,
            page.cost.burden,
            page.spans as u64,
            &output[..page.length],
        ),
        Err(refusal) => refused_line(text, refusal.number),
    }
}

// The sizes and limits of `page`.
fn page_bounds() -> Bounds
    ensures { limits result ≡ page_bounds }
{
    Bounds {
        stack: 512,
        memo: 1024,
        kept: 1024,
        frontier: 256,
        plans: 2048,
        visit: 512,
        depth: 64,
        output: 32768,
        spans: 512,
        work_limit: 1000000,
        visit_limit: 1000000,
    }
}

// A call in memory of the program's sizes (docs/MEMORY.md), but for output and spans, which are lent. Larger sizes are 1.
pub fn render_sized(
    file: &[u8],
    options: RenderOptions,
    b: Bounds,
    output: &mut [u8],
    spans: &mut [[u64; 4]],
) -> Rendered
    ensures { RenderedSized file.now options b output.old output.new spans.old spans.new result }
{
    let mut nodes = [[0u32; 8]; 4096];
    let mut edges = [0u32; 16384];
    let mut choices = [0u32; 16384];
    let mut texts = [[0u32; 3]; 4096];
    let mut bytes = [0u8; 65536];
    let mut tasks = [[0u32; 9]; 512];
    let mut results = [[0u32; 2]; 512];
    let mut pending = [[0u64; 7]; 512];
    let mut index = [0u64; 2048];
    let mut entries = [[0u64; 6]; 1024];
    let mut kept = [[0u64; 6]; 1024];
    let mut frontier = [0u64; 3584];
    let mut plans = [[0u32; 3]; 2048];
    let mut visit = [0usize; 512];
    let mut depth = [0usize; 64];
    render_core(
        file,
        options,
        b,
        &mut nodes,
        &mut edges,
        &mut choices,
        &mut texts,
        &mut bytes,
        &mut tasks,
        &mut results,
        &mut pending,
        &mut index,
        &mut entries,
        &mut kept,
        &mut frontier,
        &mut plans,
        &mut visit,
        &mut depth,
        output,
        spans,
    )
}

// The text of the answer for a file.
fn print_file(file: &[u8], options: RenderOptions, text: &mut [u8]) -> usize
    requires { 32870 ≤ length text.old }
    ensures { Shown file.now (settings options) text.new result }
{
    let mut output = [0u8; 32768];
    let mut spans = [[0u64; 4]; 512];
    let b = page_bounds();
    let r = render_sized(file, options, b, &mut output, &mut spans);
    print_answer(r, &output, text)
}

// All that the program writes, at the front of `text`: a line of at most 101 bytes, a page of at most 32,768, and a closing byte. The answer is how many bytes they are.
pub fn print_page(input: &[u8], text: &mut [u8; 32870]) -> usize
    ensures { Prints input.now text.new result }
{
    if 32768 < input.len() {
        return refused_line(text, 4);
    }
    let setting = setting_at(input);
    let next = setting.next;
    if next.fault != 0 {
        return refused_line(text, next.fault);
    }
    let options = RenderOptions {
        width: setting.width,
        newline_cost: setting.newline_cost,
        policy: setting.policy,
        rule: setting.rule,
    };
    print_file(&input[next.at..], options, text)
}
