// Calls from standard input, five lines each, as in differential/sample: for each its name and its answer.
//
//     case NAME
//     file HEX                  `-` where it is empty
//     settings WIDTH NEWLINE_COST POLICY RULE
//     sizes STACK MEMO KEPT FRONTIER PLANS VISIT DEPTH OUTPUT SPANS
//     limits WORK VISITS
//
// Memory is lent at the sizes of `page`; a call with larger sizes is 1.
#![tactic(auto)]

use page_text::render_sized;
use solve_workspace::{Bounds, RenderOptions};
use std::io;
use std::io::Write;
use streams::read_full;
use test_answers::{bounds_of, hand_on, print_answer};
use test_lines::{file_at, numbers_at, small};

fn options_of(w: [u64; 4]) -> RenderOptions {
    RenderOptions {
        width: small(w[0]),
        newline_cost: small(w[1]),
        policy: small(w[2]),
        rule: small(w[3]),
    }
}

fn run<W: Write>(writer: &mut W, file: &[u8], options: RenderOptions, b: Bounds) -> io::Result<()> {
    let mut output = [0u8; 32768];
    let mut spans = [[0u64; 4]; 512];
    let r = render_sized(file, options, b, &mut output, &mut spans);
    print_answer(writer, r, &output, &spans)
}

fn call_at<W: Write>(writer: &mut W, input: &[u8], from: usize) -> io::Result<usize> {
    let mut file = [0u8; 8192];
    let mut w = [0u64; 4];
    let mut s = [0u64; 9];
    let mut l = [0u64; 2];
    let named = hand_on(writer, input, from)?;
    let read = file_at(input, named, &mut file);
    let set = numbers_at(input, read.next, &mut w);
    let sized = numbers_at(input, set, &mut s);
    let at = numbers_at(input, sized, &mut l);
    let n = test_lines::count(read.line, &file);
    run(writer, &file[..n], options_of(w), bounds_of(s, l))?;
    Ok(at)
}

fn all<W: Write>(writer: &mut W, input: &[u8]) -> io::Result<()> {
    let mut at: usize = 0;
    for _ in 0..4096 {
        if input.len() <= at {
            break;
        }
        at = call_at(writer, input, at)?;
    }
    Ok(())
}

fn main(rt: HostRuntime) -> io::Result<()> {
    let mut input = vec![in rt.alloc(); 0u8; 524288]?;
    let (n, read) = read_full(&mut rt.stdin(), &mut input);
    read?;
    all(&mut rt.stdout(), &input[..n])
}
