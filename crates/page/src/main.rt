// The program `page`: standard input to standard output. All else is in crate page_text.
#![tactic(auto)]

use std::io::Write;
use streams::read_full;

fn main(rt: HostRuntime) {
    // One byte more than an input may have, so that a longer one is seen.
    let mut input = [0u8; 32769];
    // Input that cannot be read further counts as ended.
    let (n, _) = read_full(&mut rt.stdin(), &mut input);
    let mut text = [0u8; 32870];
    let k = page_text::print_page(&input[..n], &mut text);
    let written = rt.stdout().write_all(&text[..k]);
    if written.is_err() {
        let _ = eprintln!(rt; "page: output cut short");
    }
}
